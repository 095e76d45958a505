use crate::{Expanded, NameFault, NameId, NameSet, Names, Prefixes, expand};
use std::test::Fail;
use xc_lists::Memory;

#[test]
fn equal_names_have_one_number(rt: HostRuntime) {
    let alloc = rt.alloc();
    let mut names = Names::new(alloc);
    assert_eq!(rt; names.find("u", "a"), None);
    for (space, local, number) in [
        ("u", "a", 0),
        ("u", "b", 1),
        ("v", "a", 2),
        ("", "a", 3),
        ("u", "a", 0),
        ("ua", "", 4),
        ("v", "a", 2),
    ] {
        assert_eq!(rt; names.number(space, local), Ok(NameId(number)));
        assert_eq!(rt; names.find(space, local), Some(NameId(number)));
    }
    for (space, local) in [("v", "b"), ("u", ""), ("", "u"), ("", "")] {
        assert_eq!(rt; names.find(space, local), None);
    }
}

#[test]
fn a_number_tells_its_name(rt: HostRuntime) -> Result<(), Fail> {
    let alloc = rt.alloc();
    let mut names = Names::new(alloc);
    let id = names.number("v", "a").ok().ok_or("no memory")?;
    let name = names.name(id);
    assert!(rt; name.is("v", "a") && !name.is("u", "a") && !name.is("v", "b"));
    let same = Expanded::of(alloc, "v", "a")?;
    let other = Expanded::of(alloc, "u", "a")?;
    assert!(rt; *name == same && *name == same.clone()? && *name != other);
    Ok(())
}

#[test]
fn prefixes_name_spaces(rt: HostRuntime) {
    let alloc = rt.alloc();
    let mut prefixes = Prefixes::new(alloc);
    assert_eq!(rt; prefixes.get("cur"), None);
    let money = "http://www.xbrl.org/2003/iso4217";
    for (prefix, space) in [
        ("iso4217", "old"),
        ("cur", money),
        ("iso4217", money),
        ("", "e"),
    ] {
        assert_eq!(rt; prefixes.set(prefix, space), Ok(()));
        assert_eq!(rt; prefixes.get(prefix), Some(space));
    }
    assert_eq!(rt; prefixes.get("Cur"), None);
    let mut names = Names::new(alloc);
    for (text, number) in [
        ("iso4217:EUR", Ok(NameId(0))),
        ("cur:EUR", Ok(NameId(0))),
        ("cur:USD", Ok(NameId(1))),
        ("EUR", Err(NameFault::NotName)),
        (":EUR", Err(NameFault::NotName)),
        ("cur:", Err(NameFault::NotName)),
        ("x:y:z", Err(NameFault::NotName)),
        ("x:EUR", Err(NameFault::NoPrefix)),
        ("iso4217:USD", Ok(NameId(1))),
    ] {
        assert_eq!(rt; expand(&mut names, &prefixes, text), number);
    }
    assert_eq!(rt; NameFault::from(Memory), NameFault::Memory);
}

// Numbers that are put in more than once are listed once, ascending.
#[test]
fn numbers_are_listed(rt: HostRuntime) -> Result<(), Fail> {
    let alloc = rt.alloc();
    let mut set = NameSet::new(alloc);
    assert_eq!(rt; set.ids(alloc)?.as_slice(), [].as_slice());
    for number in [7, 3, 7, 0, 3] {
        set.insert(NameId(number))?;
    }
    assert_eq!(rt;
        set.ids(alloc)?.as_slice(),
        [NameId(0), NameId(3), NameId(7)].as_slice()
    );
    Ok(())
}
