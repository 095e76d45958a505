use super::*;
use std::alloc::AllocError;
use std::test::Fail;

fn same<T: PartialEq>(left: &T, right: &T) -> bool {
    left == right
}

#[test]
fn texts_and_lists(rt: HostRuntime) -> Result<(), Fail> {
    let text = Text::of(format!(in rt.alloc(); "a{}", 1)?);
    let other = text.copy()?;
    assert!(rt; same(&text, &other));
    assert_eq!(rt; text.clone()?.as_str(), "a1");
    assert_eq!(rt; other.into_string().as_str(), "a1");

    let mut items = Items::of([1, 2].to_vec(rt.alloc())?);
    let before = items.clone()?;
    if let Some(first) = items.as_mut_slice().first_mut() {
        *first = 3;
    }
    assert_eq!(rt; items.as_slice(), [3, 2].as_slice());
    assert!(rt; !same(&items, &before));
    assert_eq!(rt; before.into_vec().as_slice(), [1, 2].as_slice());

    assert_eq!(rt; Memory::from(AllocError), Memory);
    Ok(())
}

#[test]
fn equal_items(rt: HostRuntime) -> Result<(), Fail> {
    let alloc = rt.alloc();
    let firsts = Firsts::of(alloc, [3u64, 5, 3, 7].to_vec(alloc)?)?;
    for (item, want) in [(3, Some(0)), (5, Some(1)), (7, Some(3)), (4, None)] {
        assert_eq!(rt; firsts.first(&item), want);
        assert_eq!(rt; firsts.first_or_len(&item), want.unwrap_or(4));
    }
    assert_eq!(rt; firsts.as_slice(), [3, 5, 3, 7].as_slice());

    let pair = |first, second| TextPair { first, second };
    let apart = [
        pair("a", "b"),
        pair("ab", ""),
        pair("", "ab"),
        pair("b", "a"),
    ];
    assert_eq!(rt; has_equal_pairs(alloc, &apart), Ok(false));
    let twice = [pair("a", "b"), pair("b", "a"), pair("a", "b")];
    assert_eq!(rt; has_equal_pairs(alloc, &twice), Ok(true));
    assert_eq!(rt; has_equal_pairs(alloc, &apart[..0]), Ok(false));
    Ok(())
}
