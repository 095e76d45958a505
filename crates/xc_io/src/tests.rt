// What no clause says: each kind once with ample memory, and the two kinds over the system at real
// files and writers.

use crate::{FolderShelf, MemoryShelf, MemorySink, Shelf, ShelfFault, Sink, SinkFault, StreamSink};
use std::io::{ErrorKind, Write};
use std::process::Abort;
use std::test::Fail;
use std::{env, fs, io, process};

fn fetch<S: Shelf>(
    rt: &impl Abort,
    shelf: &mut S,
    name: &str,
    room: u32,
    want: Result<&[u8], ShelfFault>,
) {
    match shelf.fetch(name, room as usize) {
        Ok(bytes) => assert_eq!(rt; Ok(bytes.as_slice()), want, "{name} in {room}"),
        Err(fault) => assert_eq!(rt; Err(fault), want, "{name} in {room}"),
    }
}

// Pieces, each with whether it is written.
fn put_each<S: Sink>(rt: &impl Abort, sink: &mut S, puts: &[(&str, bool)]) {
    for (piece, fits) in puts {
        let want = if *fits {
            Ok(())
        } else {
            Err(SinkFault::Failed)
        };
        assert_eq!(rt; sink.put(piece.as_bytes()), want, "{piece}");
    }
}

#[test]
fn files_in_memory(rt: HostRuntime) -> Result<(), Fail> {
    let alloc = rt.alloc();
    let mut files = Vec::new(alloc);
    for (name, bytes) in [("a", "one"), ("b", "four"), ("a", "later")] {
        let name = String::from_str(alloc, name)?;
        files.push((name, bytes.as_bytes().to_vec(alloc)?))?;
    }
    let mut shelf = MemoryShelf::new(alloc, files, vec![in alloc; 1]?);
    for (name, room, want) in [
        ("a", 3, Ok("one")),
        ("a", 3, Err(ShelfFault::Failed)),
        ("b", 3, Err(ShelfFault::TooLong)),
        ("c", 9, Err(ShelfFault::Failed)),
        ("b", 4, Ok("four")),
    ] {
        fetch(
            &rt,
            &mut shelf,
            name,
            room,
            want.map(|text| text.as_bytes()),
        );
    }
    Ok(())
}

#[test]
fn bytes_in_memory(rt: HostRuntime) -> Result<(), Fail> {
    let alloc = rt.alloc();
    let mut sink = MemorySink::new(alloc, 8, vec![in alloc; 1]?)
        .ok()
        .ok_or("no memory")?;
    put_each(
        &rt,
        &mut sink,
        &[("abc", true), ("defgh", false), ("xyzw", false), ("", true)],
    );
    assert_eq!(rt; sink.bytes(), b"abcdexyz".as_slice());

    let mut small = MemorySink::new(alloc, 2, vec![in alloc; 0]?)
        .ok()
        .ok_or("no memory")?;
    put_each(
        &rt,
        &mut small,
        &[("abcdef", false), ("", true), ("g", false)],
    );
    assert_eq!(rt; small.bytes(), b"ab".as_slice());
    Ok(())
}

#[test]
fn files_of_the_system(rt: HostRuntime) -> Result<(), Fail> {
    let alloc = rt.alloc();
    let id = process::id(rt.process());
    let name = format!(in alloc; "xc_io-test-{id}")?;
    let folder = env::temp_dir(&rt)?.join(alloc, name.as_str())?;
    let short = folder.join(alloc, "short")?;
    let long = folder.join(alloc, "long")?;
    let missing = folder.join(alloc, "missing")?;
    let many = vec![in alloc; 7u8; 200_000]?;
    fs::create_dir(&rt, folder.as_str())?;
    fs::write(&rt, short.as_str(), b"bytes".as_slice())?;
    fs::write(&rt, long.as_str(), many.as_slice())?;

    let mut shelf = FolderShelf::new(&rt, alloc);
    fetch(&rt, &mut shelf, short.as_str(), 5, Ok(b"bytes"));
    fetch(&rt, &mut shelf, short.as_str(), 4, Err(ShelfFault::TooLong));
    fetch(&rt, &mut shelf, long.as_str(), 200_000, Ok(many.as_slice()));
    fetch(
        &rt,
        &mut shelf,
        long.as_str(),
        199_999,
        Err(ShelfFault::TooLong),
    );
    for lost in [missing.as_str(), folder.as_str()] {
        fetch(&rt, &mut shelf, lost, 0, Err(ShelfFault::Failed));
    }
    fs::remove_dir_all(&rt, folder.as_str())?;
    Ok(())
}

// Takes a byte a write, up to a count, and fails from then on.
#[derive(Drop)]
struct Breaking<'a> {
    taken: &'a mut Vec<u8>,
    left: u32,
}

impl Write for Breaking<'_> {
    fn write(&mut self, buf: &[u8]) -> io::Result<usize> {
        let [first, ..] = buf else { return Ok(0) };
        if self.left == 0 {
            return Err(io::Error::from(ErrorKind::BrokenPipe));
        }
        self.left -= 1;
        self.taken.push(*first)?;
        Ok(1)
    }

    fn flush(&mut self) -> io::Result<()> {
        Ok(())
    }
}

#[test]
fn writers(rt: HostRuntime) -> Result<(), Fail> {
    let mut bytes = Vec::new(rt.alloc());
    put_each(
        &rt,
        &mut StreamSink::new(&mut bytes),
        &[("ab", true), ("", true), ("c", true)],
    );
    assert_eq!(rt; bytes.as_slice(), b"abc".as_slice());

    // A slice takes what fits, and then nothing.
    let mut four = [b'-'; 4];
    put_each(
        &rt,
        &mut StreamSink::new(four.as_mut_slice()),
        &[("ab", true), ("cdef", false)],
    );
    assert_eq!(rt; four.as_slice(), b"abcd".as_slice());

    let mut taken = Vec::new(rt.alloc());
    let breaking = Breaking {
        taken: &mut taken,
        left: 3,
    };
    put_each(
        &rt,
        &mut StreamSink::new(breaking),
        &[("ab", true), ("cd", false), ("e", false)],
    );
    assert_eq!(rt; taken.as_slice(), b"abc".as_slice());
    Ok(())
}
