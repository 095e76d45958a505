// A shelf over the files of the system.
ghost use Rattle.std.specs.Prelude.{◌≡◌, ◌^◌, ◌-◌, ◌<◌, ◌≤◌, length, take, Result, IfOk, IfSome, IsErrOf, MatchOption};
ghost use Rattle.xc_io.specs.FolderShelf.{FolderState, OpenGives, fault_of, read_answer};
ghost use Rattle.std.specs.declared.io.Error.{Error};
ghost use Rattle.xc_io.specs.Faults.{Rose, next_count};

use crate::{Shelf, ShelfFault};
use std::alloc::Global;
use std::io::{ErrorKind, Read};
use std::marker::Model;
use std::rt::Files;
use std::{fs, io};

/// Files of a runtime, each opened by its name as a path.
///
/// It tells nothing of what is held, and is never steady. An error of the system on opening or
/// reading is a fault, as is the reading of a directory; its want of memory is
/// `ShelfFault::Memory`. An interrupted read is tried again, as the standard library does.
#[derive(Drop)]
pub struct FolderShelf<'a, R: Files> {
    alloc: Global,
    rt: &'a R,
    fetches: u64,
    faults: u64,
}

// A folder is seen as its counts.
impl<'a, R: Files> Model for FolderShelf<'a, R> {
    ghost use Rattle.xc_io.specs.FolderShelf.{FolderState};

    ghost Value = { FolderState };

    ghost view = { λ s. record { fetches = s.fetches; faults = s.faults } };
}

impl<'a, R: Files> FolderShelf<'a, R> {
    /// A shelf over the files of `rt`, whose bytes are kept in memory of `alloc`.
    pub fn new(rt: &'a R, alloc: Global) -> Self
        ensures { result ≡ record { fetches = 0; faults = 0 } }
    {
        FolderShelf {
            alloc,
            rt,
            fetches: 0,
            faults: 0,
        }
    }
}

// The reader's bytes to its end, or the first `most` of them.
fn take_up_to<F: Read + Drop>(alloc: Global, reader: F, most: usize) -> io::Result<Vec<u8>>
    ensures { IfSome (F.remaining reader) (λ left.
        IfOk result (λ bytes. bytes.items ≡ take most left)) }
{
    let mut bytes = Vec::new(alloc);
    reader.take(most as u64).read_to_end(&mut bytes)?;
    Ok(bytes)
}

// The reader's bytes to its end, or none where they are more than the room.
#[tactic(auto, using(crate::proofs::Taken::taken_whole, crate::proofs::Taken::taken_part))]
fn read_within<F: Read + Drop>(alloc: Global, reader: F, room: usize) -> io::Result<Option<Vec<u8>>>
    requires { room < 2 ^ 64 - 1 }
    ensures whole { IfSome (F.remaining reader) (λ left. IfOk result (λ read.
        MatchOption read (room < length left) (λ bytes. bytes.items ≡ left))) }
    ensures room { IfOk result (λ read. IfSome read (λ bytes. length bytes.items ≤ room)) }
{
    // One byte past the room tells that there are more.
    let bytes = take_up_to(alloc, reader, room + 1)?;
    if bytes.len() > room {
        Ok(None)
    } else {
        Ok(Some(bytes))
    }
}

// What is answered of an error on opening or reading.
fn fault_of(error: &io::Error) -> ShelfFault
    ensures { result ≡ fault_of error.now }
{
    if error.kind() == ErrorKind::OutOfMemory {
        ShelfFault::Memory
    } else {
        ShelfFault::Failed
    }
}

// What is answered of what was read of a file.
fn read_answer(read: io::Result<Option<Vec<u8>>>) -> Result<Vec<u8>, ShelfFault>
    ensures { result ≡ read_answer read }
{
    match read {
        Ok(Some(bytes)) => Ok(bytes),
        Ok(None) => Err(ShelfFault::TooLong),
        Err(error) => Err(fault_of(&error)),
    }
}

// What is answered of a file that was opened, or was not.
fn open_answer<F: Read + Drop>(
    alloc: Global,
    opened: io::Result<F>,
    room: usize,
) -> Result<Vec<u8>, ShelfFault>
    requires { room < 2 ^ 64 - 1 }
    ensures opened { OpenGives F.remaining opened room result }
    ensures room { IfOk result (λ bytes. length bytes.items ≤ room) }
{
    match opened {
        Ok(file) => read_answer(read_within(alloc, file, room)),
        Err(error) => Err(fault_of(&error)),
    }
}

impl<R: Files> Shelf for FolderShelf<'_, R> {
    ghost use Rattle.std.specs.Prelude.{None, false};

    ghost held = { λ _. None };

    ghost faults = { λ s. s.faults };

    ghost fetches = { λ s. s.fetches };

    ghost steady = { λ _. false };

    ghost steady_tells = { λ s h. absurd (cc) };

    fn fetch(&mut self, name: &str, room: usize) -> Result<Vec<u8>, ShelfFault>
        requires { room < 2 ^ 64 - 1 }

        // The answer is that of an attempt to open a file: there are bytes only where one was opened.
        ensures opened { (opened : Result R.File Error) × OpenGives R.File.remaining opened room result }
        ensures room { IfOk result (λ bytes. length bytes.items ≤ room) }
        ensures failed { IsErrOf result ShelfFault.Failed → self.new.faults ≡ next_count self.old.faults }
        ensures worked { ¬ IsErrOf result ShelfFault.Failed → self.new.faults ≡ self.old.faults }
        ensures counted { self.new.fetches ≡ next_count self.old.fetches }
    {
        self.fetches = self.fetches.saturating_add(1);
        let answer = open_answer(self.alloc, fs::open(self.rt, name), room);
        if let Err(ShelfFault::Failed) = answer {
            self.faults = self.faults.saturating_add(1);
        }
        answer
    }
}
