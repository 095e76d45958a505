// A shelf in memory, of which chosen calls fail.
ghost use Rattle.std.specs.Prelude.{◌≡◌, ◌^◌, ◌-◌, ◌<◌, ◌≤◌, ◌↔◌, [], IsTrue, length, IfOk, IsErrOf, IsNone, find, string_bytes, if◌then◌else◌};
ghost use Rattle.std.specs.Option.{option_map};
ghost use Rattle.std.specs.Str.{bytes_eq};
ghost use Rattle.xc_io.specs.Calls.{no_calls, is_past};
ghost use Rattle.xc_io.specs.Shelf.{FetchGives};
ghost use Rattle.xc_io.specs.MemoryShelf.{files_of, first_file, found, after_fetch};

use crate::calls::Calls;
use crate::{Shelf, ShelfFault};
use std::alloc::Global;
use std::marker::Model;

/// Files in memory, for tests and for callers that have the bytes at hand.
///
/// Fetches are counted from 0. One whose number is among the failing ones, or whose name is not held,
/// is a fault, and no other is. The first file of a name counts. The shelf is steady exactly where no
/// failing number is that of a later fetch.
#[derive(Drop)]
pub struct MemoryShelf {
    alloc: Global,
    files: Vec<(String, Vec<u8>)>,
    calls: Calls,
}

impl Model for MemoryShelf {
    ghost use Rattle.xc_io.specs.MemoryShelf.{ShelfState, files_of};

    ghost Value = { ShelfState };

    ghost view = { λ s. record { files = files_of s.files.items; calls = s.calls } };
}

impl MemoryShelf {
    /// A shelf of these files, each a name and its bytes, and of the numbers of the fetches that fail.
    pub fn new(alloc: Global, files: Vec<(String, Vec<u8>)>, failing: Vec<u64>) -> MemoryShelf
        ensures state { result
            ≡ record { files = files_of files.items; calls = no_calls failing.items } }
        ensures steady { IsTrue (is_past result.calls) ↔ (failing.items ≡ []) }
    {
        MemoryShelf {
            alloc,
            files,
            calls: Calls::new(failing),
        }
    }
}

fn find_file<'a>(files: &'a [(String, Vec<u8>)], name: &str) -> Option<&'a Vec<u8>>
    ensures { option_map (λ bytes. bytes.now.items) result
        ≡ option_map (λ file. file.1.items)
        (find (λ file. bytes_eq (string_bytes file.0) name.now) files.now) }
{
    files
        .iter()
        .find(|file| file.0.as_str() == name)
        .map(|file| &file.1)
}

// What a fetch finds: nothing where the call is to fail.
fn serve<'a>(files: &'a [(String, Vec<u8>)], name: &str, fails: bool) -> Option<&'a Vec<u8>>
    ensures { option_map (λ bytes. bytes.now.items) result
        ≡ (if fails then None else first_file (files_of files.now) name.now) }
{
    if fails { None } else { find_file(files, name) }
}

impl Shelf for MemoryShelf {
    ghost use Rattle.std.specs.Prelude.{Some, refl};
    ghost use Rattle.xc_io.specs.Calls.{is_past};
    ghost use Rattle.xc_io.specs.MemoryShelf.{first_file};

    ghost held = { λ s. Some (first_file s.files) };

    ghost faults = { λ s. s.calls.faults };

    ghost fetches = { λ s. s.calls.made };

    ghost steady = { λ s. is_past s.calls };

    ghost steady_tells = { λ s _. refl };

    fn fetch(&mut self, name: &str, room: usize) -> Result<Vec<u8>, ShelfFault>
        requires { room < 2 ^ 64 - 1 }
        ensures bytes { FetchGives (first_file self.old.files name.now) room result }
        ensures room { IfOk result (λ bytes. length bytes.items ≤ room) }
        ensures fault { IsErrOf result ShelfFault.Failed ↔ IsNone (found self.old name.now) }
        ensures after { self.new ≡ after_fetch self.old name.now }
    {
        let file = serve(&self.files, name, self.calls.next_fails());
        self.calls.count(file.is_none());
        match file {
            None => Err(ShelfFault::Failed),
            Some(bytes) if bytes.len() > room => Err(ShelfFault::TooLong),
            Some(bytes) => bytes.to_vec(self.alloc).map_err(|_| ShelfFault::Memory),
        }
    }
}
