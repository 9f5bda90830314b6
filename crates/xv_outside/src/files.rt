//! The form in memory of files.
ghost use Rattle.std.specs.Prelude.{◌≡◌, ◌↔◌, ◌≤◌, Some, None, IfOk, IfSome, IfNone, OnOk, IsTrue};
ghost use Rattle.std.specs.Prelude.{IsErrOf};
ghost use Rattle.std.specs.FinMap.{get};
ghost use Rattle.xv_base.specs.Fault.{Rose};
ghost use Rattle.xv_outside.specs.Fetch.{TellsOf, IsWithin};
ghost use Rattle.xv_outside.specs.Memory.{FilesState, file_map, no_calls, fails_next, calls_after};

use crate::calls::Calls;
use crate::outside::{Failed, FetchFault, Fetched, Files};
use std::alloc::Global;
use std::marker::Model;
use xv_base::FileName;

/// A file in memory, seen by contracts as its name and the list of its bytes.
#[derive(Debug, Drop)]
pub struct MemFile {
    pub name: FileName,
    pub bytes: Vec<u8>,
}

impl Model for MemFile {
    ghost use Rattle.xv_outside.specs.Memory.{FileEntry};

    ghost Value = { FileEntry };

    ghost view = { λ file. record { name = file.name; bytes = file.bytes.items } };
}

/// Files in memory. Of entries with one name the first counts.
#[derive(Drop)]
pub struct MemFiles {
    entries: Vec<MemFile>,
    calls: Calls,
}

impl Model for MemFiles {
    ghost Value = { FilesState };

    ghost view = { λ files. record { entries = files.entries.items; calls = files.calls } };
}

impl MemFiles {
    /// Files of these entries. `failing` has the numbers, from 0, of the fetches that fail.
    pub fn new(entries: Vec<MemFile>, failing: Vec<u64>) -> MemFiles
        ensures { result ≡ record { entries = entries.items; calls = no_calls failing.items } }
    {
        MemFiles {
            entries,
            calls: Calls::new(failing),
        }
    }
}

// The bytes of the first entry of this name.
fn bytes_under<'a>(entries: &'a [MemFile], name: &str) -> Option<&'a [u8]>
    ensures some { IfSome result (λ bytes. get (file_map entries.now) name.now ≡ Some bytes.now) }
    ensures none { IfNone result (get (file_map entries.now) name.now ≡ None) }
{
    for file in entries {
        if name.as_bytes() == file.name.bytes() {
            return Some(&file.bytes);
        }
    }
    None
}

impl Files for MemFiles {
    ghost map = { λ files. Some (file_map files.entries) };

    ghost faults = { λ files. files.calls.faults };

    fn fetch(&mut self, alloc: Global, name: &str, limit: usize) -> Result<Fetched, FetchFault>
        ensures told { IfOk result
            (λ fetched. TellsOf (Some (file_map self.old.entries)) name.now limit fetched) }
        ensures kept { Some (file_map self.new.entries) ≡ Some (file_map self.old.entries) }
        ensures quiet { OnOk result (self.new.calls.faults ≡ self.old.calls.faults) }
        ensures cause { IsErrOf result FetchFault.Failed
            → Rose self.old.calls.faults self.new.calls.faults }
        ensures want { IsErrOf result FetchFault.NoMemory
            → self.new.calls.faults ≡ self.old.calls.faults }
        ensures later { self.old.calls.faults ≤ self.new.calls.faults }
        ensures entries { self.new.entries ≡ self.old.entries }
        ensures fails { IsErrOf result FetchFault.Failed ↔ IsTrue (fails_next self.old.calls) }
        ensures calls { self.new.calls ≡ calls_after self.old.calls (fails_next self.old.calls) }
        ensures memory { IsErrOf result FetchFault.NoMemory
            → IsWithin (get (file_map self.old.entries) name.now) limit }
    {
        if let Err(Failed) = self.calls.next() {
            return Err(FetchFault::Failed);
        }
        let Some(bytes) = bytes_under(&self.entries, name) else {
            return Ok(Fetched::Missing);
        };
        if limit < bytes.len() {
            return Ok(Fetched::TooBig);
        }
        match bytes.to_vec(alloc) {
            Ok(bytes) => Ok(Fetched::Bytes(bytes)),
            Err(_) => Err(FetchFault::NoMemory),
        }
    }
}
