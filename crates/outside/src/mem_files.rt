//! Files in memory.
ghost use Rattle.std.specs.Prelude.{◌≡◌, ◌≢◌, ◌↔◌, ◌⊎◌, ◌-◌, ℕ, List, [], None, Some, Contains, IfOk, IsErr, OnErr, OnOk, is_err, length, min, take, drop};
ghost use Rattle.std.specs.Prelude.{map, string_bytes};
ghost use Rattle.std.specs.Option.{option_copied, option_map};
ghost use Rattle.outside.specs.Bytes.{IsReadOf};
ghost use Rattle.outside.specs.Faults.{after_call, no_faults};
ghost use Rattle.outside.specs.MemFiles.{file_of};

use crate::plan::Plan;
use crate::{Failed, Files};
use std::alloc::{AllocError, Global};
use std::collections::BTreeMap;
use std::marker::Model;

/// Files in memory, whose reads fail where this was asked for.
#[derive(Drop)]
pub struct MemFiles {
    alloc: Global,
    files: BTreeMap<String, Vec<u8>>,
    plan: Plan,
}

impl Model for MemFiles {
    ghost use Rattle.std.specs.Prelude.{map, string_bytes};
    ghost use Rattle.outside.specs.MemFiles.{MemoryFiles};

    ghost Value = { MemoryFiles };

    ghost view = { λ m. record { files = map (λ e. (string_bytes e.0, e.1.items)) m.files.entries; plan = m.plan } };
}

impl MemFiles {
    /// No file, and no read that is to fail.
    pub fn new(alloc: Global) -> MemFiles
        ensures empty { result.files ≡ [] }
        ensures plan { result.plan ≡ no_faults }
    {
        MemFiles {
            alloc,
            files: BTreeMap::new(alloc),
            plan: Plan::new(alloc),
        }
    }

    /// Adds the file `name`, or replaces its bytes. Other files stay. Without memory all stays.
    pub fn put(&mut self, name: &str, bytes: &[u8]) -> Result<(), AllocError>
        ensures stored { OnOk result (file_of self.new.files name.now ≡ Some bytes.now) }
        ensures others { OnOk result ((n : List ℕ) → n ≢ name.now → file_of self.new.files n ≡ file_of self.old.files n) }
        ensures same_plan { self.new.plan ≡ self.old.plan }
        ensures err { OnErr result (self.new ≡ self.old) }
    {
        let key = String::from_str(self.alloc, name)?;
        let value = bytes.to_vec(self.alloc)?;
        self.files.insert(key, value)?;
        Ok(())
    }

    /// From here on the reads with these numbers fail, and no others but those of names that do not exist. Reads are
    /// counted from 0, those before this call too. Without memory all stays.
    pub fn fail_at(&mut self, calls: &[u64]) -> Result<(), AllocError>
        ensures ok { OnOk result (self.new ≡ record self.old { plan = record self.old.plan { stated = calls.now } }) }
        ensures err { OnErr result (self.new ≡ self.old) }
    {
        self.plan.fail_at(calls)
    }

    /// [`Files::read_at`], which fails exactly where the number of this read is stated or no file has the name. It
    /// reads all that has room in `buf`.
    pub fn read_at(&mut self, name: &str, at: u64, buf: &mut [u8]) -> Result<usize, Failed>
        ensures fails { IsErr result ↔ (Contains self.old.plan.stated self.old.plan.calls ⊎ (file_of self.old.files name.now ≡ None)) }
        ensures piece { IfOk result (λ n. IsReadOf (file_of self.old.files name.now) at n (length buf.old) (take n buf.new)) }
        ensures fills { IfOk result (λ n. (file : List ℕ) → file_of self.old.files name.now ≡ Some file → n ≡ min (length buf.old) (length file - at)) }
        ensures rest_stays { IfOk result (λ n. drop n buf.new ≡ drop n buf.old) }
        ensures err { OnErr result (buf.new ≡ buf.old) }
        ensures same_files { self.new.files ≡ self.old.files }
        ensures counts { self.new.plan ≡ after_call self.old.plan (is_err result) }
    {
        let fails = self.plan.next_fails();
        match find(&self.files, name) {
            Some(file) if !fails => Ok(copy_piece(file, at, buf)),
            _ => {
                self.plan.count_fault();
                Err(Failed)
            }
        }
    }
}

// The bytes of the file with this name.
fn find<'a>(files: &'a BTreeMap<String, Vec<u8>>, name: &str) -> Option<&'a Vec<u8>>
    ensures { option_map (λ v. v.items) (option_copied result) ≡ file_of (map (λ e. (string_bytes e.0, e.1.items)) files.entry.now.entries) name.now }
{
    files.get(name)
}

// Copies what stands in `file` from `at` on to the head of `buf`, as much as has room, and answers its length.
fn copy_piece(file: &[u8], at: u64, buf: &mut [u8]) -> usize
    ensures count { result ≡ min (length buf.old) (length file.now - at) }
    ensures piece { take result buf.new ≡ take result (drop at file.now) }
    ensures rest_stays { drop result buf.new ≡ drop result buf.old }
{
    let at = (at as usize).min(file.len());
    let n = buf.len().min(file.len() - at);
    buf[..n].copy_from_slice(&file[at..at + n]);
    n
}

impl Files for MemFiles {
    ghost told = { λ m. Some (file_of m.files) };

    ghost faults = { λ m name. m.plan.faults };

    fn read_at(&mut self, name: &str, at: u64, buf: &mut [u8]) -> Result<usize, Failed> {
        self.read_at(name, at, buf)
    }
}
