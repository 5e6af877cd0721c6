ghost use Rattle.std.specs.Prelude.{◌≡◌, ◌<◌, ◌≤◌, ◌+◌, ◌++◌, ◌↔◌, [], IsTrue, IsErrOf, IfOk, OnOk, OnErr, Some, Contains, vec_len};
ghost use Rattle.std.specs.Option.{option_map};
ghost use Rattle.std.specs.FinMap as finite;
ghost use Rattle.oi_world.specs.Desk.{HasCause, GivesRead, Writes, Says};

use crate::desk::{Desk, DeskFault};
use crate::files;
use oi_base::NoMemory;
use std::alloc::Global;
use std::collections::BTreeMap;
use std::marker::Model;

/// A desk in memory, for tests. It says everything, and fails at the calls that are listed.
#[derive(Drop)]
pub struct MemDesk {
    alloc: Global,
    files: BTreeMap<String, Vec<u8>>,
    said: Vec<u8>,
    fails: Vec<u32>,
    calls: u64,
    faults: u64,
}

impl Model for MemDesk {
    ghost use Rattle.oi_world.specs.Mem.{Memory, coded_memory, files_of};

    ghost Value = { Memory };

    ghost coded = { coded_memory };

    ghost view = { λ d. record { files = files_of d.files; said = d.said.items; fails = d.fails.items; calls = d.calls; faults = d.faults } };
}

impl MemDesk {
    ghost use Rattle.oi_world.specs.Mem.{next_call, begun};

    /// An empty desk, which keeps the allocator. Its calls of `read`, `write` and `say` are numbered from 1,
    /// and those in the list fail.
    pub fn new(alloc: Global, fails: Vec<u32>) -> MemDesk
        ensures files { result.files ≡ finite.empty }
        ensures said { result.said ≡ [] }
        ensures fails { result.fails ≡ fails.items }
        ensures calls { result.calls ≡ 0 }
        ensures faults { result.faults ≡ 0 }
    {
        MemDesk {
            alloc,
            files: BTreeMap::new(alloc),
            said: Vec::new(alloc),
            fails,
            calls: 0,
            faults: 0,
        }
    }

    /// Puts a file on the desk. This is no call of the desk: it isn't numbered, and never fails.
    pub fn put_file(&mut self, name: &str, bytes: &[u8]) -> Result<(), NoMemory>
        ensures ok { OnOk result (self.new ≡ record self.old { files = finite.insert self.old.files name.now bytes.now }) }
        ensures err { OnErr result (self.new ≡ self.old) }
    {
        files::store(self.alloc, &mut self.files, name, bytes)
    }

    /// What a name holds; `None` exactly where the name isn't there.
    pub fn file(&self, name: &str) -> Option<&[u8]>
        ensures { option_map (λ bytes. bytes.now) result ≡ finite.get self.now.files name.now }
    {
        files::find(&self.files, name)
    }

    /// What was said.
    pub fn said(&self) -> &[u8]
        ensures { result.now ≡ self.now.said }
    {
        self.said.as_slice()
    }

    fn push_said(&mut self, bytes: &[u8]) -> Result<(), NoMemory>
        ensures ok { OnOk result (self.new ≡ record self.old { said = self.old.said ++ bytes.now }) }
        ensures err { OnErr result (self.new ≡ self.old) }
    {
        self.said.extend_from_slice(bytes)?;
        Ok(())
    }

    /// Counts the call that begins, and says whether it is to fail.
    fn begin(&mut self) -> bool
        requires { self.old.faults < u64.MAX }
        ensures fails { IsTrue result ↔ Contains self.old.fails (next_call self.old) }
        ensures begun { self.new ≡ begun self.old result }
    {
        self.calls = self.calls.saturating_add(1);
        let fails = is_among(&self.fails, self.calls);
        if fails {
            self.faults += 1;
        }
        fails
    }
}

fn is_among(numbers: &[u32], number: u64) -> bool
    ensures { IsTrue result ↔ Contains numbers.now number }
{
    numbers.iter().any(|x| u64::from(*x) == number)
}

impl Desk for MemDesk {
    ghost use Rattle.oi_world.specs.Mem.{next_call, KeepsCount};

    ghost files = { λ d. Some d.files };

    ghost said = { λ d. Some d.said };

    ghost faults = { λ d. d.faults };

    fn read(&mut self, alloc: Global, name: &str, limit: u32) -> Result<Vec<u8>, DeskFault>
        requires { self.old.faults < u64.MAX }
        ensures found { GivesRead (Some self.old.files) name.now limit result }
        ensures short { IfOk result (λ bytes. vec_len bytes ≤ limit + 1) }
        ensures files { Some self.new.files ≡ Some self.old.files }
        ensures said { Some self.new.said ≡ Some self.old.said }
        ensures cause { HasCause self.old.faults self.new.faults result }
        ensures fails { IsErrOf result DeskFault.Failed ↔ Contains self.old.fails (next_call self.old) }
        ensures count { KeepsCount self.old self.new result }
    {
        if self.begin() {
            return Err(DeskFault::Failed);
        }
        files::read(alloc, &self.files, name, limit)
    }

    fn write(&mut self, name: &str, bytes: &[u8]) -> Result<(), DeskFault>
        requires { self.old.faults < u64.MAX }
        ensures files { Writes name.now bytes.now (Some self.old.files) (Some self.new.files) result }
        ensures said { Some self.new.said ≡ Some self.old.said }
        ensures cause { HasCause self.old.faults self.new.faults result }
        ensures fails { IsErrOf result DeskFault.Failed ↔ Contains self.old.fails (next_call self.old) }
        ensures count { KeepsCount self.old self.new result }
    {
        if self.begin() {
            return Err(DeskFault::Failed);
        }
        files::store(self.alloc, &mut self.files, name, bytes)?;
        Ok(())
    }

    fn say(&mut self, bytes: &[u8]) -> Result<(), DeskFault>
        requires { self.old.faults < u64.MAX }
        ensures files { Some self.new.files ≡ Some self.old.files }
        ensures said { Says bytes.now (Some self.old.said) (Some self.new.said) result }
        ensures cause { HasCause self.old.faults self.new.faults result }
        ensures fails { IsErrOf result DeskFault.Failed ↔ Contains self.old.fails (next_call self.old) }
        ensures count { KeepsCount self.old self.new result }
    {
        if self.begin() {
            return Err(DeskFault::Failed);
        }
        self.push_said(bytes)?;
        Ok(())
    }
}
