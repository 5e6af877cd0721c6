ghost use Rattle.std.specs.Prelude.{◌≡◌, ◌≢◌, ◌+◌, ◌≤◌, [], ◌∷◌, ℕ, OnOk, Some};
ghost use Rattle.local_passes.specs.CopyTables.{definition, source_in, sources_in, is_between, Extends, IsTimed};
ghost use Rattle.local_passes.specs.LocalCopies.{source_given, past};

use ir_core::{FlatInstr, FlatOp};
use oi_base::{NoMemory, RegId};
use std::alloc::{AllocError, Global};

/// When a register was last defined, counted in definitions from 1, and the register of which it is a copy, or itself.
#[derive(Clone, Copy)]
pub struct Definition {
    pub time: u64,
    pub source: RegId,
}

/// The definitions of a block: those after the start, up to the end.
#[derive(Clone, Copy)]
pub struct Span {
    pub start: u64,
    pub end: u64,
}

impl Span {
    fn has(&self, time: u64) -> bool
        ensures { result ≡ is_between self.now.start self.now.end time }
    {
        self.start < time && time <= self.end
    }
}

/// The last definition of each register, by its number, and how many definitions there were.
#[derive(Drop)]
pub struct CopyTable {
    definitions: Vec<Option<Definition>>,
    time: u64,
}

impl CopyTable {
    pub fn new(alloc: Global) -> CopyTable
        ensures empty { result.definitions.items ≡ [] }
        ensures time { result.time ≡ 0 }
    {
        CopyTable {
            definitions: Vec::new(alloc),
            time: 0,
        }
    }

    pub fn time(&self) -> u64
        ensures { result ≡ self.now.time }
    {
        self.time
    }

    fn definition(&self, r: RegId) -> Definition
        ensures { result ≡ definition self.now.definitions.items r.0 }
    {
        match self.definitions.get(r.0 as usize) {
            Some(Some(d)) => *d,
            _ => Definition { time: 0, source: r },
        }
    }

    /// The register of which a register is a copy at the end of a span, or itself.
    pub fn source(&self, span: Span, r: RegId) -> RegId
        ensures { result.0 ≡ source_in self.now.definitions.items span.start span.end r.0 }
    {
        let last = self.definition(r);
        if span.has(last.time) {
            let later = Span {
                start: last.time,
                end: span.end,
            };
            if later.has(self.definition(last.source).time) {
                r
            } else {
                last.source
            }
        } else {
            r
        }
    }

    /// Notes a definition of a register that is a copy of another from now on, or of itself.
    fn define(&mut self, r: RegId, source: RegId) -> Result<(), NoMemory>
        ensures time { OnOk result (self.new.time ≡ self.old.time + 1) }
        ensures same { OnOk result (definition self.new.definitions.items r.0 ≡ record { time = self.old.time + 1; source = source }) }
        ensures others { OnOk result ((q : ℕ) → q ≢ r.0 → definition self.new.definitions.items q ≡ definition self.old.definitions.items q) }
    {
        match self.time.checked_add(1) {
            Some(time) => {
                put(&mut self.definitions, r, Definition { time, source })?;
                self.time = time;
                Ok(())
            }
            None => Err(NoMemory),
        }
    }

    /// The source that an instruction gives to the register that it writes.
    fn source_given(&self, span: Span, d: RegId, i: &FlatInstr) -> RegId
        ensures { result.0 ≡ source_given (source_in self.now.definitions.items span.start span.end) d.0 i.now }
    {
        match i {
            FlatInstr::Copy(_, FlatOp::Reg(y)) => self.source(span, *y),
            _ => d,
        }
    }

    /// Notes what an instruction defines, where the definitions since a time count.
    pub fn note(&mut self, start: u64, i: &FlatInstr) -> Result<(), NoMemory>
        requires timed { IsTimed self.old }
        requires started { start ≤ self.old.time }
        ensures timed { OnOk result (IsTimed self.new) }
        ensures sources { OnOk result (sources_in self.new start ≡ past (sources_in self.old start) (Some i.now)) }
        ensures extends { OnOk result (Extends self.old self.new (i.now ∷ [])) }
    {
        match i.result() {
            Some(d) => {
                let span = Span {
                    start,
                    end: self.time,
                };
                let source = self.source_given(span, d, i);
                self.define(d, source)?;
                Ok(())
            }
            None => Ok(()),
        }
    }
}

/// Writes one element, after empty ones where the table is too short.
fn put(table: &mut Vec<Option<Definition>>, r: RegId, d: Definition) -> Result<(), AllocError>
    ensures same { OnOk result (definition table.new.items r.0 ≡ d) }
    ensures others { OnOk result ((q : ℕ) → q ≢ r.0 → definition table.new.items q ≡ definition table.old.items q) }
{
    let at = r.0 as usize;
    if table.len() <= at {
        table.resize(at + 1, None)?;
    }
    table[at] = Some(d);
    Ok(())
}
