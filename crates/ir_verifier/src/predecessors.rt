ghost use Rattle.std.specs.Prelude.{◌≡◌, map, IfOk, OnOk};
ghost use Rattle.std.specs.Option.{option_copied};
ghost use Rattle.ir_core.specs.Parts.{targets};
ghost use Rattle.ir_verifier.specs.Faults.{label_numbers};
ghost use Rattle.ir_verifier.specs.PhiFaults.{row_at, no_rows, with_source, with_sources, with_block, sources_of};

use crate::scope::label_numbers;
use ir_core::{End, Func, LocalId, SwitchCase};
use module_rules::Numbers;
use oi_base::NoMemory;
use std::alloc::Global;
use std::marker::Model;

/// The predecessors of each block of a function, by labels.
#[derive(Drop)]
pub struct Predecessors {
    labels: Numbers,
    rows: Vec<Numbers>,
}

impl Model for Predecessors {
    ghost use Rattle.ir_verifier.specs.PhiFaults as faults;

    ghost Value = { faults.Sources };

    ghost view = { λ p. record { labels = p.labels; rows = p.rows.items } };
}

impl Predecessors {
    pub fn of(alloc: Global, f: &Func) -> Result<Predecessors, NoMemory>
        ensures { IfOk result (λ p. p ≡ sources_of f.now) }
    {
        let mut predecessors = Predecessors::none(alloc, f)?;
        for block in f.blocks.as_slice() {
            predecessors.add_end(block.label, &block.end)?;
        }
        Ok(predecessors)
    }

    fn none(alloc: Global, f: &Func) -> Result<Predecessors, NoMemory>
        ensures { IfOk result (λ p. p ≡ record { labels = label_numbers f.now; rows = no_rows (label_numbers f.now) }) }
    {
        let labels = label_numbers(alloc, f.blocks.as_slice())?;
        let rows = empty_rows(alloc, labels.as_slice())?;
        Ok(Predecessors { labels, rows })
    }

    /// The labels of the blocks that lead to a block.
    pub fn of_block(&self, label: LocalId) -> Option<&Numbers>
        ensures { option_copied result ≡ row_at self.now label }
    {
        self.rows.get(self.labels.position(label.0)?)
    }

    fn add_end(&mut self, from: LocalId, end: &End) -> Result<(), NoMemory>
        ensures { OnOk result (self.new ≡ with_sources from self.old (targets end.now)) }
    {
        match end {
            End::Ret(_) | End::Unreachable => Ok(()),
            End::Br(to) => self.add(from, *to),
            End::Cond(_, then, other) => {
                self.add(from, *then)?;
                self.add(from, *other)
            }
            End::Switch(_, other, cases) => {
                self.add(from, *other)?;
                self.add_cases(from, cases.as_slice())
            }
        }
    }

    fn add_cases(&mut self, from: LocalId, cases: &[SwitchCase]) -> Result<(), NoMemory>
        ensures { OnOk result (self.new ≡ with_sources from self.old (map (λ c. c.to) cases.now)) }
    {
        for case in cases {
            self.add(from, case.to)?;
        }
        Ok(())
    }

    fn add(&mut self, from: LocalId, to: LocalId) -> Result<(), NoMemory>
        ensures { OnOk result (self.new ≡ with_source self.old from to) }
    {
        match self.labels.position(to.0) {
            Some(at) if at < self.rows.len() => {
                self.rows[at].add(from.0)?;
                Ok(())
            }
            _ => Ok(()),
        }
    }
}

/// An empty set for each label.
fn empty_rows(alloc: Global, labels: &[u32]) -> Result<Vec<Numbers>, NoMemory>
    ensures { IfOk result (λ rows. rows.items ≡ no_rows labels.now) }
{
    let mut rows = Vec::new(alloc);
    for _ in labels {
        rows.push(Numbers::new(alloc))?;
    }
    Ok(rows)
}
