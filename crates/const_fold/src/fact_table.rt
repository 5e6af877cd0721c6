ghost use Rattle.std.specs.Prelude.{◌≡◌, ◌≢◌, ℕ, OnOk, Some, true};
ghost use Rattle.const_fold.specs.FoldConstants.{no_facts, with_fact, known};
ghost use Rattle.const_fold.specs.FactTables.{facts_in, facts_of};

use ir_core::FlatOp;
use oi_base::RegId;
use std::alloc::{AllocError, Global};

/// What registers are known to hold, by their numbers; beyond the table nothing is known.
#[derive(Drop)]
pub struct FactTable {
    table: Vec<Option<FlatOp>>,
}

impl FactTable {
    pub fn new(alloc: Global) -> FactTable
        ensures { facts_in result ≡ no_facts }
    {
        FactTable {
            table: Vec::new(alloc),
        }
    }

    /// Whether nothing was noted.
    #[tactic(auto, using(crate::proofs::Tables::nothing_known))]
    pub fn is_empty(&self) -> bool
        ensures { result ≡ true → facts_in self.now ≡ no_facts }
    {
        self.table.is_empty()
    }

    /// An operand, or what is known of it.
    pub fn known(&self, o: FlatOp) -> FlatOp
        ensures { result ≡ known (facts_in self.now) o }
    {
        match o {
            FlatOp::Reg(r) => {
                let at = r.0 as usize;
                if at < self.table.len() {
                    match self.table[at] {
                        Some(c) => c,
                        None => o,
                    }
                } else {
                    o
                }
            }
            _ => o,
        }
    }

    /// Notes the fact of a register.
    #[tactic(auto, using(crate::proofs::Tables::with_fact_is))]
    pub fn note(&mut self, r: RegId, c: FlatOp) -> Result<(), AllocError>
        ensures { OnOk result (facts_in self.new ≡ with_fact (facts_in self.old) r.0 c) }
    {
        put(&mut self.table, r, c)
    }
}

/// Writes one element, after empty ones where the table is too short.
fn put(table: &mut Vec<Option<FlatOp>>, r: RegId, c: FlatOp) -> Result<(), AllocError>
    ensures same { OnOk result (facts_of table.new.items r.0 ≡ Some c) }
    ensures others { OnOk result ((q : ℕ) → q ≢ r.0 → facts_of table.new.items q ≡ facts_of table.old.items q) }
{
    let at = r.0 as usize;
    if table.len() <= at {
        table.resize(at + 1, None)?;
    }
    table[at] = Some(c);
    Ok(())
}
