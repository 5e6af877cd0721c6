ghost use Rattle.std.specs.Prelude.{◌≡◌};
ghost use Rattle.const_fold.specs.FoldConstants.{entries_fact};
ghost use Rattle.const_fold.specs.FactTables.{facts_in};

use crate::fact_table::FactTable;
use crate::operands::{constant, same_op};
use ir_core::{Entry, FlatOp};

/// One constant that all entries are, of which there is one at least.
pub fn entries_fact(facts: &FactTable, entries: &[Entry]) -> Option<FlatOp>
    ensures { result ≡ entries_fact (facts_in facts.now) entries.now }
{
    match entries {
        [] => None,
        [first, rest @ ..] => match constant(facts.known(first.value)) {
            None => None,
            Some(c) => {
                if all_are(facts, rest, c) {
                    Some(c)
                } else {
                    None
                }
            }
        },
    }
}

ghost use Rattle.std.specs.List.{list_all};
ghost use Rattle.const_fold.specs.Operands.{same_op};
ghost use Rattle.const_fold.specs.FoldConstants.{known};

fn all_are(facts: &FactTable, entries: &[Entry], c: FlatOp) -> bool
    ensures { result ≡ list_all (λ x. same_op (known (facts_in facts.now) x.value) c) entries.now }
{
    for entry in entries {
        if !same_op(facts.known(entry.value), c) {
            return false;
        }
    }
    true
}
