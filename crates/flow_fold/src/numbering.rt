ghost use Rattle.std.specs.Prelude.{◌≡◌, ◌<◌, ◌^◌, IfOk, length, map};
ghost use Rattle.flow_fold.specs.Blocks.{number_of, block_named, case_renamed, end_renamed};
ghost use Rattle.flow_fold.specs.Walks.{marked_in};
ghost use Rattle.flow_fold.specs.Numbering.{IsNumbering};

use ir_core::{Case, Cases, FlatEnd};
use oi_base::BlockId;
use std::alloc::{AllocError, Global};

/// The new numbers of blocks of which the marked ones are left, and after them how many are left.
pub fn numbers(alloc: Global, marks: &[bool]) -> Result<Vec<u32>, AllocError>
    requires few { length marks.now < 2 ^ 32 }
    ensures { IfOk result (λ ns. IsNumbering marks.now ns.items) }
{
    let mut numbers = Vec::new(alloc);
    let mut next: u32 = 0;
    for mark in marks {
        numbers.push(next)?;
        if *mark {
            next += 1;
        }
    }
    numbers.push(next)?;
    Ok(numbers)
}

/// The new number of a block.
#[tactic(auto, using(crate::proofs::Numbers::number_last))]
pub fn number(marks: &[bool], numbers: &[u32], b: BlockId) -> BlockId
    requires numbers { IsNumbering marks.now numbers.now }
    ensures { result ≡ block_named (number_of (marked_in marks.now)) b }
{
    let at = b.0 as usize;
    if at < marks.len() {
        BlockId(numbers[at])
    } else {
        BlockId(numbers[marks.len()])
    }
}

fn cases(
    alloc: Global,
    marks: &[bool],
    numbers: &[u32],
    cases: &[Case],
) -> Result<Cases, AllocError>
    requires numbers { IsNumbering marks.now numbers.now }
    ensures { IfOk result (λ cs. cs ≡ map (case_renamed (number_of (marked_in marks.now))) cases.now) }
{
    let mut new = Cases::new(alloc);
    for case in cases {
        new.push(Case {
            word: case.word,
            to: number(marks, numbers, case.to),
        })?;
    }
    Ok(new)
}

/// A terminator that goes to the blocks' new numbers.
pub fn renumbered(
    alloc: Global,
    marks: &[bool],
    numbers: &[u32],
    end: FlatEnd,
) -> Result<FlatEnd, AllocError>
    requires numbers { IsNumbering marks.now numbers.now }
    ensures { IfOk result (λ new. new ≡ end_renamed (number_of (marked_in marks.now)) end) }
{
    Ok(match end {
        FlatEnd::Br(b) => FlatEnd::Br(number(marks, numbers, b)),
        FlatEnd::Cond(c, t, f) => {
            FlatEnd::Cond(c, number(marks, numbers, t), number(marks, numbers, f))
        }
        FlatEnd::Switch(a, w, all, other) => FlatEnd::Switch(
            a,
            w,
            cases(alloc, marks, numbers, all.as_slice())?,
            number(marks, numbers, other),
        ),
        end => end,
    })
}
