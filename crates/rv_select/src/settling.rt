ghost use Rattle.std.specs.Prelude.{◌≡◌, ◌<◌, ◌≤◌, ◌+◌, ◌*◌, All, IfOk, length, take, slice_index_or};
ghost use Rattle.std.specs.List.{count_by};
ghost use Rattle.rv_select.specs.Branches.{is_long, count_true, is_far, is_out_of_reach, grown, is_branch, all_short, settled};
ghost use Rattle.rv_select.specs.Heads.{head_in, AreCounts};

use crate::item::Draft;
use oi_base::{BlockId, NoMemory};
use std::alloc::Global;
use std::marker::Model;

/// How many bytes before itself a branch reaches.
pub const REACH_BEFORE: usize = 4096;

/// How many bytes after itself a branch reaches.
pub const REACH_AFTER: usize = 4094;

/// A choice of long branches among drafts. Contracts see a list that says of each draft whether it is one.
#[derive(Drop)]
pub struct Choice {
    longs: Vec<bool>,
    /// How many long branches stand before each draft, and before the end.
    before: Vec<usize>,
}

impl Model for Choice {
    ghost use Rattle.std.specs.Prelude.{List, Bool};

    ghost Value = { List Bool };

    ghost use Rattle.rv_select.specs.Heads.{AreCounts};

    ghost view = { λ c. c.longs.items };

    ghost invariant = { λ c. AreCounts c.longs.items c.before.items };
}

impl Choice {
    fn of(alloc: Global, longs: Vec<bool>) -> Result<Choice, NoMemory>
        ensures { IfOk result (λ c. c ≡ longs.items) }
    {
        let before = counts(alloc, &longs)?;
        Ok(Choice { longs, before })
    }

    /// A draft is a long branch.
    pub fn is_long(&self, draft: usize) -> bool
        requires { draft < length self.now }
        ensures { result ≡ is_long self.now draft }
    {
        self.longs[draft]
    }

    /// The number of the item at which a draft begins.
    pub fn item(&self, draft: usize) -> usize
        requires { draft ≤ length self.now }
        ensures value { result ≡ draft + count_true (take draft self.now) }
        ensures within { result ≤ draft + count_true self.now }
    {
        draft + self.before[draft]
    }

    /// How many items the drafts become.
    pub fn items(&self) -> usize
        ensures { result ≡ length self.now + count_true self.now }
    {
        self.item(self.longs.len())
    }
}

/// How many of these are true before each of them, and before the end.
fn counts(alloc: Global, bits: &[bool]) -> Result<Vec<usize>, NoMemory>
    ensures { IfOk result (λ counts. AreCounts bits.now counts.items) }
{
    let mut counts = Vec::new(alloc);
    let mut count = 0;
    counts.push(count)?;
    for bit in bits {
        if *bit {
            count += 1;
        }
        counts.push(count)?;
    }
    Ok(counts)
}

/// The draft at which a block begins; one that is not there begins at the end.
pub fn head(heads: &[usize], end: usize, to: BlockId) -> usize
    ensures { result ≡ head_in heads.now end to.0 }
{
    match heads.get(to.0 as usize) {
        Some(head) => *head,
        None => end,
    }
}

/// A branch from one item does not reach another.
fn is_far(at: usize, to: usize) -> bool
    ensures { result ≡ is_far (4 * at) (4 * to) }
{
    if to < at {
        at - to > REACH_BEFORE / 4
    } else {
        to - at > REACH_AFTER / 4
    }
}

/// A branch, as this draft, does not reach its block.
fn is_out_of_reach(heads: &[usize], end: usize, choice: &Choice, at: usize, draft: Draft) -> bool
    requires end { end ≡ length choice.now }
    requires at { at < end }
    requires heads { All (λ h. h ≤ end) heads.now }
    ensures { result ≡ is_out_of_reach (head_in heads.now end) choice.now at draft }
{
    match draft {
        Draft::Near(_, _, _, to) => is_far(choice.item(at), choice.item(head(heads, end, to))),
        Draft::Fixed(_) | Draft::Jump(_) => false,
    }
}

/// The choice after one round.
fn grow(
    alloc: Global,
    heads: &[usize],
    drafts: &[Draft],
    choice: &Choice,
) -> Result<Vec<bool>, NoMemory>
    requires same { length drafts.now ≡ length choice.now }
    requires heads { All (λ h. h ≤ length drafts.now) heads.now }
    ensures { IfOk result (λ longs. longs.items ≡ grown (head_in heads.now (length drafts.now)) drafts.now choice.now) }
{
    let end = drafts.len();
    let mut longs = Vec::new(alloc);
    for (at, draft) in drafts.iter().enumerate() {
        longs.push(choice.is_long(at) || is_out_of_reach(heads, end, choice, at, *draft))?;
    }
    Ok(longs)
}

fn count_branches(drafts: &[Draft]) -> usize
    ensures { result ≡ count_by is_branch drafts.now }
{
    let mut branches = 0;
    for draft in drafts {
        if let Draft::Near(_, _, _, _) = draft {
            branches += 1;
        }
    }
    branches
}

/// The choice in which each short branch reaches its block, in rounds that each take linear time. A body of
/// ordinary code takes a few rounds, and none takes more than it has branches.
pub fn settle(alloc: Global, heads: &[usize], drafts: &[Draft]) -> Result<Choice, NoMemory>
    requires { All (λ h. h ≤ length drafts.now) heads.now }
    ensures { IfOk result (λ c. c ≡ settled (head_in heads.now (length drafts.now)) drafts.now) }
{
    let mut choice = Choice::of(alloc, vec![in alloc; false; drafts.len()]?)?;
    for round in 0..count_branches(drafts) {
        let next = Choice::of(alloc, grow(alloc, heads, drafts, &choice)?)?;
        if next.items() == choice.items() {
            return Ok(choice);
        }
        choice = next;
    }
    Ok(choice)
}
