ghost use Rattle.std.specs.Prelude.{◌≡◌, ◌+◌, ◌++◌, ◌∷◌, [], ℕ, nat_eq, map, slice_get, OnOk, IfOk};
ghost use Rattle.std.specs.List.{flat_map};
ghost use Rattle.frame_layout.specs.Offsets.{shadow_of};
ghost use Rattle.rv_select.specs.Pending.{words};
ghost use Rattle.rv_select.specs.Parts.{t0};
ghost use Rattle.rv_select.specs.Incoming.{value_at, value_for, HasIncoming};
ghost use Rattle.rv_select.specs.Lowered.{load_from, store_to, take_phi, head, load_entry, give_phi, give_phis, numbers, distinct_from, successors, before_end, jump, choose, case_code, load_value, end_code};

use crate::builder::CodeBuilder;
use crate::incoming::Incoming;
use crate::instrs::{push_load, push_store};
use crate::item::Test;
use crate::pieces::{push_epilogue, push_load_slot, push_store_slot, push_word};
use frame_layout::Frame;
use ir_core::{Case, FlatBlock, FlatEnd, FlatOp, Phi};
use oi_base::{BlockId, NoMemory};
use rv_isa::{Rv, X};
use std::alloc::Global;
use std::collections::HashSet;

/// Appends what takes each phi's next value out of its shadow.
pub fn push_head(code: &mut CodeBuilder, f: &Frame, phis: &[Phi]) -> Result<(), NoMemory>
    ensures { OnOk result (code.new ≡ code.old ++ head f.now phis.now) }
{
    for phi in phis {
        push_take_phi(code, f, phi)?;
    }
    Ok(())
}

fn push_take_phi(code: &mut CodeBuilder, f: &Frame, phi: &Phi) -> Result<(), NoMemory>
    ensures { OnOk result (code.new ≡ code.old ++ take_phi f.now phi.now) }
{
    push_load_from(code, f.shadow(phi.reg))?;
    push_store(code, f, X::T0, phi.reg)
}

fn push_load_from(code: &mut CodeBuilder, offset: Option<u32>) -> Result<(), NoMemory>
    ensures { OnOk result (code.new ≡ code.old ++ load_from t0 offset) }
{
    match offset {
        Some(offset) => push_load_slot(code, X::T0, offset),
        None => Ok(()),
    }
}

fn push_store_to(code: &mut CodeBuilder, offset: Option<u32>) -> Result<(), NoMemory>
    ensures { OnOk result (code.new ≡ code.old ++ store_to t0 offset) }
{
    match offset {
        Some(offset) => push_store_slot(code, X::T0, offset),
        None => Ok(()),
    }
}

/// Appends what puts a phi's next value into its shadow.
fn push_give_phi(
    code: &mut CodeBuilder,
    f: &Frame,
    phi: &Phi,
    value: Option<FlatOp>,
) -> Result<(), NoMemory>
    ensures { OnOk result (code.new ≡ code.old ++ load_entry f.now value ++ store_to t0 (shadow_of f.now phi.now.reg.0)) }
{
    if let Some(o) = value {
        push_load(code, f, X::T0, o)?;
    }
    push_store_to(code, f.shadow(phi.reg))
}

/// Appends what puts the next values of the phis of block `to` after block `n` into their shadows.
fn push_give_phis(
    code: &mut CodeBuilder,
    f: &Frame,
    incoming: &Incoming,
    n: usize,
    to: usize,
    phis: &[Phi],
) -> Result<(), NoMemory>
    requires { (p : ℕ) → value_at incoming.now to p n ≡ value_for n (slice_get phis.now p) }
    ensures { OnOk result (code.new ≡ code.old ++ flat_map (give_phi f.now n) phis.now) }
{
    for (position, phi) in phis.iter().enumerate() {
        push_give_phi(code, f, phi, incoming.get(to, position, n))?;
    }
    Ok(())
}

/// The blocks that an end leads to, each once, in the order in which they first come: of a switch the cases', and then
/// the default.
fn successors(alloc: Global, end: &FlatEnd) -> Result<Vec<BlockId>, NoMemory>
    ensures { IfOk result (λ ts. numbers ts.items ≡ successors end.now) }
{
    match end {
        FlatEnd::Br(to) => one_target(alloc, *to),
        FlatEnd::Cond(_, yes, no) => two_targets(alloc, *yes, *no),
        FlatEnd::Switch(_, _, cases, other) => {
            let targets = case_targets(alloc, cases.as_slice(), *other)?;
            distinct(alloc, &targets)
        }
        FlatEnd::Ret(_) | FlatEnd::Unreachable => Ok(Vec::new(alloc)),
    }
}

fn one_target(alloc: Global, to: BlockId) -> Result<Vec<BlockId>, NoMemory>
    ensures { IfOk result (λ ts. numbers ts.items ≡ to.0 ∷ []) }
{
    let mut targets = Vec::new(alloc);
    targets.push(to)?;
    Ok(targets)
}

fn two_targets(alloc: Global, yes: BlockId, no: BlockId) -> Result<Vec<BlockId>, NoMemory>
    ensures { IfOk result (λ ts. numbers ts.items ≡ distinct_from [] (yes.0 ∷ no.0 ∷ [])) }
{
    let mut targets = one_target(alloc, yes)?;
    if no != yes {
        targets.push(no)?;
    }
    Ok(targets)
}

fn case_targets(alloc: Global, cases: &[Case], other: BlockId) -> Result<Vec<BlockId>, NoMemory>
    ensures { IfOk result (λ ts. numbers ts.items ≡ map (λ c. c.to.0) cases.now ++ other.0 ∷ []) }
{
    let mut targets = Vec::new(alloc);
    for case in cases {
        targets.push(case.to)?;
    }
    targets.push(other)?;
    Ok(targets)
}

/// These blocks, each once, in the order in which they first come.
fn distinct(alloc: Global, blocks: &[BlockId]) -> Result<Vec<BlockId>, NoMemory>
    ensures { IfOk result (λ ts. numbers ts.items ≡ distinct_from [] (numbers blocks.now)) }
{
    let mut seen = HashSet::new(alloc);
    let mut distinct = Vec::new(alloc);
    for block in blocks {
        if seen.insert(block.0)? {
            distinct.push(*block)?;
        }
    }
    Ok(distinct)
}

/// Appends what gives the phis of each successor their next values.
pub fn push_before_end(
    alloc: Global,
    code: &mut CodeBuilder,
    f: &Frame,
    incoming: &Incoming,
    blocks: &[FlatBlock],
    n: usize,
    end: &FlatEnd,
) -> Result<(), NoMemory>
    requires { HasIncoming incoming.now blocks.now }
    ensures { OnOk result (code.new ≡ code.old ++ before_end f.now blocks.now n end.now) }
{
    let successors = successors(alloc, end)?;
    for to in &successors {
        push_give_to(code, f, incoming, blocks, n, *to)?;
    }
    Ok(())
}

fn push_give_to(
    code: &mut CodeBuilder,
    f: &Frame,
    incoming: &Incoming,
    blocks: &[FlatBlock],
    n: usize,
    to: BlockId,
) -> Result<(), NoMemory>
    requires { HasIncoming incoming.now blocks.now }
    ensures { OnOk result (code.new ≡ code.old ++ give_phis f.now blocks.now n to.0) }
{
    let to = to.0 as usize;
    match blocks.get(to) {
        Some(block) => push_give_phis(code, f, incoming, n, to, block.phis.as_slice()),
        None => Ok(()),
    }
}

/// A block comes next after block `n`.
fn comes_next(n: usize, to: BlockId) -> bool
    ensures { result ≡ nat_eq to.0 (n + 1) }
{
    to.0 > 0 && (to.0 - 1) as usize == n
}

/// Appends a jump to a block, unless it comes next after block `n`.
fn push_jump(code: &mut CodeBuilder, n: usize, to: BlockId) -> Result<(), NoMemory>
    ensures { OnOk result (code.new ≡ code.old ++ jump n to) }
{
    if comes_next(n, to) {
        return Ok(());
    }
    code.jump(to)
}

/// Appends what leads after block `n` to one block where t0 is not 0, else to another.
fn push_choose(code: &mut CodeBuilder, n: usize, yes: BlockId, no: BlockId) -> Result<(), NoMemory>
    ensures { OnOk result (code.new ≡ code.old ++ choose n yes no) }
{
    if comes_next(n, yes) {
        return code.branch(Test::Equal, X::T0, X::ZERO, no);
    }
    code.branch(Test::NotEqual, X::T0, X::ZERO, yes)?;
    push_jump(code, n, no)
}

fn push_case(code: &mut CodeBuilder, case: Case) -> Result<(), NoMemory>
    ensures { OnOk result (code.new ≡ code.old ++ case_code case) }
{
    push_word(code, X::T1, case.word)?;
    code.branch(Test::Equal, X::T0, X::T1, case.to)
}

fn push_cases(code: &mut CodeBuilder, cases: &[Case]) -> Result<(), NoMemory>
    ensures { OnOk result (code.new ≡ code.old ++ flat_map case_code cases.now) }
{
    for case in cases {
        push_case(code, *case)?;
    }
    Ok(())
}

fn push_value(code: &mut CodeBuilder, f: &Frame, value: Option<FlatOp>) -> Result<(), NoMemory>
    ensures { OnOk result (code.new ≡ code.old ++ load_value f.now value) }
{
    match value {
        Some(o) => push_load(code, f, X::A0, o),
        None => Ok(()),
    }
}

/// Appends the row of the end of block `n`.
pub fn push_end(code: &mut CodeBuilder, f: &Frame, n: usize, end: &FlatEnd) -> Result<(), NoMemory>
    ensures { OnOk result (code.new ≡ code.old ++ end_code f.now n end.now) }
{
    match end {
        FlatEnd::Ret(value) => {
            push_value(code, f, *value)?;
            push_epilogue(code, f.bytes())
        }
        FlatEnd::Br(to) => push_jump(code, n, *to),
        FlatEnd::Cond(c, yes, no) => {
            push_load(code, f, X::T0, *c)?;
            push_choose(code, n, *yes, *no)
        }
        FlatEnd::Switch(value, _, cases, other) => {
            push_load(code, f, X::T0, *value)?;
            push_cases(code, cases.as_slice())?;
            push_jump(code, n, *other)
        }
        FlatEnd::Unreachable => code.push(Rv::Ebreak),
    }
}
