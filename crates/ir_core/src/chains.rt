ghost use Rattle.std.specs.Prelude.{◌≡◌, ℕ, List, None, IfOk, IfNone, IfSome, vec_len};
ghost use Rattle.std.specs.Option.{option_and_then};
ghost use Rattle.ir_core.specs.declared.chains.Chain.TheVariants.{Unseen};
ghost use Rattle.ir_core.specs.declared.ty.TypeDef.{TypeDef};
ghost use Rattle.ir_core.specs.Sizes.{definition, name_of};
ghost use Rattle.ir_core.specs.Known.{name_at, position_in, HasPositions};
ghost use Rattle.ir_core.specs.Ends.{chain_at, named, IsRightChain, AreRight};

use crate::layout::Name;
use crate::ty::{IrType, TypeDef};
use std::alloc::{AllocError, Global};

/// What is known of the chain of definitions that begins at a type name, as `%a = type %b` and `%b = type i32`:
/// nothing, that it was gone along, or the position of its last definition and how many names lead there.
#[derive(Clone, Copy, Debug)]
pub(crate) enum Chain {
    Unseen,
    Seen,
    Ended(usize, usize),
}

/// Where the chain of each type name ends. Each name is visited once, also one that leads to itself and has no end.
pub(crate) fn chains_of(
    alloc: Global,
    defs: &[TypeDef],
    table: &[Name],
) -> Result<Vec<Chain>, AllocError>
    requires positions { HasPositions table.now defs.now }
    ensures right { IfOk result (λ chains. AreRight chains.items defs.now) }
{
    let mut chains = unseen(alloc, table.len())?;
    let mut way = Vec::new(alloc);
    for x in 0..table.len() {
        go_along(defs, table, &mut chains, &mut way, x)?;
        go_back(defs, table, &mut chains, &mut way);
    }
    Ok(chains)
}

/// So many names of which nothing is known.
fn unseen(alloc: Global, len: usize) -> Result<Vec<Chain>, AllocError>
    ensures { IfOk result (λ chains. (x : ℕ) → chain_at chains.items x ≡ Unseen) }
{
    let mut chains = Vec::new(alloc);
    chains.resize(len, Chain::Unseen)?;
    Ok(chains)
}

/// Goes along the chain of a name up to one that was seen, and puts the names before it on the stack.
fn go_along(
    defs: &[TypeDef],
    table: &[Name],
    chains: &mut Vec<Chain>,
    way: &mut Vec<usize>,
    first: usize,
) -> Result<(), AllocError>
    requires positions { HasPositions table.now defs.now }
    requires right { AreRight chains.old.items defs.now }
    ensures right { AreRight chains.new.items defs.now }
    ensures len { vec_len chains.new ≡ vec_len chains.old }
{
    let mut x = first;
    for _ in 0..chains.len() {
        if !see(chains, x) {
            return Ok(());
        }
        way.push(x)?;
        match after(defs, table, x) {
            Some(next) => x = next,
            None => return Ok(()),
        }
    }
    Ok(())
}

/// Marks a name; whether it was not seen before.
fn see(chains: &mut Vec<Chain>, x: usize) -> bool
    ensures right { (defs : List TypeDef) → AreRight chains.old.items defs → AreRight chains.new.items defs }
    ensures len { vec_len chains.new ≡ vec_len chains.old }
{
    match chains.get(x) {
        Some(Chain::Unseen) => {
            chains[x] = Chain::Seen;
            true
        }
        _ => false,
    }
}

/// The name after a name in its chain.
fn after(defs: &[TypeDef], table: &[Name], x: usize) -> Option<usize>
    requires positions { HasPositions table.now defs.now }
{
    let def = defs.get(position(table, x)?)?;
    next_name(defs, table, &def.ty)
}

/// Ends the chains of the names on the stack, the last first.
fn go_back(defs: &[TypeDef], table: &[Name], chains: &mut Vec<Chain>, way: &mut Vec<usize>)
    requires positions { HasPositions table.now defs.now }
    requires right { AreRight chains.old.items defs.now }
    ensures right { AreRight chains.new.items defs.now }
    ensures len { vec_len chains.new ≡ vec_len chains.old }
{
    while let Some(x) = way.pop() {
        if x < chains.len() {
            chains[x] = chain_of(defs, table, chains.as_slice(), x);
        }
    }
}

/// The chain of a name, where it ends there or the end of the next name's chain is known.
fn chain_of(defs: &[TypeDef], table: &[Name], chains: &[Chain], x: usize) -> Chain
    requires positions { HasPositions table.now defs.now }
    requires right { AreRight chains.now defs.now }
    ensures { IsRightChain defs.now x result }
{
    let Some(at) = position(table, x) else {
        return Chain::Seen;
    };
    let Some(def) = defs.get(at) else {
        return Chain::Seen;
    };
    let Some(next) = next_name(defs, table, &def.ty) else {
        return Chain::Ended(at, 1);
    };
    match chains.get(next) {
        Some(Chain::Ended(end, names)) if *names < defs.len() => Chain::Ended(*end, *names + 1),
        _ => Chain::Seen,
    }
}

/// The name that a type is, where it has a definition.
fn next_name(defs: &[TypeDef], table: &[Name], t: &IrType) -> Option<usize>
    requires positions { HasPositions table.now defs.now }
    ensures none { IfNone result (option_and_then (definition defs.now) (name_of t.now) ≡ None) }
    ensures some { IfSome result (λ next. t.now ≡ named next) }
{
    let IrType::Named(name) = t else {
        return None;
    };
    let next = name.0 as usize;
    match position(table, next) {
        Some(_) => Some(next),
        None => None,
    }
}

/// The position of a name's first definition.
fn position(table: &[Name], x: usize) -> Option<usize>
    ensures { result ≡ position_in (name_at table.now x) }
{
    match table.get(x) {
        Some(Name::Defined(at)) | Some(Name::Laid(at, _)) => Some(*at),
        _ => None,
    }
}
