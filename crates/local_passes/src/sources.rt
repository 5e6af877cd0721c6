ghost use Rattle.std.specs.Prelude.{◌≡◌, IfOk, map};
ghost use Rattle.const_fold.specs.Operands.{with_operand, with_operands, end_with_operands};
ghost use Rattle.local_passes.specs.CopyTables.{source_in};
ghost use Rattle.local_passes.specs.LocalCopies.{from_source};

use crate::copy_table::{CopyTable, Span};
use ir_core::{Args, FlatEnd, FlatInstr, FlatOp, Term, Terms};
use std::alloc::{AllocError, Global};

/// An operand with its source in its place.
pub fn from_source(table: &CopyTable, span: Span, o: FlatOp) -> FlatOp
    ensures { result ≡ from_source (source_in table.now.definitions.items span.start span.end) o }
{
    match o {
        FlatOp::Reg(r) => FlatOp::Reg(table.source(span, r)),
        _ => o,
    }
}

fn terms_from_source(
    alloc: Global,
    table: &CopyTable,
    span: Span,
    terms: &[Term],
) -> Result<Terms, AllocError>
    ensures { IfOk result (λ ts. ts ≡ map (with_operand (from_source (source_in table.now.definitions.items span.start span.end))) terms.now) }
{
    let mut new = Terms::new(alloc);
    for term in terms {
        new.push(Term {
            operand: from_source(table, span, term.operand),
            width: term.width,
            stride: term.stride,
        })?;
    }
    Ok(new)
}

fn args_from_source(
    alloc: Global,
    table: &CopyTable,
    span: Span,
    args: &[FlatOp],
) -> Result<Args, AllocError>
    ensures { IfOk result (λ os. os ≡ map (from_source (source_in table.now.definitions.items span.start span.end)) args.now) }
{
    let mut new = Args::new(alloc);
    for arg in args {
        new.push(from_source(table, span, *arg))?;
    }
    Ok(new)
}

/// An instruction with sources in its operands' places.
pub fn instr_from_source(
    alloc: Global,
    table: &CopyTable,
    span: Span,
    i: &FlatInstr,
) -> Result<FlatInstr, AllocError>
    ensures { IfOk result (λ new. new ≡ with_operands (from_source (source_in table.now.definitions.items span.start span.end)) i.now) }
{
    Ok(match i {
        FlatInstr::Bin(d, op, w, a, b) => FlatInstr::Bin(
            *d,
            *op,
            *w,
            from_source(table, span, *a),
            from_source(table, span, *b),
        ),
        FlatInstr::Icmp(d, c, s, a, b) => FlatInstr::Icmp(
            *d,
            *c,
            *s,
            from_source(table, span, *a),
            from_source(table, span, *b),
        ),
        FlatInstr::Select(d, c, a, b) => FlatInstr::Select(
            *d,
            from_source(table, span, *c),
            from_source(table, span, *a),
            from_source(table, span, *b),
        ),
        FlatInstr::Cast(d, c, from, to, a) => {
            FlatInstr::Cast(*d, *c, *from, *to, from_source(table, span, *a))
        }
        FlatInstr::Copy(d, a) => FlatInstr::Copy(*d, from_source(table, span, *a)),
        FlatInstr::Alloca(d, size, align) => FlatInstr::Alloca(*d, *size, *align),
        FlatInstr::Load(d, s, align, a) => {
            FlatInstr::Load(*d, *s, *align, from_source(table, span, *a))
        }
        FlatInstr::Store(s, align, v, a) => FlatInstr::Store(
            *s,
            *align,
            from_source(table, span, *v),
            from_source(table, span, *a),
        ),
        FlatInstr::Gep(d, a, k, terms) => {
            let terms = terms_from_source(alloc, table, span, terms.as_slice())?;
            FlatInstr::Gep(*d, from_source(table, span, *a), *k, terms)
        }
        FlatInstr::Call(d, f, args) => {
            FlatInstr::Call(
                *d,
                *f,
                args_from_source(alloc, table, span, args.as_slice())?,
            )
        }
        FlatInstr::Put(d, a) => FlatInstr::Put(*d, from_source(table, span, *a)),
        FlatInstr::Get(d) => FlatInstr::Get(*d),
        FlatInstr::Exit(a) => FlatInstr::Exit(from_source(table, span, *a)),
    })
}

/// A terminator with its operand's source in its place.
pub fn end_from_source(table: &CopyTable, span: Span, end: FlatEnd) -> FlatEnd
    ensures { result ≡ end_with_operands (from_source (source_in table.now.definitions.items span.start span.end)) end }
{
    match end {
        FlatEnd::Ret(Some(a)) => FlatEnd::Ret(Some(from_source(table, span, a))),
        FlatEnd::Cond(c, t, f) => FlatEnd::Cond(from_source(table, span, c), t, f),
        FlatEnd::Switch(a, w, cases, other) => {
            FlatEnd::Switch(from_source(table, span, a), w, cases, other)
        }
        end => end,
    }
}
