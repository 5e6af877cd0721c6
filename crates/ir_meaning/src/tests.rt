ghost use Rattle.std.specs.Prelude.{◌<◌, ◌↔◌, IsTrue};
ghost use Rattle.oi_base.specs.Words.{modulus};
ghost use Rattle.ir_core.specs.Formed.{is_cast};

use crate::Folded::{self, Unfolded, Word};
use crate::{fold_cast, fold_icmp, fold_op};
use ir_core::{BinOp, CastOp, Cmp};
use oi_base::Width::{self, W1, W8, W16, W32};
use oi_base::mask;
use std::test::Fail;

// The answers are those of a plain model with integers that do not wrap. A line has an operation and a width, and then
// operands in hexadecimal with the answer, which is `-` where nothing is folded.
const OPERATIONS: &str = "add 1: 0 0 0, 0 1 1, 1 0 1, 1 1 0
add 8: 0 ff ff, ff 1 0, 80 80 0, 7f 1 80, 80 ff 7f, ff ff fe
add 16: 0 ffff ffff, ffff 1 0, 8000 8000 0, 7fff 1 8000, 8000 ffff 7fff, ffff ffff fffe
add 32: 0 ffffffff ffffffff, ffffffff 1 0, 80000000 80000000 0, 7fffffff 1 80000000, 80000000 ffffffff 7fffffff, ffffffff ffffffff fffffffe
sub 1: 0 0 0, 0 1 1, 1 0 1, 1 1 0
sub 8: 0 ff 1, ff 1 fe, 80 80 0, 7f 1 7e, 80 ff 81, ff ff 0
sub 16: 0 ffff 1, ffff 1 fffe, 8000 8000 0, 7fff 1 7ffe, 8000 ffff 8001, ffff ffff 0
sub 32: 0 ffffffff 1, ffffffff 1 fffffffe, 80000000 80000000 0, 7fffffff 1 7ffffffe, 80000000 ffffffff 80000001, ffffffff ffffffff 0
mul 1: 0 0 0, 0 1 0, 1 0 0, 1 1 1
mul 8: 0 ff 0, ff 1 ff, 80 80 0, 7f 1 7f, 80 ff 80, ff ff 1
mul 16: 0 ffff 0, ffff 1 ffff, 8000 8000 0, 7fff 1 7fff, 8000 ffff 8000, ffff ffff 1
mul 32: 0 ffffffff 0, ffffffff 1 ffffffff, 80000000 80000000 0, 7fffffff 1 7fffffff, 80000000 ffffffff 80000000, ffffffff ffffffff 1
udiv 1: 0 0 -, 0 1 0, 1 0 -, 1 1 1
udiv 8: 80 ff 0, ff 80 1, 80 1 80, 7f ff 0, f9 2 7c, 7 fe 0, ff 0 -, 0 ff 0
udiv 16: 8000 ffff 0, ffff 8000 1, 8000 1 8000, 7fff ffff 0, fff9 2 7ffc, 7 fffe 0, ffff 0 -, 0 ffff 0
udiv 32: 80000000 ffffffff 0, ffffffff 80000000 1, 80000000 1 80000000, 7fffffff ffffffff 0, fffffff9 2 7ffffffc, 7 fffffffe 0, ffffffff 0 -, 0 ffffffff 0
sdiv 1: 0 0 -, 0 1 0, 1 0 -, 1 1 -
sdiv 8: 80 ff -, ff 80 0, 80 1 80, 7f ff 81, f9 2 fd, 7 fe fd, ff 0 -, 0 ff 0
sdiv 16: 8000 ffff -, ffff 8000 0, 8000 1 8000, 7fff ffff 8001, fff9 2 fffd, 7 fffe fffd, ffff 0 -, 0 ffff 0
sdiv 32: 80000000 ffffffff -, ffffffff 80000000 0, 80000000 1 80000000, 7fffffff ffffffff 80000001, fffffff9 2 fffffffd, 7 fffffffe fffffffd, ffffffff 0 -, 0 ffffffff 0
urem 1: 0 0 -, 0 1 0, 1 0 -, 1 1 0
urem 8: 80 ff 80, ff 80 7f, 80 1 0, 7f ff 7f, f9 2 1, 7 fe 7, ff 0 -, 0 ff 0
urem 16: 8000 ffff 8000, ffff 8000 7fff, 8000 1 0, 7fff ffff 7fff, fff9 2 1, 7 fffe 7, ffff 0 -, 0 ffff 0
urem 32: 80000000 ffffffff 80000000, ffffffff 80000000 7fffffff, 80000000 1 0, 7fffffff ffffffff 7fffffff, fffffff9 2 1, 7 fffffffe 7, ffffffff 0 -, 0 ffffffff 0
srem 1: 0 0 -, 0 1 0, 1 0 -, 1 1 -
srem 8: 80 ff -, ff 80 ff, 80 1 0, 7f ff 0, f9 2 ff, 7 fe 1, ff 0 -, 0 ff 0
srem 16: 8000 ffff -, ffff 8000 ffff, 8000 1 0, 7fff ffff 0, fff9 2 ffff, 7 fffe 1, ffff 0 -, 0 ffff 0
srem 32: 80000000 ffffffff -, ffffffff 80000000 ffffffff, 80000000 1 0, 7fffffff ffffffff 0, fffffff9 2 ffffffff, 7 fffffffe 1, ffffffff 0 -, 0 ffffffff 0
shl 1: 0 0 0, 0 1 -, 1 0 1, 1 1 -
shl 8: 80 0 80, 81 1 2, ff 7 80, 80 7 0, 1 8 -, ff ff -
shl 16: 8000 0 8000, 8001 1 2, ffff f 8000, 8000 f 0, 1 10 -, ffff ffff -
shl 32: 80000000 0 80000000, 80000001 1 2, ffffffff 1f 80000000, 80000000 1f 0, 1 20 -, ffffffff ffffffff -
lshr 1: 0 0 0, 0 1 -, 1 0 1, 1 1 -
lshr 8: 80 0 80, 81 1 40, ff 7 1, 80 7 1, 1 8 -, ff ff -
lshr 16: 8000 0 8000, 8001 1 4000, ffff f 1, 8000 f 1, 1 10 -, ffff ffff -
lshr 32: 80000000 0 80000000, 80000001 1 40000000, ffffffff 1f 1, 80000000 1f 1, 1 20 -, ffffffff ffffffff -
ashr 1: 0 0 0, 0 1 -, 1 0 1, 1 1 -
ashr 8: 80 0 80, 81 1 c0, ff 7 ff, 80 7 ff, 1 8 -, ff ff -
ashr 16: 8000 0 8000, 8001 1 c000, ffff f ffff, 8000 f ffff, 1 10 -, ffff ffff -
ashr 32: 80000000 0 80000000, 80000001 1 c0000000, ffffffff 1f ffffffff, 80000000 1f ffffffff, 1 20 -, ffffffff ffffffff -
and 1: 0 0 0, 0 1 0, 1 0 0, 1 1 1
and 8: 0 ff 0, ff 1 1, 80 80 80, 7f 1 1, 80 ff 80, ff ff ff
and 16: 0 ffff 0, ffff 1 1, 8000 8000 8000, 7fff 1 1, 8000 ffff 8000, ffff ffff ffff
and 32: 0 ffffffff 0, ffffffff 1 1, 80000000 80000000 80000000, 7fffffff 1 1, 80000000 ffffffff 80000000, ffffffff ffffffff ffffffff
or 1: 0 0 0, 0 1 1, 1 0 1, 1 1 1
or 8: 0 ff ff, ff 1 ff, 80 80 80, 7f 1 7f, 80 ff ff, ff ff ff
or 16: 0 ffff ffff, ffff 1 ffff, 8000 8000 8000, 7fff 1 7fff, 8000 ffff ffff, ffff ffff ffff
or 32: 0 ffffffff ffffffff, ffffffff 1 ffffffff, 80000000 80000000 80000000, 7fffffff 1 7fffffff, 80000000 ffffffff ffffffff, ffffffff ffffffff ffffffff
xor 1: 0 0 0, 0 1 1, 1 0 1, 1 1 0
xor 8: 0 ff ff, ff 1 fe, 80 80 0, 7f 1 7e, 80 ff 7f, ff ff 0
xor 16: 0 ffff ffff, ffff 1 fffe, 8000 8000 0, 7fff 1 7ffe, 8000 ffff 7fff, ffff ffff 0
xor 32: 0 ffffffff ffffffff, ffffffff 1 fffffffe, 80000000 80000000 0, 7fffffff 1 7ffffffe, 80000000 ffffffff 7fffffff, ffffffff ffffffff 0";

const CONDITIONS: &str = "eq 1: 0 0 1, 0 1 0, 1 0 0, 1 1 1
eq 8: 0 ff 0, ff 0 0, 7f 80 0, 80 7f 0, 80 80 1, 1 0 0
eq 16: 0 ffff 0, ffff 0 0, 7fff 8000 0, 8000 7fff 0, 8000 8000 1, 1 0 0
eq 32: 0 ffffffff 0, ffffffff 0 0, 7fffffff 80000000 0, 80000000 7fffffff 0, 80000000 80000000 1, 1 0 0
ne 1: 0 0 0, 0 1 1, 1 0 1, 1 1 0
ne 8: 0 ff 1, ff 0 1, 7f 80 1, 80 7f 1, 80 80 0, 1 0 1
ne 16: 0 ffff 1, ffff 0 1, 7fff 8000 1, 8000 7fff 1, 8000 8000 0, 1 0 1
ne 32: 0 ffffffff 1, ffffffff 0 1, 7fffffff 80000000 1, 80000000 7fffffff 1, 80000000 80000000 0, 1 0 1
ugt 1: 0 0 0, 0 1 0, 1 0 1, 1 1 0
ugt 8: 0 ff 0, ff 0 1, 7f 80 0, 80 7f 1, 80 80 0, 1 0 1
ugt 16: 0 ffff 0, ffff 0 1, 7fff 8000 0, 8000 7fff 1, 8000 8000 0, 1 0 1
ugt 32: 0 ffffffff 0, ffffffff 0 1, 7fffffff 80000000 0, 80000000 7fffffff 1, 80000000 80000000 0, 1 0 1
uge 1: 0 0 1, 0 1 0, 1 0 1, 1 1 1
uge 8: 0 ff 0, ff 0 1, 7f 80 0, 80 7f 1, 80 80 1, 1 0 1
uge 16: 0 ffff 0, ffff 0 1, 7fff 8000 0, 8000 7fff 1, 8000 8000 1, 1 0 1
uge 32: 0 ffffffff 0, ffffffff 0 1, 7fffffff 80000000 0, 80000000 7fffffff 1, 80000000 80000000 1, 1 0 1
ult 1: 0 0 0, 0 1 1, 1 0 0, 1 1 0
ult 8: 0 ff 1, ff 0 0, 7f 80 1, 80 7f 0, 80 80 0, 1 0 0
ult 16: 0 ffff 1, ffff 0 0, 7fff 8000 1, 8000 7fff 0, 8000 8000 0, 1 0 0
ult 32: 0 ffffffff 1, ffffffff 0 0, 7fffffff 80000000 1, 80000000 7fffffff 0, 80000000 80000000 0, 1 0 0
ule 1: 0 0 1, 0 1 1, 1 0 0, 1 1 1
ule 8: 0 ff 1, ff 0 0, 7f 80 1, 80 7f 0, 80 80 1, 1 0 0
ule 16: 0 ffff 1, ffff 0 0, 7fff 8000 1, 8000 7fff 0, 8000 8000 1, 1 0 0
ule 32: 0 ffffffff 1, ffffffff 0 0, 7fffffff 80000000 1, 80000000 7fffffff 0, 80000000 80000000 1, 1 0 0
sgt 1: 0 0 0, 0 1 1, 1 0 0, 1 1 0
sgt 8: 0 ff 1, ff 0 0, 7f 80 1, 80 7f 0, 80 80 0, 1 0 1
sgt 16: 0 ffff 1, ffff 0 0, 7fff 8000 1, 8000 7fff 0, 8000 8000 0, 1 0 1
sgt 32: 0 ffffffff 1, ffffffff 0 0, 7fffffff 80000000 1, 80000000 7fffffff 0, 80000000 80000000 0, 1 0 1
sge 1: 0 0 1, 0 1 1, 1 0 0, 1 1 1
sge 8: 0 ff 1, ff 0 0, 7f 80 1, 80 7f 0, 80 80 1, 1 0 1
sge 16: 0 ffff 1, ffff 0 0, 7fff 8000 1, 8000 7fff 0, 8000 8000 1, 1 0 1
sge 32: 0 ffffffff 1, ffffffff 0 0, 7fffffff 80000000 1, 80000000 7fffffff 0, 80000000 80000000 1, 1 0 1
slt 1: 0 0 0, 0 1 0, 1 0 1, 1 1 0
slt 8: 0 ff 0, ff 0 1, 7f 80 0, 80 7f 1, 80 80 0, 1 0 0
slt 16: 0 ffff 0, ffff 0 1, 7fff 8000 0, 8000 7fff 1, 8000 8000 0, 1 0 0
slt 32: 0 ffffffff 0, ffffffff 0 1, 7fffffff 80000000 0, 80000000 7fffffff 1, 80000000 80000000 0, 1 0 0
sle 1: 0 0 1, 0 1 0, 1 0 1, 1 1 1
sle 8: 0 ff 0, ff 0 1, 7f 80 0, 80 7f 1, 80 80 1, 1 0 0
sle 16: 0 ffff 0, ffff 0 1, 7fff 8000 0, 8000 7fff 1, 8000 8000 1, 1 0 0
sle 32: 0 ffffffff 0, ffffffff 0 1, 7fffffff 80000000 0, 80000000 7fffffff 1, 80000000 80000000 1, 1 0 0";

// A conversion, from a width and to a width.
const CONVERSIONS: &str = "zext 1 8: 0 0, 1 1
zext 1 16: 0 0, 1 1
zext 1 32: 0 0, 1 1
zext 8 16: 0 0, 7f 7f, 80 80, ff ff
zext 8 32: 0 0, 7f 7f, 80 80, ff ff
zext 16 32: 0 0, 7fff 7fff, 8000 8000, ffff ffff
sext 1 8: 0 0, 1 ff
sext 1 16: 0 0, 1 ffff
sext 1 32: 0 0, 1 ffffffff
sext 8 16: 0 0, 7f 7f, 80 ff80, ff ffff
sext 8 32: 0 0, 7f 7f, 80 ffffff80, ff ffffffff
sext 16 32: 0 0, 7fff 7fff, 8000 ffff8000, ffff ffffffff
trunc 8 1: 0 0, 7f 1, 80 0, ff 1
trunc 16 1: 0 0, 7fff 1, 8000 0, ffff 1
trunc 16 8: 0 0, 7fff ff, 8000 0, ffff ff
trunc 32 1: 0 0, 7fffffff 1, 80000000 0, ffffffff 1
trunc 32 8: 0 0, 7fffffff ff, 80000000 0, ffffffff ff
trunc 32 16: 0 0, 7fffffff ffff, 80000000 0, ffffffff ffff";

fn operation(name: &str) -> Option<BinOp> {
    match name {
        "add" => Some(BinOp::Add),
        "sub" => Some(BinOp::Sub),
        "mul" => Some(BinOp::Mul),
        "udiv" => Some(BinOp::Udiv),
        "sdiv" => Some(BinOp::Sdiv),
        "urem" => Some(BinOp::Urem),
        "srem" => Some(BinOp::Srem),
        "shl" => Some(BinOp::Shl),
        "lshr" => Some(BinOp::Lshr),
        "ashr" => Some(BinOp::Ashr),
        "and" => Some(BinOp::And),
        "or" => Some(BinOp::Or),
        "xor" => Some(BinOp::Xor),
        _ => None,
    }
}

fn condition(name: &str) -> Option<Cmp> {
    match name {
        "eq" => Some(Cmp::Eq),
        "ne" => Some(Cmp::Ne),
        "ugt" => Some(Cmp::Ugt),
        "uge" => Some(Cmp::Uge),
        "ult" => Some(Cmp::Ult),
        "ule" => Some(Cmp::Ule),
        "sgt" => Some(Cmp::Sgt),
        "sge" => Some(Cmp::Sge),
        "slt" => Some(Cmp::Slt),
        "sle" => Some(Cmp::Sle),
        _ => None,
    }
}

fn conversion(name: &str) -> Option<CastOp> {
    match name {
        "zext" => Some(CastOp::Zext),
        "sext" => Some(CastOp::Sext),
        "trunc" => Some(CastOp::Trunc),
        _ => None,
    }
}

fn width(name: &str) -> Option<Width> {
    match name {
        "1" => Some(W1),
        "8" => Some(W8),
        "16" => Some(W16),
        "32" => Some(W32),
        _ => None,
    }
}

fn word(text: &str) -> Option<u32> {
    u32::from_str_radix(text, 16).ok()
}

fn answer(text: &str) -> Option<Folded> {
    if text == "-" {
        return Some(Unfolded);
    }
    Some(Word(word(text)?))
}

/// Two operands and the answer.
fn row(text: &str) -> Option<(u32, u32, Folded)> {
    let (a, rest) = text.split_once(' ')?;
    let (b, folded) = rest.split_once(' ')?;
    Some((word(a)?, word(b)?, answer(folded)?))
}

fn is_word(w: Width, a: u32) -> bool
    ensures { IsTrue result ↔ a < modulus w }
{
    mask(w, a) == a
}

fn converts(c: CastOp, from: Width, to: Width) -> bool
    ensures { IsTrue result ↔ is_cast c from to }
{
    match c {
        CastOp::Zext => from.bits() < to.bits(),
        CastOp::Sext => from.bits() < to.bits(),
        CastOp::Trunc => to.bits() < from.bits(),
    }
}

#[test]
fn operations_at_the_edges_of_each_width(rt: HostRuntime) -> Result<(), Fail> {
    for line in OPERATIONS.lines() {
        let (head, rows) = line.split_once(": ").ok_or("no rows")?;
        let (name, bits) = head.split_once(' ').ok_or("no width")?;
        let op = operation(name).ok_or("no operation")?;
        let w = width(bits).ok_or("no width")?;
        for text in rows.split(", ") {
            let (a, b, folded) = row(text).ok_or("no row")?;
            assert!(rt; is_word(w, a));
            assert!(rt; is_word(w, b));
            assert_eq!(rt; fold_op(op, w, a, b), folded, "{line} {text}");
        }
    }
    Ok(())
}

#[test]
fn conditions_at_the_edges_of_each_width(rt: HostRuntime) -> Result<(), Fail> {
    for line in CONDITIONS.lines() {
        let (head, rows) = line.split_once(": ").ok_or("no rows")?;
        let (name, bits) = head.split_once(' ').ok_or("no width")?;
        let c = condition(name).ok_or("no condition")?;
        let w = width(bits).ok_or("no width")?;
        for text in rows.split(", ") {
            let (a, b, folded) = row(text).ok_or("no row")?;
            assert!(rt; is_word(w, a));
            assert!(rt; is_word(w, b));
            assert_eq!(rt; fold_icmp(c, w, a, b), folded, "{line} {text}");
        }
    }
    Ok(())
}

#[test]
fn conversions_at_the_edges_of_each_width(rt: HostRuntime) -> Result<(), Fail> {
    for line in CONVERSIONS.lines() {
        let (head, rows) = line.split_once(": ").ok_or("no rows")?;
        let (name, widths) = head.split_once(' ').ok_or("no width")?;
        let (source, target) = widths.split_once(' ').ok_or("no width")?;
        let c = conversion(name).ok_or("no conversion")?;
        let from = width(source).ok_or("no width")?;
        let to = width(target).ok_or("no width")?;
        for text in rows.split(", ") {
            let (a, folded) = text.split_once(' ').ok_or("no row")?;
            let a = word(a).ok_or("no operand")?;
            let folded = answer(folded).ok_or("no answer")?;
            assert!(rt; converts(c, from, to));
            assert!(rt; is_word(from, a));
            assert_eq!(rt; fold_cast(c, from, to, a), folded, "{line} {text}");
        }
    }
    Ok(())
}
