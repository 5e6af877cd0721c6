ghost use Rattle.std.specs.Prelude.{◌≡◌, ◌<◌, ◌≤◌, ◌+◌, ◌++◌, ◌∷◌, [], OnOk, length};
ghost use Rattle.std.specs.List.{flat_map};
ghost use Rattle.rv_isa.specs.Words.{InRange};
ghost use Rattle.frame_layout.specs.Offsets.{slot_of, place_of};
ghost use Rattle.rv_select.specs.Pending.{words};
ghost use Rattle.rv_select.specs.Parts.{t0, t1, signs, machine_op, cuts};
ghost use Rattle.rv_select.specs.Lowered.{load, load_register, store, store_result, compared, width_of, test, choice, converted, fetched, put_down, scaled, term, constant_part, arguments, environment_call, instr, HasFewArguments};

use crate::builder::CodeBuilder;
use crate::pieces::{
    push_home, push_load_slot, push_sign_extend, push_store_slot, push_word, push_zero_extend,
};
use frame_layout::Frame;
use ir_core::{BinOp, CastOp, Cmp, FlatInstr, FlatOp, Scalar, Term};
use oi_base::{NoMemory, RegId, Width};
use rv_isa::{Rv, X};

/// Appends what loads an operand into a register.
pub fn push_load(code: &mut CodeBuilder, f: &Frame, r: X, o: FlatOp) -> Result<(), NoMemory>
    requires { r < 32 }
    ensures { OnOk result (code.new ≡ code.old ++ load f.now r o) }
{
    match o {
        FlatOp::Reg(q) => push_register(code, f, r, q),
        FlatOp::Word(w) => push_word(code, r, w),
        FlatOp::Null | FlatOp::Poison => push_word(code, r, 0),
        FlatOp::Address(global, bytes) => code.address(r, global, bytes),
    }
}

fn push_register(code: &mut CodeBuilder, f: &Frame, r: X, q: RegId) -> Result<(), NoMemory>
    requires { r < 32 }
    ensures { OnOk result (code.new ≡ code.old ++ load_register r (place_of f.now q.0) (slot_of f.now q.0)) }
{
    match (f.place(q), f.slot(q)) {
        (Some(offset), _) => push_home(code, r, offset),
        (None, Some(offset)) => push_load_slot(code, r, offset),
        (None, None) => Ok(()),
    }
}

/// Appends what stores a register of the machine into the slot of a register of the body.
pub fn push_store(code: &mut CodeBuilder, f: &Frame, r: X, d: RegId) -> Result<(), NoMemory>
    requires { r < 32 }
    ensures { OnOk result (code.new ≡ code.old ++ store f.now r d) }
{
    match f.slot(d) {
        Some(offset) => push_store_slot(code, r, offset),
        None => Ok(()),
    }
}

fn push_result(code: &mut CodeBuilder, f: &Frame, d: Option<RegId>) -> Result<(), NoMemory>
    ensures { OnOk result (code.new ≡ code.old ++ store_result f.now d) }
{
    match d {
        Some(d) => push_store(code, f, X::A0, d),
        None => Ok(()),
    }
}

/// Appends what loads two operands into t0 and t1.
fn push_pair(code: &mut CodeBuilder, f: &Frame, a: FlatOp, b: FlatOp) -> Result<(), NoMemory>
    ensures { OnOk result (code.new ≡ code.old ++ load f.now t0 a ++ load f.now t1 b) }
{
    push_load(code, f, X::T0, a)?;
    push_load(code, f, X::T1, b)
}

/// Appends the signs that an operation asks for.
fn push_signs(code: &mut CodeBuilder, op: BinOp, w: Width) -> Result<(), NoMemory>
    ensures { OnOk result (code.new ≡ code.old ++ words (signs op w)) }
{
    match op {
        BinOp::Sdiv | BinOp::Srem => {
            push_sign_extend(code, w, X::T0)?;
            push_sign_extend(code, w, X::T1)
        }
        BinOp::Ashr => push_sign_extend(code, w, X::T0),
        _ => Ok(()),
    }
}

fn machine_op(op: BinOp) -> Rv
    ensures value { result ≡ machine_op op }
    ensures range { InRange result }
{
    match op {
        BinOp::Add => Rv::Add(X::T0, X::T0, X::T1),
        BinOp::Sub => Rv::Sub(X::T0, X::T0, X::T1),
        BinOp::Mul => Rv::Mul(X::T0, X::T0, X::T1),
        BinOp::Udiv => Rv::Divu(X::T0, X::T0, X::T1),
        BinOp::Sdiv => Rv::Div(X::T0, X::T0, X::T1),
        BinOp::Urem => Rv::Remu(X::T0, X::T0, X::T1),
        BinOp::Srem => Rv::Rem(X::T0, X::T0, X::T1),
        BinOp::Shl => Rv::Sll(X::T0, X::T0, X::T1),
        BinOp::Lshr => Rv::Srl(X::T0, X::T0, X::T1),
        BinOp::Ashr => Rv::Sra(X::T0, X::T0, X::T1),
        BinOp::And => Rv::And(X::T0, X::T0, X::T1),
        BinOp::Or => Rv::Or(X::T0, X::T0, X::T1),
        BinOp::Xor => Rv::Xor(X::T0, X::T0, X::T1),
    }
}

/// Appends what cuts a result to its width, but where the operation cannot exceed it.
fn push_cuts(code: &mut CodeBuilder, op: BinOp, w: Width) -> Result<(), NoMemory>
    ensures { OnOk result (code.new ≡ code.old ++ words (cuts op w)) }
{
    match op {
        BinOp::Udiv | BinOp::Urem | BinOp::Lshr | BinOp::And | BinOp::Or | BinOp::Xor => Ok(()),
        _ => push_zero_extend(code, w, X::T0),
    }
}

fn push_operation(code: &mut CodeBuilder, op: BinOp, w: Width) -> Result<(), NoMemory>
    ensures { OnOk result (code.new ≡ code.old ++ words (signs op w) ++ words (machine_op op ∷ []) ++ words (cuts op w)) }
{
    push_signs(code, op, w)?;
    code.push(machine_op(op))?;
    push_cuts(code, op, w)
}

fn width_of(s: Scalar) -> Width
    ensures { result ≡ width_of s }
{
    match s {
        Scalar::Word(w) => w,
        Scalar::Pointer => Width::W32,
    }
}

/// Appends the signs that a condition asks for.
fn push_compared(code: &mut CodeBuilder, c: Cmp, w: Width) -> Result<(), NoMemory>
    ensures { OnOk result (code.new ≡ code.old ++ words (compared c w)) }
{
    match c {
        Cmp::Sgt | Cmp::Sge | Cmp::Slt | Cmp::Sle => {
            push_sign_extend(code, w, X::T0)?;
            push_sign_extend(code, w, X::T1)
        }
        _ => Ok(()),
    }
}

/// Appends the test of t0 and t1.
fn push_test(code: &mut CodeBuilder, c: Cmp) -> Result<(), NoMemory>
    ensures { OnOk result (code.new ≡ code.old ++ words (test c)) }
{
    match c {
        Cmp::Eq => code.push_two(Rv::Sub(X::T0, X::T0, X::T1), Rv::Sltiu(X::T0, X::T0, 1)),
        Cmp::Ne => code.push_two(
            Rv::Sub(X::T0, X::T0, X::T1),
            Rv::Sltu(X::T0, X::ZERO, X::T0),
        ),
        Cmp::Ult => code.push(Rv::Sltu(X::T0, X::T0, X::T1)),
        Cmp::Ugt => code.push(Rv::Sltu(X::T0, X::T1, X::T0)),
        Cmp::Ule => code.push_two(Rv::Sltu(X::T0, X::T1, X::T0), Rv::Xori(X::T0, X::T0, 1)),
        Cmp::Uge => code.push_two(Rv::Sltu(X::T0, X::T0, X::T1), Rv::Xori(X::T0, X::T0, 1)),
        Cmp::Slt => code.push(Rv::Slt(X::T0, X::T0, X::T1)),
        Cmp::Sgt => code.push(Rv::Slt(X::T0, X::T1, X::T0)),
        Cmp::Sle => code.push_two(Rv::Slt(X::T0, X::T1, X::T0), Rv::Xori(X::T0, X::T0, 1)),
        Cmp::Sge => code.push_two(Rv::Slt(X::T0, X::T0, X::T1), Rv::Xori(X::T0, X::T0, 1)),
    }
}

fn push_converted(code: &mut CodeBuilder, c: CastOp, from: Width, to: Width) -> Result<(), NoMemory>
    ensures { OnOk result (code.new ≡ code.old ++ words (converted c from to)) }
{
    match c {
        CastOp::Zext => Ok(()),
        CastOp::Trunc => push_zero_extend(code, to, X::T0),
        CastOp::Sext => {
            push_sign_extend(code, from, X::T0)?;
            push_zero_extend(code, to, X::T0)
        }
    }
}

fn fetched(s: Scalar) -> Rv
    ensures value { result ≡ fetched s }
    ensures range { InRange result }
{
    match s {
        Scalar::Word(Width::W1) | Scalar::Word(Width::W8) => Rv::Lbu(X::T0, X::T0, 0),
        Scalar::Word(Width::W16) => Rv::Lhu(X::T0, X::T0, 0),
        Scalar::Word(Width::W32) | Scalar::Pointer => Rv::Lw(X::T0, X::T0, 0),
    }
}

fn put_down(s: Scalar) -> Rv
    ensures value { result ≡ put_down s }
    ensures range { InRange result }
{
    match s {
        Scalar::Word(Width::W1) | Scalar::Word(Width::W8) => Rv::Sb(X::T1, X::T0, 0),
        Scalar::Word(Width::W16) => Rv::Sh(X::T1, X::T0, 0),
        Scalar::Word(Width::W32) | Scalar::Pointer => Rv::Sw(X::T1, X::T0, 0),
    }
}

fn push_scaled(code: &mut CodeBuilder, stride: u32) -> Result<(), NoMemory>
    ensures { OnOk result (code.new ≡ code.old ++ scaled stride) }
{
    if stride == 1 {
        return Ok(());
    }
    push_word(code, X::T2, stride)?;
    code.push(Rv::Mul(X::T1, X::T1, X::T2))
}

fn push_term(code: &mut CodeBuilder, f: &Frame, t: Term) -> Result<(), NoMemory>
    ensures { OnOk result (code.new ≡ code.old ++ term f.now t) }
{
    push_load(code, f, X::T1, t.operand)?;
    push_sign_extend(code, t.width, X::T1)?;
    push_scaled(code, t.stride)?;
    code.push(Rv::Add(X::T0, X::T0, X::T1))
}

fn push_terms(code: &mut CodeBuilder, f: &Frame, terms: &[Term]) -> Result<(), NoMemory>
    ensures { OnOk result (code.new ≡ code.old ++ flat_map (term f.now) terms.now) }
{
    for t in terms {
        push_term(code, f, *t)?;
    }
    Ok(())
}

fn push_constant_part(code: &mut CodeBuilder, k: u32) -> Result<(), NoMemory>
    ensures { OnOk result (code.new ≡ code.old ++ constant_part k) }
{
    if k == 0 {
        return Ok(());
    }
    push_word(code, X::T1, k)?;
    code.push(Rv::Add(X::T0, X::T0, X::T1))
}

fn push_arguments(code: &mut CodeBuilder, f: &Frame, args: &[FlatOp]) -> Result<(), NoMemory>
    requires { length args.now ≤ 8 }
    ensures { OnOk result (code.new ≡ code.old ++ arguments f.now 0 args.now) }
{
    for (n, o) in args.iter().enumerate() {
        push_load(code, f, X::new(10 + n as u8), *o)?;
    }
    Ok(())
}

fn push_environment_call(code: &mut CodeBuilder, number: u8) -> Result<(), NoMemory>
    ensures { OnOk result (code.new ≡ code.old ++ words (environment_call number)) }
{
    code.push_two(Rv::Addi(X::A7, X::ZERO, number as i32), Rv::Ecall)
}

/// Appends the row of an instruction.
pub fn push_instr(code: &mut CodeBuilder, f: &Frame, i: &FlatInstr) -> Result<(), NoMemory>
    requires { HasFewArguments i.now }
    ensures { OnOk result (code.new ≡ code.old ++ instr f.now i.now) }
{
    match i {
        FlatInstr::Bin(d, op, w, a, b) => {
            push_pair(code, f, *a, *b)?;
            push_operation(code, *op, *w)?;
            push_store(code, f, X::T0, *d)
        }
        FlatInstr::Icmp(d, c, s, a, b) => {
            push_pair(code, f, *a, *b)?;
            push_compared(code, *c, width_of(*s))?;
            push_test(code, *c)?;
            push_store(code, f, X::T0, *d)
        }
        FlatInstr::Select(d, c, a, b) => {
            push_pair(code, f, *c, *a)?;
            push_load(code, f, X::T2, *b)?;
            push_choice(code)?;
            push_store(code, f, X::T1, *d)
        }
        FlatInstr::Cast(d, c, from, to, a) => {
            push_load(code, f, X::T0, *a)?;
            push_converted(code, *c, *from, *to)?;
            push_store(code, f, X::T0, *d)
        }
        FlatInstr::Copy(d, a) => {
            push_load(code, f, X::T0, *a)?;
            push_store(code, f, X::T0, *d)
        }
        FlatInstr::Alloca(_, _, _) => Ok(()),
        FlatInstr::Load(d, s, _, a) => {
            push_load(code, f, X::T0, *a)?;
            code.push(fetched(*s))?;
            push_store(code, f, X::T0, *d)
        }
        FlatInstr::Store(s, _, v, a) => {
            push_pair(code, f, *v, *a)?;
            code.push(put_down(*s))
        }
        FlatInstr::Gep(d, a, k, terms) => {
            push_load(code, f, X::T0, *a)?;
            push_terms(code, f, terms.as_slice())?;
            push_constant_part(code, *k)?;
            push_store(code, f, X::T0, *d)
        }
        FlatInstr::Call(d, callee, args) => {
            push_arguments(code, f, args.as_slice())?;
            code.call(*callee)?;
            push_result(code, f, *d)
        }
        FlatInstr::Put(d, a) => {
            push_load(code, f, X::A0, *a)?;
            push_environment_call(code, 1)?;
            push_result(code, f, *d)
        }
        FlatInstr::Get(d) => {
            push_environment_call(code, 2)?;
            push_result(code, f, *d)
        }
        FlatInstr::Exit(a) => {
            push_load(code, f, X::A0, *a)?;
            push_environment_call(code, 3)
        }
    }
}

/// Appends the choice of t1, or of t2 where t0 is 0.
fn push_choice(code: &mut CodeBuilder) -> Result<(), NoMemory>
    ensures { OnOk result (code.new ≡ code.old ++ words choice) }
{
    code.push_two(Rv::Bne(X::T0, X::ZERO, 8), Rv::Addi(X::T1, X::T2, 0))
}
