ghost use Rattle.std.specs.Prelude.{◌≡◌, ℕ, true, Some, IfOk};
ghost use Rattle.ir_core.specs.declared.op.LocalId as locals;
ghost use Rattle.ir_assigned.specs.Names.{found, LabelsDiffer, RegistersDiffer, IsWriter};

use crate::definite::first_fault;
use crate::fault::AssignFault;
use crate::names::{Spot, definitions, labels};
use crate::table::get;
use ir_core::{
    BinOp, Block, Const, End, Func, Instr, IrType, LocalId, Op, Operand, Pair, Param, Short,
    SwitchCase, SymId, TypedOperand,
};
use oi_base::{Items, NoMemory, Place};
use std::alloc::{AllocError, Global};
use std::test::Fail;

// Expected values are those of a plain model. Each line has a function, and after `|` the line of the first fault, if any.
// A function's lines stand between `;`: `d` the definition with the entry's label and the parameters, `n` nothing, `b` a
// label, `i` an operation on two values, `s` a store, `f` a phi with its values and labels, and the terminators `r`, `j`,
// `c` and `w`.
const FUNCTIONS: &str = "d 0;i 1 2 -;i 2 - -;r 1|2
d 0;i 1 1 -;r 1|2
d 0 1;i 2 1 -;r 2|-
d 0;j 1;b 1;i 2 - -;c - 1 3;b 3;r 2|-
d 0;j 1;b 1;i 2 3 -;i 3 - -;j 1|4
d 0;r -;b 1;r 2;b 3;i 2 - -;r -|-
d 0;j 1;b 1;r 2;b 3;i 2 - -;j 1|4
d 0 1;c 1 2 3;b 2;i 4 - -;j 5;b 3;i 6 - -;j 5;b 5;f 7 4 2 6 3;r 7|-
d 0 1;c 1 2 3;b 2;i 4 - -;j 5;b 3;j 5;b 5;f 6 4 2 4 3;r 6|9
d 0;j 1;b 1;f 2 - 0 3 1;i 3 2 -;j 1|-
d 0;j 1;b 1;f 2 2 1 - 0;j 1|-
d 0;j 1;b 1;f 2 - 0 3 1;f 3 - 0 2 1;j 1|-
d 0;j 1;b 1;f 2 3 0 - 1;i 3 - -;j 1|4
d 0;j 1;b 2;i 3 - -;r 4;b 1;i 4 3 3;j 2|7
d 0 1;j 2;b 3;i 4 - -;r 5;b 2;i 6 4 7;i 7 - -;c 1 3 8;b 8;i 5 - -;j 3|5
d 0 1;c 1 2 3;b 2;j 4;b 3;i 5 - -;j 6;b 4;j 6;b 6;r 5|11
d 0;s 1 -;i 1 - -;r -|2
d 0;w 1 2;b 2;i 1 - -;r -|2
d 0 1;n;j 2;b 2;i 3 4 -;i 5 - -;s 3 -;r -;b 6;c 1 6 6;b 7;i 8 5 -;i 4 3 -;c 1 7 7|5
d 0 1;n;r -;b 2;i 3 4 -;i 4 3 -;s 3 -;r -|-
d 0 1;n;c 1 2 2;b 2;s 3 -;r -;b 4;i 3 3 -;r -;b 5;r -|5
d 0 1;n;i 2 2 -;i 3 2 -;r -;b 4;i 5 6 -;i 6 - -;s 3 -;c 1 4 4|3
d 0 1;n;i 2 2 -;c 1 3 3;b 3;f 4 5 0;i 6 6 -;i 5 5 -;s 5 -;r -|3
d 0 1;n;i 2 - -;s 3 -;j 4;b 4;i 3 3 -;s 2 -;j 4|4
d 0 1;n;j 2;b 2;f 3 - 0 4 5;i 6 3 -;r -;b 5;i 4 7 -;i 7 4 -;s 3 -;j 2|-
d 0 1;n;i 2 3 -;i 3 2 -;c 1 4 4;b 5;i 6 6 -;c 1 7 5;b 7;c 1 7 7;b 4;r -|3
d 0 1;n;r -;b 2;c 1 2 2;b 3;r -;b 4;i 5 5 -;c 1 3 4|-
d 0 1;n;i 2 3 -;i 4 2 -;i 5 4 -;i 3 5 -;r -|3
d 0 1;n;i 2 3 -;c 1 4 4;b 4;i 3 - -;i 5 - -;j 4|3
d 0 1;n;i 2 3 -;s 3 -;c 1 4 4;b 5;i 3 2 -;c 1 4 4;b 4;j 5|3
d 0 1;n;i 2 3 -;i 4 3 -;j 5;b 5;f 3 - 0 4 5;i 6 6 -;j 5|3
d 0 1;n;j 2;b 2;i 3 - -;i 4 3 -;c 1 2 2|-
d 0 1;n;r -;b 2;f 3 - 4 5 6;r -;b 4;i 7 5 -;j 2;b 8;i 5 3 -;j 8;b 6;c 1 2 4|-
d 0 1;n;c 1 2 3;b 3;f 4 5 0 5 3;c 1 2 3;b 6;i 5 - -;s 5 -;j 2;b 7;c 1 2 2;b 2;s 5 -;r -|5
d 0 1;n;i 2 3 -;i 4 3 -;i 5 2 -;i 3 3 -;s 4 -;r -|3
d 0 1;n;s 2 -;j 3;b 4;s 5 -;j 6;b 6;c 1 6 4;b 3;j 3;b 7;f 2 5 7;i 5 5 -;c 1 7 6|3
d 0 1;n;i 2 2 -;r -;b 3;r -;b 4;s 5 -;r -;b 6;i 5 - -;c 1 7 3;b 7;s 2 -;j 3|3
d 0 1;n;j 2;b 2;i 3 4 -;i 4 4 -;i 5 - -;i 6 3 -;j 2|5
d 0 1;n;s 2 -;c 1 3 3;b 3;j 4;b 4;i 5 2 -;i 2 - -;c 1 3 4;b 6;j 6|3
d 0 1;n;i 2 2 -;r -;b 3;r -;b 4;r -;b 5;i 6 6 -;j 3|3
d 0 1;n;i 2 3 -;i 4 5 -;i 3 5 -;i 5 5 -;s 5 -;r -|3
d 0 1;n;c 1 2 2;b 3;c 1 3 3;b 4;i 5 6 -;i 6 - -;c 1 2 3;b 2;i 7 5 -;s 7 -;c 1 3 4|7
d 0 1;n;i 2 2 -;i 3 4 -;c 1 5 6;b 7;i 8 8 -;j 6;b 6;i 4 8 -;j 7;b 5;r -|3
d 0 1;n;i 2 2 -;i 3 2 -;r -;b 4;i 5 2 -;c 1 4 4|3
d 0 1;n;s 2 -;c 1 3 4;b 4;f 5 2 0;i 2 - -;j 3;b 3;r -|3
d 0 1;n;i 2 - -;i 3 - -;i 4 3 -;i 5 2 -;r -|-
d 0 1;n;c 1 2 2;b 3;c 1 2 4;b 5;i 6 6 -;c 1 4 2;b 2;j 4;b 4;j 4|-
d 0 1;n;s 2 -;j 3;b 3;i 2 - -;j 4;b 4;r -;b 5;f 6 6 5 2 7;c 1 5 3;b 7;i 8 8 -;c 1 3 5|3
d 0 1;n;c 1 2 3;b 4;i 5 5 -;c 1 3 4;b 3;i 6 6 -;i 7 6 -;r -;b 2;r -|8
d 0 1;n;i 2 2 -;c 1 3 3;b 3;i 4 - -;i 5 5 -;c 1 3 3|3
d 0 1;n;i 2 3 -;i 4 2 -;i 3 3 -;s 4 -;r -|3
d 0 1;n;c 1 2 3;b 3;c 1 3 4;b 4;f 5 - 3;c 1 3 3;b 2;i 6 5 -;c 1 2 2|10
d 0 1;n;i 2 2 -;i 3 2 -;j 4;b 4;f 5 5 0 6 4;i 6 6 -;s 6 -;c 1 4 4|3
d 0 1;n;r -;b 2;s 3 -;j 2;b 4;i 3 - -;c 1 5 4;b 5;j 2|-
d 0 1;n;i 2 3 -;i 3 4 -;i 5 - -;i 4 5 -;r -|3
d 0 1;n;c 1 2 2;b 2;f 3 3 0 4 2;i 4 3 -;c 1 2 2|5
d 0 1;n;i 2 3 -;i 4 - -;i 5 4 -;r -;b 6;f 3 4 6 5 7;s 2 -;j 6;b 7;j 6|3
d 0 1;n;i 2 3 -;c 1 4 5;b 4;j 5;b 5;f 6 7 0 3 4 7 8;s 3 -;r -;b 8;i 3 6 -;i 7 7 -;c 1 8 5|3
d 0 1;n;i 2 3 -;j 4;b 4;f 3 3 0 3 4;c 1 4 4|3
d 0 1;n;s 2 -;j 3;b 4;s 2 -;j 4;b 5;s 2 -;c 1 5 4;b 3;f 2 - 0 - 3;c 1 3 5|3
d 0 1;n;c 1 2 3;b 4;c 1 2 4;b 2;c 1 4 3;b 3;f 5 5 0 5 2 5 3;c 1 3 3|9
d 0 1;n;i 2 2 -;r -;b 3;c 1 3 4;b 4;j 4|3
d 0 1;n;i 2 2 -;i 3 - -;i 4 4 -;i 5 4 -;r -;b 6;c 1 6 6|3
d 0 1;n;i 2 - -;r -;b 3;i 4 2 -;s 2 -;c 1 5 3;b 5;c 1 5 3|-
d 0 1;n;i 2 - -;i 3 - -;s 3 -;c 1 4 4;b 4;s 2 -;c 1 4 4|-
d 0 1;n;i 2 - -;c 1 3 4;b 3;c 1 3 4;b 4;i 5 - -;s 2 -;c 1 3 4|-
d 0 1;n;i 2 - -;j 3;b 4;c 1 4 5;b 6;j 5;b 3;i 7 7 -;j 4;b 5;i 8 - -;j 3|10
d 0 1;n;i 2 2 -;s 3 -;j 4;b 4;i 3 5 -;i 5 6 -;i 6 5 -;c 1 4 4|3
d 0 1;n;i 2 3 -;s 4 -;c 1 5 6;b 7;s 8 -;j 7;b 5;i 8 - -;r -;b 9;i 4 8 -;i 3 8 -;j 6;b 6;c 1 7 7|3
d 0 1;n;i 2 3 -;c 1 4 5;b 6;i 3 2 -;r -;b 4;c 1 7 4;b 7;j 4;b 5;s 3 -;c 1 5 4|3
d 0 1;n;i 2 - -;i 3 2 -;s 3 -;c 1 4 4;b 4;f 5 5 0 - 4;i 6 - -;c 1 4 4|8
d 0 1;n;i 2 3 -;r -;b 4;s 3 -;c 1 5 5;b 6;f 3 3 5;i 7 3 -;s 8 -;c 1 4 4;b 5;i 8 7 -;j 6|3
d 0 1;n;s 2 -;j 3;b 4;r -;b 3;f 5 5 0 2 3;c 1 6 3;b 6;i 2 2 -;s 5 -;c 1 4 6|3
d 0 1;n;i 2 3 -;i 3 4 -;i 4 3 -;i 5 2 -;s 5 -;r -|3
d 0 1;n;i 2 - -;r -;b 3;i 4 5 -;i 6 - -;r -;b 7;i 5 6 -;c 1 7 7|-
d 0 1;n;j 2;b 3;f 4 4 3;s 4 -;c 1 3 2;b 5;j 5;b 2;c 1 5 2|-
d 0 1;n;i 2 - -;j 3;b 3;c 1 3 4;b 4;c 1 4 3|-
d 0 1;n;r -;b 2;i 3 4 -;r -;b 5;c 1 6 5;b 6;i 4 4 -;i 7 3 -;i 8 - -;s 7 -;c 1 5 6|-
d 0 1;n;i 2 - -;i 3 - -;c 1 4 4;b 4;i 5 3 -;s 2 -;j 4|-
d 0 1;n;c 1 2 2;b 2;i 3 - -;s 3 -;c 1 2 2|-
d 0 1;n;c 1 2 3;b 3;j 3;b 2;f 4 - 0 4 2;i 5 4 -;i 6 - -;c 1 2 2|-
d 0 1;n;i 2 - -;r -;b 3;f 4 2 3;i 5 2 -;c 1 3 3|-
d 0 1;n;i 2 - -;i 3 2 -;i 4 3 -;s 2 -;j 5;b 6;s 7 -;c 1 8 8;b 8;r -;b 5;f 7 2 0;s 2 -;j 8|-
d 0 1;n;r -;b 2;f 3 - 4;s 3 -;c 1 5 4;b 5;j 4;b 4;c 1 2 4|-
d 0 1;n;i 2 - -;s 2 -;r -;b 3;j 4;b 5;s 2 -;j 3;b 4;s 2 -;c 1 5 3|-
d 0 1;n;c 1 2 3;b 4;i 5 6 -;j 4;b 2;i 6 - -;r -;b 7;c 1 4 2;b 3;r -|-
d 0 1;n;r -;b 2;i 3 3 -;j 4;b 5;f 6 6 4;i 7 6 -;j 4;b 4;i 8 6 -;j 5|-
d 0 1;n;r -;b 2;i 3 - -;j 2;b 4;i 5 6 -;i 6 5 -;c 1 4 7;b 7;r -|-";

/// Whether each label leads to its own block, and each register to where it is written.
fn differ(alloc: Global, f: &Func) -> Result<bool, NoMemory>
    ensures labels { IfOk result (λ yes. yes ≡ true → LabelsDiffer f.now) }
    ensures registers { IfOk result (λ yes. yes ≡ true → RegistersDiffer f.now) }
{
    let labels = labels(alloc, f)?;
    let definitions = definitions(alloc, f)?;
    for (b, block) in f.blocks.as_slice().iter().enumerate() {
        if !is_at(labels.as_slice(), block.label, b) {
            return Ok(false);
        }
        if !writes_own(definitions.as_slice(), b, block) {
            return Ok(false);
        }
    }
    Ok(true)
}

fn is_at(labels: &[Option<usize>], label: LocalId, b: usize) -> bool
    ensures { result ≡ true → found labels.now label.0 ≡ Some b }
{
    match get(labels, label) {
        Some(found) => found == b,
        None => false,
    }
}

/// Whether each register that a block writes leads to where it is written.
fn writes_own(definitions: &[Option<Spot>], b: usize, block: &Block) -> bool
    ensures { result ≡ true → (at : ℕ) (x : locals.LocalId) → IsWriter block.now at x → found definitions.now x.0 ≡ Some (record { block = b; at = at }) }
{
    for (at, instr) in block.code.as_slice().iter().enumerate() {
        if !is_own(definitions, Spot { block: b, at }, instr) {
            return false;
        }
    }
    true
}

fn is_own(definitions: &[Option<Spot>], spot: Spot, instr: &Instr) -> bool
    ensures { result ≡ true → (x : locals.LocalId) → instr.now.result ≡ Some x → found definitions.now x.0 ≡ Some spot }
{
    match instr.result {
        Some(local) => match get(definitions, local) {
            Some(found) => found.block == spot.block && found.at == spot.at,
            None => false,
        },
        None => true,
    }
}

fn local(word: Option<&str>) -> LocalId {
    LocalId(word.unwrap_or("0").parse::<u32>().unwrap_or(0))
}

fn operand(word: Option<&str>) -> Operand {
    match word {
        Some("-") => Operand::Const(Const::Poison),
        word => Operand::Local(local(word)),
    }
}

fn typed(word: Option<&str>) -> TypedOperand {
    TypedOperand {
        ty: IrType::Ptr,
        value: operand(word),
    }
}

/// A phi's values and labels.
fn phi(alloc: Global, words: &str) -> Result<Op, AllocError> {
    let mut entries = Short::new(alloc);
    let mut value = operand(None);
    for (k, word) in words.split(' ').enumerate() {
        if k % 2 == 0 {
            value = operand(Some(word));
        } else {
            entries.push(Pair {
                value: std::mem::replace(&mut value, operand(None)),
                from: local(Some(word)),
            })?;
        }
    }
    Ok(Op::Phi(IrType::Ptr, entries))
}

/// The terminator that a line states.
fn end(alloc: Global, line: &str) -> Result<End, AllocError> {
    let mut words = line.split(' ');
    let kind = words.next();
    match kind {
        Some("j") => Ok(End::Br(local(words.next()))),
        Some("c") => {
            let condition = typed(words.next());
            let yes = local(words.next());
            Ok(End::Cond(condition, yes, local(words.next())))
        }
        Some("w") => {
            let value = typed(words.next());
            let other = local(words.next());
            let mut cases = Items::new(alloc);
            for to in words {
                cases.push(SwitchCase {
                    value: typed(None),
                    to: local(Some(to)),
                })?;
            }
            Ok(End::Switch(value, other, cases))
        }
        _ => Ok(End::Ret(Some(typed(words.next())))),
    }
}

/// The instruction that a line states, if it is one.
fn instr(alloc: Global, line: &str, place: Place) -> Result<Option<Instr>, AllocError> {
    let mut words = line.split(' ');
    let kind = words.next();
    match kind {
        Some("i") => {
            let result = Some(local(words.next()));
            let first = operand(words.next());
            let op = Op::Bin(BinOp::Add, IrType::Ptr, first, operand(words.next()));
            Ok(Some(Instr { place, result, op }))
        }
        Some("s") => {
            let value = typed(words.next());
            let op = Op::Store(value, typed(words.next()), None);
            Ok(Some(Instr {
                place,
                result: None,
                op,
            }))
        }
        Some("f") => {
            let result = Some(local(words.next()));
            let (_, rest) = line.split_once(' ').unwrap_or(("", ""));
            let (_, rest) = rest.split_once(' ').unwrap_or(("", ""));
            let op = phi(alloc, rest)?;
            Ok(Some(Instr { place, result, op }))
        }
        _ => Ok(None),
    }
}

/// A function that is read line by line.
#[derive(Drop)]
struct Reading {
    params: Items<Param>,
    blocks: Items<Block>,
    label: LocalId,
    code: Items<Instr>,
}

impl Reading {
    fn line(&mut self, alloc: Global, line: &str, place: Place) -> Result<(), AllocError> {
        if let Some(instr) = instr(alloc, line, place)? {
            return self.code.push(instr);
        }
        let mut words = line.split(' ');
        match words.next() {
            Some("n") => Ok(()),
            Some("b") => {
                self.label = local(words.next());
                Ok(())
            }
            Some("d") => {
                self.label = local(words.next());
                for name in words {
                    self.params.push(Param {
                        ty: IrType::Ptr,
                        name: local(Some(name)),
                    })?;
                }
                Ok(())
            }
            _ => self.finish(alloc, line, place),
        }
    }

    /// The block ends with a line's terminator.
    fn finish(&mut self, alloc: Global, line: &str, place: Place) -> Result<(), AllocError> {
        let code = std::mem::replace(&mut self.code, Items::new(alloc));
        self.blocks.push(Block {
            place,
            label: self.label,
            code,
            end: end(alloc, line)?,
            end_place: place,
        })
    }
}

fn function(alloc: Global, text: &str) -> Result<Func, AllocError> {
    let mut reading = Reading {
        params: Items::new(alloc),
        blocks: Items::new(alloc),
        label: LocalId(0),
        code: Items::new(alloc),
    };
    let mut place = Place { line: 0, column: 3 };
    for line in text.split(';') {
        place.line = place.line.saturating_add(1);
        reading.line(alloc, line, place)?;
    }
    Ok(Func {
        place,
        name: SymId(0),
        internal: false,
        noinline: false,
        result: IrType::Void,
        params: reading.params,
        locals: Items::new(alloc),
        blocks: reading.blocks,
    })
}

/// The first fault, or want of memory where two things have one name.
fn fault_of(alloc: Global, f: &Func) -> Result<(), AssignFault> {
    if differ(alloc, f)? {
        first_fault(alloc, f)
    } else {
        Err(AssignFault::NoMemory)
    }
}

#[test]
fn the_first_fault_of_functions(rt: HostRuntime) -> Result<(), Fail> {
    let alloc = rt.alloc();
    for row in FUNCTIONS.lines() {
        let (text, wanted) = row.split_once('|').ok_or("no wanted line")?;
        let f = function(alloc, text)?;
        let found = match fault_of(alloc, &f) {
            Ok(()) => 0,
            Err(AssignFault::Unassigned(fault)) => fault.place.line,
            Err(AssignFault::NoMemory) => return Err(Fail::from(NoMemory)),
        };
        assert_eq!(rt; found, wanted.parse::<u32>().unwrap_or(0), "{row}");
    }
    Ok(())
}

#[test]
fn a_path_around_the_definition(rt: HostRuntime) -> Result<(), Fail> {
    let alloc = rt.alloc();
    let f = function(alloc, "d 0;i 1 - -;i 2 1 -;c 2 3 4;b 3;i 5 1 -;j 4;b 4;r 5")?;
    match fault_of(alloc, &f) {
        Err(AssignFault::Unassigned(fault)) => {
            assert_eq!(rt; fault.place, Place { line: 9, column: 3 });
            assert_eq!(rt; fault.local, LocalId(5));
            assert_eq!(rt; fault.path.as_slice(), [0, 2].as_slice());
            Ok(())
        }
        _ => Err(Fail::from("no fault")),
    }
}
