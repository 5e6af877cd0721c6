ghost use Rattle.std.specs.Prelude.{◌≡◌, None, [], IfOk, OnOk};
ghost use Rattle.ir_core.specs.declared.module.Module as modules;
ghost use Rattle.ir_core.specs.ValidOps.{BreaksCases};
ghost use Rattle.module_rules.specs.First.{earliest, IsFound};
ghost use Rattle.ir_verifier.specs.Faults.{word_value, is_new_case, with_case, are_good_cases, has_good_cases, case_faults};

use ir_core::{Const, End, Func, IrType, Operand, SwitchCase};
use module_rules::{Numbers, earlier, word_of};
use oi_base::{NoMemory, Place};
use std::alloc::Global;

/// The first switch whose cases are not different words.
#[tactic(auto, using(crate::proofs::CaseLaws::cases_found))]
pub fn first_break(alloc: Global, f: &Func) -> Result<Option<Place>, NoMemory>
    ensures found { (m : modules.Module) → IfOk result (IsFound (BreaksCases m f.now)) }
{
    first_fault(alloc, f)
}

fn first_fault(alloc: Global, f: &Func) -> Result<Option<Place>, NoMemory>
    ensures { IfOk result (λ first. first ≡ earliest None (case_faults f.now)) }
{
    let mut first = None;
    for block in f.blocks.as_slice() {
        if !has_good_cases(alloc, &block.end)? {
            first = earlier(first, block.end_place);
        }
    }
    Ok(first)
}

fn has_good_cases(alloc: Global, end: &End) -> Result<bool, NoMemory>
    ensures { IfOk result (λ good. good ≡ has_good_cases end.now) }
{
    match end {
        End::Switch(_, _, cases) => are_good_cases(alloc, cases.as_slice()),
        _ => Ok(true),
    }
}

fn are_good_cases(alloc: Global, cases: &[SwitchCase]) -> Result<bool, NoMemory>
    ensures { IfOk result (λ good. good ≡ are_good_cases [] cases.now) }
{
    let mut words = Numbers::new(alloc);
    for case in cases {
        if !add_case(&mut words, case)? {
            return Ok(false);
        }
    }
    Ok(true)
}

/// Whether a case is a word that is none of these; it is then added to them.
fn add_case(words: &mut Numbers, case: &SwitchCase) -> Result<bool, NoMemory>
    ensures new { IfOk result (λ new. new ≡ is_new_case words.old case.now) }
    ensures words { OnOk result (words.new ≡ with_case words.old case.now) }
{
    match word_value(&case.value.ty, &case.value.value) {
        Some(word) => words.add(word),
        None => Ok(false),
    }
}

/// The word that a constant is.
fn word_value(t: &IrType, value: &Operand) -> Option<u32>
    ensures { result ≡ word_value t.now value.now }
{
    match (t, value) {
        (IrType::Int(w), Operand::Const(Const::Int(number))) => Some(word_of(*w, *number)),
        (_, Operand::Const(Const::Bool(bit))) => Some(*bit as u32),
        (IrType::Int(_), Operand::Const(Const::Undef)) => Some(0),
        _ => None,
    }
}
