ghost use Rattle.std.specs.Prelude.{◌≡◌};
ghost use Rattle.std.specs.List.{list_any};
ghost use Rattle.ir_core.specs.Source.{is_main};
ghost use Rattle.ir_core.specs.ValidModule.{BreaksMain};
ghost use Rattle.module_rules.specs.First.{IsFound};
ghost use Rattle.module_rules.specs.HasMain.{is_empty, is_good_main};

use ir_core::{Func, Module, Param};
use oi_base::{Items, Place};

/// The text's start, where no external definition `@main` without parameters and with result `i32` stands.
pub fn first_break(m: &Module) -> Option<Place>
    ensures { IsFound (BreaksMain m.now) result }
{
    if has_main(m) {
        return None;
    }
    Some(Place { line: 1, column: 1 })
}

fn has_main(m: &Module) -> bool
    ensures { result ≡ list_any (is_good_main m.now) m.now.funcs }
{
    for func in m.funcs.as_slice() {
        if is_good_main(m, func) {
            return true;
        }
    }
    false
}

#[tactic(auto, unfolding(crate::specs::HasMain::is_good_main))]
fn is_good_main(m: &Module, func: &Func) -> bool
    ensures { result ≡ is_good_main m.now func.now }
{
    is_main(m, func) && !func.internal && is_empty(&func.params) && func.result.is_word()
}

/// Whether a function's name is `main`.
pub fn is_main(m: &Module, func: &Func) -> bool
    ensures { result ≡ is_main m.now func.now }
{
    match m.symbols.get(func.name.0 as usize) {
        Some(text) => text.as_slice() == b"main".as_slice(),
        None => false,
    }
}

fn is_empty(params: &Items<Param>) -> bool
    ensures { result ≡ is_empty params.now }
{
    params.is_empty()
}
