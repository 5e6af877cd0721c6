ghost use Rattle.std.specs.Prelude.{◌≡◌, ◌≢◌, Contains, IfOk, OnOk, IfErr};
ghost use Rattle.ir_core.specs.Proper.{IsProper};
ghost use Rattle.ir_core.specs.Valid.{IsValid, IsValidFunc};
ghost use Rattle.ir_core.specs.FirstBroken.{module_rule, func_rule, rule_number, IsFirstBroken};
ghost use Rattle.module_rules.specs.Faults.{global_numbers};
ghost use Rattle.ir_verifier.specs.declared.fault.RuleFault.TheVariants as faults;
ghost use Rattle.ir_verifier.specs.Verdict.{IfRule, IfUnassigned, met, IsFirstUnassigned, MeetsModuleRules, MeetsModuleRulesBelow, IsFaultOfModule, MeetsFuncRulesBelow, IsFaultOfFunc, IsFaultOfFuncs};

use crate::callees::Callees;
use crate::fault::RuleFault;
use crate::{calls, cases, constants, entry, names, phis, positions, references, types};
use ir_assigned::assigned;
use ir_core::{Func, FuncRule, Module, ModuleRule, Rule, Verified};
use module_rules::{
    Numbers, alignments, global_numbers, has_main, initialisers, sizes, symbols, target, totals,
    type_names,
};
use oi_base::Place;
use std::alloc::Global;

/// The module as a verified one, where it breaks no rule at any place (docs/RULES.md). Its condition is that the module is
/// proper, as each one that was read from a text is. Else the fault is of the first broken rule: those of the module as a whole
/// come first, by their numbers, and then the functions in text order, each with its rules by their numbers; a rule counts
/// at its first place. For the rule of assignment the fault has a register, and a path to its use around its definition.
pub fn verify(alloc: Global, m: Module) -> Result<Verified, RuleFault>
    requires proper { IsProper m }
    ensures same { IfOk result (λ v. v ≡ m) }
    ensures valid { OnOk result (IsValid m) }
    ensures only { IsValid m → IfErr result (λ e. e ≡ faults.NoMemory) }
    ensures rule { IfErr result (IfRule (IsFirstBroken m)) }
    ensures other { IfErr result (IfRule (λ number p. number ≢ 18)) }
    ensures assignment { IfErr result (IfUnassigned (λ u. IsFirstBroken m 18 u.place)) }
    ensures path { IfErr result (IfUnassigned (IsFirstUnassigned m)) }
{
    test_module(alloc, &m)?;
    test_funcs(alloc, &m)?;
    Ok(Verified::of(m))
}

/// Tests the rules of the module as a whole.
fn test_module(alloc: Global, m: &Module) -> Result<(), RuleFault>
    requires proper { IsProper m.now }
    ensures ok { OnOk result (MeetsModuleRules m.now) }
    ensures fault { IfErr result (IsFaultOfModule m.now) }
{
    test_symbols(alloc, m)?;
    test_data(alloc, m)
}

/// Tests the rules of `main`, of symbols and of type names.
fn test_symbols(alloc: Global, m: &Module) -> Result<(), RuleFault>
    requires proper { IsProper m.now }
    ensures ok { OnOk result (MeetsModuleRulesBelow (module_rule ModuleRule.Sizes) m.now) }
    ensures fault { IfErr result (IsFaultOfModule m.now) }
{
    met(Rule::Module(ModuleRule::Main), has_main::first_break(m))?;
    met(
        Rule::Module(ModuleRule::SymbolTwice),
        symbols::first_break(alloc, m)?,
    )?;
    met(
        Rule::Module(ModuleRule::TypeNames),
        type_names::first_break(alloc, m)?,
    )
}

/// Tests the rules of sizes, initialisers, totals, alignments and the target.
fn test_data(alloc: Global, m: &Module) -> Result<(), RuleFault>
    requires lower { MeetsModuleRulesBelow (module_rule ModuleRule.Sizes) m.now }
    ensures ok { OnOk result (MeetsModuleRules m.now) }
    ensures fault { IfErr result (IsFaultOfModule m.now) }
{
    met(
        Rule::Module(ModuleRule::Sizes),
        sizes::first_break(alloc, m)?,
    )?;
    met(
        Rule::Module(ModuleRule::Initialisers),
        initialisers::first_break(alloc, m)?,
    )?;
    met(
        Rule::Module(ModuleRule::Totals),
        totals::first_break(alloc, m)?,
    )?;
    met(
        Rule::Module(ModuleRule::Alignments),
        alignments::first_break(m),
    )?;
    met(Rule::Module(ModuleRule::Target), target::first_break(m))
}

/// Ok where a rule is broken at no place.
fn met(rule: Rule, first: Option<Place>) -> Result<(), RuleFault>
    ensures { result ≡ met (rule_number rule) first }
{
    match first {
        Some(place) => Err(RuleFault::Rule(rule.number(), place)),
        None => Ok(()),
    }
}

/// Tests the rules of functions, one function after the other.
fn test_funcs(alloc: Global, m: &Module) -> Result<(), RuleFault>
    requires proper { IsProper m.now }
    requires own { MeetsModuleRules m.now }
    ensures ok { OnOk result (IsValid m.now) }
    ensures fault { IfErr result (IsFaultOfFuncs m.now) }
{
    let globals = global_numbers(alloc, m.globals.as_slice())?;
    let callees = Callees::of(alloc, m)?;
    for func in m.funcs.as_slice() {
        test_func(alloc, m, &globals, &callees, func)?;
    }
    Ok(())
}

/// Tests the rules of a function of the module.
fn test_func(
    alloc: Global,
    m: &Module,
    globals: &Numbers,
    callees: &Callees<'_>,
    f: &Func,
) -> Result<(), RuleFault>
    requires proper { IsProper m.now }
    requires own { MeetsModuleRules m.now }
    requires globals { globals.now ≡ global_numbers m.now }
    requires callees { callees.now ≡ m.now }
    requires inside { Contains m.now.funcs f.now }
    ensures ok { OnOk result (IsValidFunc m.now f.now) }
    ensures fault { IfErr result (IsFaultOfFunc m.now f.now) }
{
    test_names(alloc, m, globals, f)?;
    test_values(alloc, m, callees, f)?;
    test_flow(alloc, m, f)
}

/// Tests the rules of names and of blocks.
fn test_names(alloc: Global, m: &Module, globals: &Numbers, f: &Func) -> Result<(), RuleFault>
    requires proper { IsProper m.now }
    requires globals { globals.now ≡ global_numbers m.now }
    requires inside { Contains m.now.funcs f.now }
    ensures ok { OnOk result (MeetsFuncRulesBelow (func_rule FuncRule.Types) m.now f.now) }
    ensures fault { IfErr result (IsFaultOfFunc m.now f.now) }
{
    met(Rule::Func(FuncRule::Names), names::first_break(alloc, f)?)?;
    met(
        Rule::Func(FuncRule::References),
        references::first_break(alloc, globals, f)?,
    )?;
    met(Rule::Func(FuncRule::Positions), positions::first_break(f))?;
    met(Rule::Func(FuncRule::Entry), entry::first_break(f))
}

/// Tests the rules of types, constants and calls.
fn test_values(alloc: Global, m: &Module, callees: &Callees<'_>, f: &Func) -> Result<(), RuleFault>
    requires own { MeetsModuleRules m.now }
    requires callees { callees.now ≡ m.now }
    requires lower { MeetsFuncRulesBelow (func_rule FuncRule.Types) m.now f.now }
    ensures ok { OnOk result (MeetsFuncRulesBelow (func_rule FuncRule.Phis) m.now f.now) }
    ensures fault { IfErr result (IsFaultOfFunc m.now f.now) }
{
    met(
        Rule::Func(FuncRule::Types),
        types::first_break(alloc, m, f)?,
    )?;
    met(Rule::Func(FuncRule::Constants), constants::first_break(f))?;
    met(Rule::Func(FuncRule::Calls), calls::first_break(callees, f))
}

/// Tests the rules of phis, cases and assignment.
fn test_flow(alloc: Global, m: &Module, f: &Func) -> Result<(), RuleFault>
    requires proper { IsProper m.now }
    requires own { MeetsModuleRules m.now }
    requires inside { Contains m.now.funcs f.now }
    requires lower { MeetsFuncRulesBelow (func_rule FuncRule.Phis) m.now f.now }
    ensures ok { OnOk result (IsValidFunc m.now f.now) }
    ensures fault { IfErr result (IsFaultOfFunc m.now f.now) }
{
    met(Rule::Func(FuncRule::Phis), phis::first_break(alloc, m, f)?)?;
    met(Rule::Func(FuncRule::Cases), cases::first_break(alloc, f)?)?;
    assigned(alloc, f)?;
    Ok(())
}
