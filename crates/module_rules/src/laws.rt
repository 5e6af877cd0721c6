ghost use Rattle.std.specs.Prelude.{◌<◌, Option};
ghost use Rattle.oi_base.specs.declared.ids.Place.{Place as places};
ghost use Rattle.ir_core.specs.declared.module.Module as modules;
ghost use Rattle.ir_core.specs.Proper.{IsProper};
ghost use Rattle.ir_core.specs.declared.rule.ModuleRule.{ModuleRule};
ghost use Rattle.ir_core.specs.FirstBroken.{module_rule, BreaksModule};
ghost use Rattle.module_rules.specs.First.{IsFound};

/// Each rule of a proper module as a whole is decided, where those of lower numbers are met: it is broken nowhere, or first at
/// some place.
pub fn a_rule_of_a_module_is_decided()
    ensures { (m : modules.Module) (r : ModuleRule) → IsProper m → ((s : ModuleRule) (p : places) → module_rule s < module_rule r → BreaksModule m s p → ⊥) → (first : Option places) × IsFound (BreaksModule m r) first }
{}
