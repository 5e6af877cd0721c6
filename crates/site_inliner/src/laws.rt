ghost use Rattle.std.specs.Prelude.{◌≡◌, ℕ, slice_get, Some};
ghost use Rattle.oi_base.specs.declared.ids.FuncId as func_ids;
ghost use Rattle.ir_core.specs.declared.func.Func as funcs;
ghost use Rattle.ir_core.specs.declared.module.Module as modules;
ghost use Rattle.ir_core.specs.Plain.{plain_body};
ghost use Rattle.shapes.specs.Tree.{node, none};
ghost use Rattle.site_inliner.specs.Flat.{flat};
ghost use Rattle.site_inliner.specs.Worked.{WorkedBodies};

/// Where no site is inlined, the expanded body of a function is its plain body. It does nothing: its contract is the law.
pub fn bodies_without_inlined_sites_are_plain()
    ensures { (m : modules.Module) (f : func_ids.FuncId) (d : funcs.Func) (w : ℕ) → slice_get m.funcs f.0 ≡ Some d → flat m (node f w none) ≡ Some (plain_body m d) }
{}

/// The expanded bodies of some small modules. It does nothing: its contract is the law.
pub fn worked_bodies()
    ensures { WorkedBodies }
{}
