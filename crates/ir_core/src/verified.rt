ghost use Rattle.std.specs.Prelude.{◌≡◌};
ghost use Rattle.ir_core.specs.Proper.{IsProper};
ghost use Rattle.ir_core.specs.Valid.{IsValid};

use crate::module::Module;
use std::marker::Model;

/// A module that is proper, as each one that was read from a text is, and that breaks no rule of the accepted IR
/// at any place (docs/RULES.md). Contracts see it as the module.
#[derive(Drop)]
pub struct Verified {
    module: Module,
}

impl Model for Verified {
    ghost use Rattle.ir_core.specs.declared.module.Module as modules;
    ghost use Rattle.ir_core.specs.contracts.module.Module as of_module;
    ghost use Rattle.ir_core.specs.Proper.{IsProper};
    ghost use Rattle.ir_core.specs.Valid.{IsValid};

    ghost Value = { modules.Module };

    ghost coded = { of_module.the_row.coded };

    ghost view = { λ v. v.module };

    ghost invariant = { λ v. IsProper v.module × IsValid v.module };
}

impl Verified {
    /// The module as a verified one; that both hold of it is the condition.
    pub fn of(module: Module) -> Verified
        requires proper { IsProper «module» }
        requires valid { IsValid «module» }
        ensures { result ≡ «module» }
    {
        Verified { module }
    }

    /// The module, of which both hold.
    pub fn module(&self) -> &Module
        ensures same { result.now ≡ self.now }
        ensures proper { IsProper self.now }
        ensures valid { IsValid self.now }
    {
        &self.module
    }
}
