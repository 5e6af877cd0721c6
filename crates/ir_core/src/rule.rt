ghost use Rattle.std.specs.Prelude.{◌≡◌};
ghost use Rattle.ir_core.specs.FirstBroken.{module_rule, func_rule, rule_number};

/// A rule of a module itself.
#[derive(Clone, Copy, Debug, PartialEq, Eq)]
pub enum ModuleRule {
    Main,
    SymbolTwice,
    TypeNames,
    Sizes,
    Initialisers,
    Totals,
    Alignments,
    Target,
}

impl ModuleRule {
    /// The rule's number, 1 to 8.
    pub fn number(self) -> u8
        ensures { result ≡ module_rule self }
    {
        match self {
            ModuleRule::Main => 1,
            ModuleRule::SymbolTwice => 2,
            ModuleRule::TypeNames => 3,
            ModuleRule::Sizes => 4,
            ModuleRule::Initialisers => 5,
            ModuleRule::Totals => 6,
            ModuleRule::Alignments => 7,
            ModuleRule::Target => 8,
        }
    }
}

/// A rule of a function.
#[derive(Clone, Copy, Debug, PartialEq, Eq)]
pub enum FuncRule {
    Names,
    References,
    Positions,
    Entry,
    Types,
    Constants,
    Calls,
    Phis,
    Cases,
    Assignment,
}

impl FuncRule {
    /// The rule's number, 9 to 18.
    pub fn number(self) -> u8
        ensures { result ≡ func_rule self }
    {
        match self {
            FuncRule::Names => 9,
            FuncRule::References => 10,
            FuncRule::Positions => 11,
            FuncRule::Entry => 12,
            FuncRule::Types => 13,
            FuncRule::Constants => 14,
            FuncRule::Calls => 15,
            FuncRule::Phis => 16,
            FuncRule::Cases => 17,
            FuncRule::Assignment => 18,
        }
    }
}

/// A rule that a verifier checks: of the module, or of one of its functions.
#[derive(Clone, Copy, Debug, PartialEq, Eq)]
pub enum Rule {
    Module(ModuleRule),
    Func(FuncRule),
}

impl Rule {
    /// The rule's number, 1 to 18.
    pub fn number(self) -> u8
        ensures { result ≡ rule_number self }
    {
        match self {
            Rule::Module(rule) => rule.number(),
            Rule::Func(rule) => rule.number(),
        }
    }
}
