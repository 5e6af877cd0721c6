ghost use Rattle.std.specs.Prelude.{◌≡◌, ◌+◌, length, IfOk};
ghost use Rattle.std.specs.Fmt.{decimal};
ghost use Rattle.ir_grammar.specs.Names.{symbol, type_name, local, define, define_next, appended, written, next_after, no_locals};
ghost use Rattle.ir_grammar.specs.Operations.{keep_types};
ghost use Rattle.ir_grammar.specs.Forms.{act};
ghost use Rattle.ir_phrases.specs.Gives.{Gives};

use crate::fault::ReadFault;
use crate::reader::Reader;
use crate::table::Table;
use crate::words::are_digits;
use ir_core::{LocalId, SymId, Texts, TypeName};
use oi_base::{NoMemory, Text};
use std::alloc::Global;

/// The most digits of a name that counts.
const MOST_DIGITS: usize = 30;

impl<'a> Reader<'a> {
    /// A name after `@` appears.
    #[tactic(auto, unfolding(ir_grammar::specs::Names::symbol))]
    pub fn see_symbol(&mut self, name: Text) -> Result<SymId, ReadFault>
        ensures { Gives result self.new ((act (symbol name)).parse self.old) }
    {
        let at = self.symbols.see(self.alloc, name.as_slice())?;
        Ok(SymId(at))
    }

    /// A type name appears.
    #[tactic(auto, unfolding(ir_grammar::specs::Names::type_name))]
    pub fn see_type(&mut self, name: Text) -> Result<TypeName, ReadFault>
        ensures { Gives result self.new ((act (type_name name)).parse self.old) }
    {
        let at = self.types.see(self.alloc, name.as_slice())?;
        Ok(TypeName(at))
    }

    /// A parameter, a register or a label appears.
    #[tactic(auto, unfolding(ir_grammar::specs::Names::local))]
    pub fn see_local(&mut self, name: Text) -> Result<LocalId, ReadFault>
        ensures { Gives result self.new ((act (local name)).parse self.old) }
    {
        let at = self.locals.see(self.alloc, name.as_slice())?;
        Ok(LocalId(at))
    }

    /// A parameter, a register or a label is defined.
    #[tactic(auto, unfolding(ir_grammar::specs::Names::define))]
    pub fn define(&mut self, name: Text) -> Result<LocalId, ReadFault>
        ensures { Gives result self.new ((act (define name)).parse self.old) }
    {
        self.next = next_after(name.as_slice(), self.next)?;
        self.see_local(name)
    }

    /// What has no name is defined.
    #[tactic(auto, unfolding(ir_grammar::specs::Names::define_next))]
    pub fn define_next(&mut self) -> Result<LocalId, ReadFault>
        ensures { Gives result self.new ((act define_next).parse self.old) }
    {
        let name = decimal(self.alloc, self.next)?;
        self.define(name)
    }

    /// How many type names appeared.
    pub fn type_count(&self) -> usize
        ensures { result ≡ length self.now.names.types }
    {
        self.types.len()
    }

    /// Takes all type names but the first away again.
    pub fn keep_types(&mut self, so_many: usize)
        ensures { self.new ≡ record { names = (keep_types so_many self.old.names).1; tokens = self.old.tokens } }
    {
        self.types.truncate(so_many);
    }

    /// A function begins.
    pub fn forget_locals(&mut self)
        ensures { self.new ≡ record { names = no_locals self.old.names; tokens = self.old.tokens } }
    {
        self.locals = Table::new(self.alloc);
        self.next = 0;
    }

    /// The names after `@` so far, in order of first appearance.
    pub fn symbol_names(&self) -> Result<Texts, NoMemory>
        ensures { IfOk result (λ ts. ts ≡ self.now.names.symbols) }
    {
        self.symbols.names(self.alloc)
    }

    /// The type names so far, in order of first appearance.
    pub fn type_names(&self) -> Result<Texts, NoMemory>
        ensures { IfOk result (λ ts. ts ≡ self.now.names.types) }
    {
        self.types.names(self.alloc)
    }

    /// The parameters, registers and labels of the function so far, in order of first appearance.
    pub fn local_names(&self) -> Result<Texts, NoMemory>
        ensures { IfOk result (λ ts. ts ≡ self.now.names.locals) }
    {
        self.locals.names(self.alloc)
    }
}

/// A decimal digit after a number.
fn appended(number: u128, digit: u8) -> Result<u128, NoMemory>
    ensures { IfOk result (λ n. n ≡ appended number digit) }
{
    let Some(tens) = number.checked_mul(10) else {
        return Err(NoMemory);
    };
    match tens.checked_add(u128::from(digit.saturating_sub(b'0'))) {
        Some(n) => Ok(n),
        None => Err(NoMemory),
    }
}

/// The number that decimal digits write.
fn written(digits: &[u8]) -> Result<u128, NoMemory>
    ensures { IfOk result (λ n. n ≡ written digits.now) }
{
    let mut rest = digits;
    let mut number = 0;
    while let [digit, after @ ..] = rest {
        number = appended(number, *digit)?;
        rest = after;
    }
    Ok(number)
}

fn one_more(number: u128) -> Result<u128, NoMemory>
    ensures { IfOk result (λ n. n ≡ number + 1) }
{
    match number.checked_add(1) {
        Some(n) => Ok(n),
        None => Err(NoMemory),
    }
}

/// The number of what has no name, after a definition of this name.
#[tactic(auto, unfolding(ir_grammar::specs::Names::next_after))]
fn next_after(name: &[u8], number: u128) -> Result<u128, NoMemory>
    ensures { IfOk result (λ n. n ≡ next_after name.now number) }
{
    if !are_digits(name) || name.len() > MOST_DIGITS {
        return Ok(number);
    }
    let found = one_more(written(name)?)?;
    Ok(if number <= found { found } else { number })
}

/// The digits of a number.
fn decimal(alloc: Global, number: u128) -> Result<Text, NoMemory>
    ensures { IfOk result (λ t. t ≡ decimal number) }
{
    let digits = format!(in alloc; "{number}")?;
    Ok(Text::from_slice(alloc, digits.as_bytes())?)
}
