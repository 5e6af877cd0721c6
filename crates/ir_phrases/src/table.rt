ghost use Rattle.std.specs.Prelude.{◌≡◌, ℕ, List, [], ◌∷◌, ◌++◌, None, length, map, position, take, IfOk, OnOk};
ghost use Rattle.std.specs.Str.{bytes_eq};
ghost use Rattle.ir_grammar.specs.Names.{numbered};
ghost use Rattle.ir_grammar.specs.Sets.{among};

use indexmap::IndexSet;
use ir_core::Texts;
use oi_base::{Items, NoMemory, Text};
use std::alloc::Global;
use std::marker::Model;

/// Names in order of first appearance, numbered from 0.
#[derive(Drop)]
pub struct Table {
    set: IndexSet<Vec<u8>>,
}

impl Model for Table {
    ghost use Rattle.std.specs.Prelude.{ℕ, List, map};

    ghost Value = { List (List ℕ) };

    ghost view = { λ t. map (λ v. v.items) t.set.keys };
}

impl Table {
    pub fn new(alloc: Global) -> Table
        ensures { result ≡ [] }
    {
        Table {
            set: IndexSet::new(alloc),
        }
    }

    /// How many names there are.
    pub fn len(&self) -> usize
        ensures { result ≡ length self.now }
    {
        self.set.len()
    }

    fn find(&self, name: &[u8]) -> Option<usize>
        ensures { result ≡ position (bytes_eq name.now) self.now }
    {
        self.set.get_index_of(name)
    }

    fn add(&mut self, alloc: Global, name: &[u8]) -> Result<(), NoMemory>
        requires { position (bytes_eq name.now) self.old ≡ None }
        ensures { OnOk result (self.new ≡ self.old ++ name.now ∷ []) }
    {
        self.set.insert(Vec::from_slice(alloc, name)?)?;
        Ok(())
    }

    /// The number of a name that appears.
    #[tactic(auto, unfolding(ir_grammar::specs::Names::numbered))]
    pub fn see(&mut self, alloc: Global, name: &[u8]) -> Result<u32, NoMemory>
        ensures number { IfOk result (λ k. k ≡ (numbered name.now self.old).0) }
        ensures names { OnOk result (self.new ≡ (numbered name.now self.old).1) }
    {
        if let Some(at) = self.find(name) {
            return short(at);
        }
        let at = short(self.len())?;
        self.add(alloc, name)?;
        Ok(at)
    }

    /// Does the name appear?
    pub fn has(&self, name: &[u8]) -> bool
        ensures { result ≡ among self.now name.now }
    {
        self.find(name).is_some()
    }

    /// The table of these names.
    pub fn of(alloc: Global, names: &[Text]) -> Result<Table, NoMemory>
        ensures { IfOk result (λ t. (name : List ℕ) → among t name ≡ among names.now name) }
    {
        let mut table = Table::new(alloc);
        for name in names {
            table.see(alloc, name.as_slice())?;
        }
        Ok(table)
    }

    /// The names in their order.
    pub fn names(&self, alloc: Global) -> Result<Texts, NoMemory>
        ensures { IfOk result (λ ts. ts ≡ self.now) }
    {
        texts_of(alloc, self.set.as_slice())
    }

    /// Keeps the first names alone.
    pub fn truncate(&mut self, len: usize)
        ensures { self.new ≡ take len self.old }
    {
        self.set.truncate(len);
    }
}

/// Byte strings as texts.
fn texts_of(alloc: Global, names: &[Vec<u8>]) -> Result<Texts, NoMemory>
    ensures { IfOk result (λ ts. ts ≡ map (λ v. v.items) names.now) }
{
    let mut texts = Texts::new(alloc);
    for name in names {
        texts.push(Text::from_slice(alloc, name.as_slice())?)?;
    }
    Ok(texts)
}

/// A position as 32 bits; no text has more names than bytes.
fn short(at: usize) -> Result<u32, NoMemory>
    ensures { IfOk result (λ n. n ≡ at) }
{
    match u32::try_from(at) {
        Ok(n) => Ok(n),
        Err(_) => Err(NoMemory),
    }
}
