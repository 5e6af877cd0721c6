ghost use Rattle.std.specs.Prelude.{◌≡◌, true, Some};
ghost use Rattle.ir_core.specs.declared.limits.TheConstants.{MOST_LENGTH};
ghost use Rattle.ir_grammar.specs.Sets.{head_in};
ghost use Rattle.ir_grammar.specs.Forms.{token};
ghost use Rattle.ir_phrases.specs.Gives.{Gives, IsVerdict};
ghost use Rattle.ir_grammar.specs.Tokens.{look, words_of, one_word, sign as sign_set, many, after_comma, listed, stated};
ghost use Rattle.ir_grammar.specs.Types.{value_types, scalars, named, last_of, brackets, type_set, array, struct, type_in, type_form, value_type};

use crate::fault::ReadFault;
use crate::making::{boxed, push};
use crate::reader::Reader;
use ir_core::{IrType, MOST_LEVELS, Types};
use ir_grammar::{Kind, Which};
use oi_base::{Boxed, Items, Width};

/// The type but `void` that a word names.
fn value_type_word(word: &[u8]) -> Option<IrType>
    ensures { IsVerdict result (look value_types word.now) }
{
    if word == b"i32".as_slice() {
        Some(IrType::Int(Width::W32))
    } else if word == b"ptr".as_slice() {
        Some(IrType::Ptr)
    } else if word == b"i8".as_slice() {
        Some(IrType::Int(Width::W8))
    } else if word == b"i1".as_slice() {
        Some(IrType::Int(Width::W1))
    } else if word == b"i16".as_slice() {
        Some(IrType::Int(Width::W16))
    } else {
        None
    }
}

/// The type that a word names, where `void` may be one or not.
fn type_word(void: bool, word: &[u8]) -> Option<IrType>
    ensures { IsVerdict result (look (scalars void) word.now) }
{
    if void && word == b"void".as_slice() {
        return Some(IrType::Void);
    }
    value_type_word(word)
}

impl<'a> Reader<'a> {
    fn is_type_word(&self, void: bool) -> bool
        ensures { result ≡ head_in (words_of (scalars void)) self.now.tokens }
    {
        match self.next_word() {
            Some(word) => type_word(void, word).is_some(),
            None => false,
        }
    }

    /// Takes the word of a type.
    fn type_of_word(&mut self, void: bool) -> Result<IrType, ReadFault>
        ensures { Gives result self.new ((one_word (scalars void)).parse self.old) }
    {
        let Some(word) = self.next_word() else {
            return Err(self.fault());
        };
        let Some(ty) = type_word(void, word) else {
            return Err(self.fault());
        };
        self.pass()?;
        Ok(ty)
    }

    /// Takes the word of a type, where no level is left.
    fn last_type(&mut self, void: bool) -> Result<IrType, ReadFault>
        ensures { Gives result self.new ((token (last_of void)).parse self.old) }
    {
        if self.is_bracket() {
            return Err(self.limit(Which::Nesting));
        }
        self.type_of_word(void)
    }

    /// LOCAL
    #[tactic(auto, unfolding(ir_grammar::specs::Types::named))]
    fn named_type(&mut self) -> Result<IrType, ReadFault>
        ensures { Gives result self.new (named.parse self.old) }
    {
        let name = self.text(Kind::Local)?;
        Ok(IrType::Named(self.see_type(name)?))
    }

    /// Does a bracket stand next that opens a level?
    pub fn is_bracket(&self) -> bool
        ensures { result ≡ head_in brackets self.now.tokens }
    {
        self.is_sign(b'[') || self.is_sign(b'{')
    }

    /// Does a type stand next?
    pub fn is_type(&self) -> bool
        ensures { result ≡ head_in (type_set true) self.now.tokens }
    {
        self.is_kind(Kind::Local) || self.is_type_word(true) || self.is_bracket()
    }

    /// `[` INT `x` type `]`
    #[cycle(types)]
    fn array(&mut self, levels: u32) -> Result<IrType, ReadFault>
        ensures { Gives result self.new ((array (Some MOST_LENGTH) (type_in true (Some MOST_LENGTH) levels)).parse self.old) }
    {
        self.sign(b'[')?;
        let count = self.number()?;
        self.word(b"x")?;
        let element = self.ty(true, levels)?;
        self.sign(b']')?;
        Ok(IrType::Array(count, boxed(self.alloc, element)?))
    }

    /// `{` [ type { `,` type } ] `}`
    #[cycle(types)]
    fn structure(&mut self, levels: u32) -> Result<IrType, ReadFault>
        ensures { Gives result self.new ((struct (type_in true (Some MOST_LENGTH) levels)).parse self.old) }
    {
        self.sign(b'{')?;
        let fields = self.fields(levels)?;
        self.sign(b'}')?;
        Ok(IrType::Struct(fields))
    }

    /// [ type { `,` type } ]
    #[cycle(types)]
    fn fields(&mut self, levels: u32) -> Result<Types, ReadFault>
        ensures { Gives result self.new ((listed (type_set true) (type_in true (Some MOST_LENGTH) levels)).parse self.old) }
    {
        let mut fields = Items::new(self.alloc);
        if !self.is_type() {
            return Ok(fields);
        }
        let first = self.ty(true, levels)?;
        push(&mut fields, first)?;
        self.more_types(fields, levels)
    }

    /// { `,` type }
    #[cycle(types)]
    fn more_types(&mut self, types: Types, levels: u32) -> Result<Types, ReadFault>
        ensures { Gives result self.new ((many (sign_set 44) (after_comma (type_in true (Some MOST_LENGTH) levels)) types).parse self.old) }
    {
        let mut types = types;
        while self.is_sign(b',') {
            let next = self.next_type(levels)?;
            push(&mut types, next)?;
        }
        Ok(types)
    }

    /// `,` type
    #[cycle(types)]
    fn next_type(&mut self, levels: u32) -> Result<IrType, ReadFault>
        ensures { Gives result self.new ((after_comma (type_in true (Some MOST_LENGTH) levels)).parse self.old) }
    {
        self.sign(b',')?;
        self.ty(true, levels)
    }

    /// A type with at most so many levels; `void` may be one or not.
    #[cycle(types)]
    pub fn ty(&mut self, void: bool, levels: u32) -> Result<IrType, ReadFault>
        ensures { Gives result self.new ((type_in void (Some MOST_LENGTH) levels).parse self.old) }
    {
        if self.is_kind(Kind::Local) {
            return self.named_type();
        }
        if levels == 0 {
            return self.last_type(void);
        }
        if self.is_type_word(void) {
            return self.type_of_word(void);
        }
        if self.is_sign(b'[') {
            return self.array(levels - 1);
        }
        self.structure(levels - 1)
    }

    #[tactic(auto, unfolding(ir_grammar::specs::Types::type_form))]
    pub fn type_form(&mut self) -> Result<IrType, ReadFault>
        ensures { Gives result self.new ((type_form stated).parse self.old) }
    {
        self.ty(true, MOST_LEVELS)
    }

    /// A type but `void`.
    #[tactic(auto, unfolding(ir_grammar::specs::Types::value_type))]
    pub fn value_type(&mut self) -> Result<IrType, ReadFault>
        ensures { Gives result self.new ((value_type stated).parse self.old) }
    {
        self.ty(false, MOST_LEVELS)
    }
}
