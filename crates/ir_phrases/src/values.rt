ghost use Rattle.std.specs.Prelude.{◌≡◌, true, Some, [], ◌∷◌};
ghost use Rattle.ir_core.specs.declared.limits.TheConstants.{MOST_LENGTH};
ghost use Rattle.ir_grammar.specs.Sets.{head_in, IsWord};
ghost use Rattle.ir_grammar.specs.Forms.{token};
ghost use Rattle.ir_phrases.specs.Gives.{Gives, IsVerdict};
ghost use Rattle.ir_grammar.specs.Tokens.{look, words_of, one_word, sign as sign_set, many, after_comma, listed, expect, stated};
ghost use Rattle.ir_grammar.specs.Types.{type_set};
ghost use Rattle.ir_grammar.specs.Values.{const_words, gep_word, gep_flag, gep_flags, global, index, gep_rest, gep, address, integer, const_at, constant, local_value, value_set, value, typed, zero_init, bytes, last_const_of, typed_init, array_init, struct_init, init_at, init};

use crate::fault::ReadFault;
use crate::making::push;
use crate::reader::Reader;
use ir_core::{
    Const, Indices, MOST_LEVELS, Operand, SymId, TypedConst, TypedConsts, TypedCount, TypedOperand,
};
use ir_grammar::{Kind, Which};
use oi_base::Items;

/// The constant that a word names.
fn const_word(word: &[u8]) -> Option<Const>
    ensures { IsVerdict result (look const_words word.now) }
{
    if word == b"true".as_slice() {
        Some(Const::Bool(true))
    } else if word == b"false".as_slice() {
        Some(Const::Bool(false))
    } else if word == b"null".as_slice() {
        Some(Const::Null)
    } else if word == b"undef".as_slice() {
        Some(Const::Undef)
    } else if word == b"poison".as_slice() {
        Some(Const::Poison)
    } else {
        None
    }
}

impl<'a> Reader<'a> {
    pub fn is_const_word(&self) -> bool
        ensures { result ≡ head_in (words_of const_words) self.now.tokens }
    {
        match self.next_word() {
            Some(word) => const_word(word).is_some(),
            None => false,
        }
    }

    /// Takes the word of a constant.
    pub fn const_of_word(&mut self) -> Result<Const, ReadFault>
        ensures { Gives result self.new ((one_word const_words).parse self.old) }
    {
        let Some(word) = self.next_word() else {
            return Err(self.fault());
        };
        let Some(found) = const_word(word) else {
            return Err(self.fault());
        };
        self.pass()?;
        Ok(found)
    }

    /// The same, where no level is left.
    fn last_const(&mut self) -> Result<Const, ReadFault>
        ensures { Gives result self.new ((token last_const_of).parse self.old) }
    {
        if self.is_bracket() {
            return Err(self.limit(Which::Nesting));
        }
        self.const_of_word()
    }

    fn is_gep_flag(&self) -> bool
        ensures { result ≡ head_in gep_flag self.now.tokens }
    {
        self.is_word(b"inbounds") || self.is_word(b"nuw") || self.is_word(b"nusw")
    }

    fn gep_flag(&mut self) -> Result<(), ReadFault>
        ensures { Gives result self.new ((expect gep_flag).parse self.old) }
    {
        if !self.is_gep_flag() {
            return Err(self.fault());
        }
        self.pass()
    }

    /// The flags of a `getelementptr`.
    pub fn gep_flags(&mut self) -> Result<(), ReadFault>
        ensures { Gives result self.new (gep_flags.parse self.old) }
    {
        while self.is_gep_flag() {
            self.gep_flag()?;
        }
        Ok(())
    }

    pub fn is_gep(&self) -> bool
        ensures { result ≡ head_in gep_word self.now.tokens }
    {
        self.is_word(b"getelementptr")
    }

    /// GLOBAL
    #[tactic(auto, unfolding(ir_grammar::specs::Values::global))]
    pub fn global(&mut self) -> Result<SymId, ReadFault>
        ensures { Gives result self.new (global.parse self.old) }
    {
        let name = self.text(Kind::Global)?;
        self.see_symbol(name)
    }

    /// type INT
    fn index(&mut self, levels: u32) -> Result<TypedCount, ReadFault>
        ensures { Gives result self.new ((index (Some MOST_LENGTH) levels).parse self.old) }
    {
        let ty = self.ty(true, levels)?;
        let count = self.int()?;
        Ok(TypedCount { ty, count })
    }

    /// `,` type INT
    fn next_index(&mut self, levels: u32) -> Result<TypedCount, ReadFault>
        ensures { Gives result self.new ((after_comma (index (Some MOST_LENGTH) levels)).parse self.old) }
    {
        self.sign(b',')?;
        self.index(levels)
    }

    /// { `,` type INT }
    fn indices(&mut self, levels: u32) -> Result<Indices, ReadFault>
        ensures { Gives result self.new ((many (sign_set 44) (after_comma (index (Some MOST_LENGTH) levels)) []).parse self.old) }
    {
        let mut indices = Items::new(self.alloc);
        while self.is_sign(b',') {
            let next = self.next_index(levels)?;
            push(&mut indices, next)?;
        }
        Ok(indices)
    }

    /// `(` type `,` ptr GLOBAL { `,` type INT } `)`
    #[tactic(auto, unfolding(ir_grammar::specs::Values::gep_rest))]
    pub fn gep_rest(&mut self, levels: u32) -> Result<Const, ReadFault>
        ensures { Gives result self.new ((gep_rest (Some MOST_LENGTH) levels).parse self.old) }
    {
        self.sign(b'(')?;
        let ty = self.ty(true, levels)?;
        self.sign(b',')?;
        self.word(b"ptr")?;
        let base = self.global()?;
        let indices = self.indices(levels)?;
        self.sign(b')')?;
        Ok(Const::Gep(ty, base, indices))
    }

    /// A constant `getelementptr`.
    #[tactic(auto, unfolding(ir_grammar::specs::Values::gep))]
    pub fn gep_const(&mut self, levels: u32) -> Result<Const, ReadFault>
        ensures { Gives result self.new ((gep (Some MOST_LENGTH) levels).parse self.old) }
    {
        self.word(b"getelementptr")?;
        self.gep_flags()?;
        self.gep_rest(levels)
    }

    pub fn address(&mut self) -> Result<Const, ReadFault>
        ensures { Gives result self.new (address.parse self.old) }
    {
        let name = self.global()?;
        Ok(Const::Address(name))
    }

    pub fn integer(&mut self) -> Result<Const, ReadFault>
        ensures { Gives result self.new (integer.parse self.old) }
    {
        let n = self.int()?;
        Ok(Const::Int(n))
    }

    /// A constant as a value.
    #[tactic(auto, unfolding(ir_grammar::specs::Values::constant, ir_grammar::specs::Values::const_at))]
    fn constant(&mut self) -> Result<Const, ReadFault>
        ensures { Gives result self.new ((constant stated).parse self.old) }
    {
        if self.is_kind(Kind::Global) {
            return self.address();
        }
        if self.is_gep() {
            return self.gep_const(MOST_LEVELS);
        }
        if self.is_kind(Kind::Int) {
            return self.integer();
        }
        self.const_of_word()
    }

    /// LOCAL
    #[tactic(auto, unfolding(ir_grammar::specs::Values::local_value))]
    pub fn local_value(&mut self) -> Result<Operand, ReadFault>
        ensures { Gives result self.new (local_value.parse self.old) }
    {
        let name = self.text(Kind::Local)?;
        Ok(Operand::Local(self.see_local(name)?))
    }

    #[tactic(auto, unfolding(ir_grammar::specs::Values::value))]
    pub fn value(&mut self) -> Result<Operand, ReadFault>
        ensures { Gives result self.new ((value stated).parse self.old) }
    {
        if self.is_kind(Kind::Local) {
            return self.local_value();
        }
        let found = self.constant()?;
        Ok(Operand::Const(found))
    }

    pub fn is_value(&self) -> bool
        ensures { result ≡ head_in value_set self.now.tokens }
    {
        self.is_kind(Kind::Local)
            || self.is_kind(Kind::Global)
            || self.is_gep()
            || self.is_kind(Kind::Int)
            || self.is_const_word()
    }

    /// type value
    #[tactic(auto, unfolding(ir_grammar::specs::Values::typed))]
    pub fn typed(&mut self) -> Result<TypedOperand, ReadFault>
        ensures { Gives result self.new ((typed stated).parse self.old) }
    {
        let ty = self.type_form()?;
        let value = self.value()?;
        Ok(TypedOperand { ty, value })
    }

    fn zero(&mut self) -> Result<Const, ReadFault>
        ensures { Gives result self.new (zero_init.parse self.old) }
    {
        self.word(b"zeroinitializer")?;
        Ok(Const::Zero)
    }

    fn bytes(&mut self) -> Result<Const, ReadFault>
        ensures { Gives result self.new (bytes.parse self.old) }
    {
        let said = self.text(Kind::CStr)?;
        Ok(Const::Bytes(said))
    }

    /// type init
    #[cycle(inits)]
    fn typed_init(&mut self, levels: u32) -> Result<TypedConst, ReadFault>
        ensures { Gives result self.new ((typed_init (init_at (Some MOST_LENGTH) levels) (Some MOST_LENGTH) levels).parse self.old) }
    {
        let ty = self.ty(true, levels)?;
        let value = self.init_at(levels)?;
        Ok(TypedConst { ty, value })
    }

    /// `,` type init
    #[cycle(inits)]
    fn next_init(&mut self, levels: u32) -> Result<TypedConst, ReadFault>
        ensures { Gives result self.new ((after_comma (typed_init (init_at (Some MOST_LENGTH) levels) (Some MOST_LENGTH) levels)).parse self.old) }
    {
        self.sign(b',')?;
        self.typed_init(levels)
    }

    /// { `,` type init }
    #[cycle(inits)]
    fn more_inits(&mut self, inits: TypedConsts, levels: u32) -> Result<TypedConsts, ReadFault>
        ensures { Gives result self.new ((many (sign_set 44) (after_comma (typed_init (init_at (Some MOST_LENGTH) levels) (Some MOST_LENGTH) levels)) inits).parse self.old) }
    {
        let mut inits = inits;
        while self.is_sign(b',') {
            let next = self.next_init(levels)?;
            push(&mut inits, next)?;
        }
        Ok(inits)
    }

    /// [ type init { `,` type init } ]
    #[cycle(inits)]
    fn inits(&mut self, levels: u32) -> Result<TypedConsts, ReadFault>
        ensures { Gives result self.new ((listed (type_set true) (typed_init (init_at (Some MOST_LENGTH) levels) (Some MOST_LENGTH) levels)).parse self.old) }
    {
        let mut inits = Items::new(self.alloc);
        if !self.is_type() {
            return Ok(inits);
        }
        let first = self.typed_init(levels)?;
        push(&mut inits, first)?;
        self.more_inits(inits, levels)
    }

    #[cycle(inits)]
    fn array_init(&mut self, levels: u32) -> Result<Const, ReadFault>
        ensures { Gives result self.new ((array_init (typed_init (init_at (Some MOST_LENGTH) levels) (Some MOST_LENGTH) levels)).parse self.old) }
    {
        self.sign(b'[')?;
        let items = self.inits(levels)?;
        self.sign(b']')?;
        Ok(Const::Array(items))
    }

    #[cycle(inits)]
    fn struct_init(&mut self, levels: u32) -> Result<Const, ReadFault>
        ensures { Gives result self.new ((struct_init (typed_init (init_at (Some MOST_LENGTH) levels) (Some MOST_LENGTH) levels)).parse self.old) }
    {
        self.sign(b'{')?;
        let items = self.inits(levels)?;
        self.sign(b'}')?;
        Ok(Const::Struct(items))
    }

    /// An initialiser with at most so many levels.
    #[cycle(inits)]
    fn init_at(&mut self, levels: u32) -> Result<Const, ReadFault>
        ensures { Gives result self.new ((init_at (Some MOST_LENGTH) levels).parse self.old) }
    {
        if self.is_kind(Kind::Global) {
            return self.address();
        }
        if self.is_gep() {
            return self.gep_const(levels);
        }
        if self.is_kind(Kind::Int) {
            return self.integer();
        }
        if self.is_word(b"zeroinitializer") {
            return self.zero();
        }
        if self.is_kind(Kind::CStr) {
            return self.bytes();
        }
        if levels == 0 {
            return self.last_const();
        }
        if self.is_sign(b'[') {
            return self.array_init(levels - 1);
        }
        if self.is_sign(b'{') {
            return self.struct_init(levels - 1);
        }
        self.const_of_word()
    }

    #[tactic(auto, unfolding(ir_grammar::specs::Values::init))]
    pub fn init(&mut self) -> Result<Const, ReadFault>
        ensures { Gives result self.new ((init stated).parse self.old) }
    {
        self.init_at(MOST_LEVELS)
    }
}
