ghost use Rattle.std.specs.Prelude.{◌≡◌, ◌||◌, true, false, Some, IfOk};
ghost use Rattle.ir_grammar.specs.declared.parts.Stand.TheVariants as stands;
ghost use Rattle.ir_grammar.specs.Sets.{head_in, is_integer_type, among};
ghost use Rattle.ir_grammar.specs.Words.{no_attributes};
ghost use Rattle.ir_phrases.specs.Gives.{Gives, IsVerdict};
ghost use Rattle.ir_grammar.specs.Tokens.{sign as sign_set, kind as kind_set, after_comma, stated};
ghost use Rattle.ir_grammar.specs.Attributes.{node, note_rest, note, notes, attribute_of, attribute_if, attribute_words, attribute_word, any_int, round_group, word_attribute, attribute_argument, attribute_value, attribute_set, attribute, no_marks, marked, one_mark, attribute_list, mark_or_note, mark_or_note_set, attributes_and_notes, any_attribute, more_set, more, address_value, gep_value, no_integer, last, argument_value, argument};

use crate::fault::ReadFault;
use crate::reader::Reader;
use crate::words::{is_integer_type, is_no_attribute};
use ir_core::{Const, MOST_LEVELS, Operand, TypedOperand};
use ir_grammar::{Attribute, Barred, Kind, Marks, Stand};
use oi_base::{Items, NoMemory};
use std::alloc::Global;

/// What a word says as an attribute.
fn attribute_of(word: &[u8]) -> Attribute
    ensures { result ≡ attribute_of word.now }
{
    if word == b"internal".as_slice() || word == b"private".as_slice() {
        Attribute::Internal
    } else if word == b"noinline".as_slice() {
        Attribute::NoInline
    } else {
        Attribute::Other
    }
}

/// Is the word no attribute in a list, or the name of an integer type?
fn is_barred_word(barred: Barred, word: &[u8]) -> bool
    ensures { result ≡ (is_integer_type word.now || among (no_attributes barred) word.now) }
{
    is_integer_type(word) || is_no_attribute(barred, word)
}

/// What a word says as an attribute, where it may be one.
fn attribute_if(barred: Barred, word: &[u8]) -> Option<Attribute>
    ensures { IsVerdict result (attribute_if (is_integer_type word.now || among (no_attributes barred) word.now) word.now) }
{
    if is_barred_word(barred, word) {
        return None;
    }
    Some(attribute_of(word))
}

pub fn no_marks(alloc: Global) -> Marks
    ensures { result ≡ no_marks }
{
    Marks {
        internal: false,
        noinline: false,
        groups: Items::new(alloc),
    }
}

/// The marks with those of one more attribute.
fn marked(marks: Marks, attribute: Attribute) -> Result<Marks, NoMemory>
    ensures { IfOk result (λ m. m ≡ marked marks attribute) }
{
    let mut marks = marks;
    match attribute {
        Attribute::Internal => marks.internal = true,
        Attribute::NoInline => marks.noinline = true,
        Attribute::Group(name) => marks.groups.push(name)?,
        Attribute::Other => {}
    }
    Ok(marks)
}

impl<'a> Reader<'a> {
    /// `!` GROUP
    #[tactic(auto, unfolding(ir_grammar::specs::Attributes::node))]
    pub fn node(&mut self) -> Result<(), ReadFault>
        ensures { Gives result self.new (node.parse self.old) }
    {
        self.sign(b'!')?;
        self.group(b'{', b'}')?;
        Ok(())
    }

    /// A note, after its first META.
    #[tactic(auto, unfolding(ir_grammar::specs::Attributes::note_rest))]
    pub fn note_rest(&mut self) -> Result<(), ReadFault>
        ensures { Gives result self.new (note_rest.parse self.old) }
    {
        if self.is_sign(b'!') {
            return self.node();
        }
        self.kind(Kind::Meta)
    }

    #[tactic(auto, unfolding(ir_grammar::specs::Attributes::note))]
    pub fn note(&mut self) -> Result<(), ReadFault>
        ensures { Gives result self.new (note.parse self.old) }
    {
        self.kind(Kind::Meta)?;
        self.note_rest()
    }

    /// `,` note
    pub fn next_note(&mut self) -> Result<(), ReadFault>
        ensures { Gives result self.new ((after_comma note).parse self.old) }
    {
        self.sign(b',')?;
        self.note()
    }

    /// { `,` note }
    pub fn notes(&mut self) -> Result<(), ReadFault>
        ensures { Gives result self.new (notes.parse self.old) }
    {
        while self.is_sign(b',') {
            self.next_note()?;
        }
        Ok(())
    }

    fn is_attribute_word(&self, barred: Barred) -> bool
        ensures { result ≡ head_in (attribute_words barred) self.now.tokens }
    {
        match self.next_word() {
            Some(word) => !is_barred_word(barred, word),
            None => false,
        }
    }

    /// Takes the word of an attribute.
    fn attribute_word(&mut self, barred: Barred) -> Result<Attribute, ReadFault>
        ensures { Gives result self.new ((attribute_word barred).parse self.old) }
    {
        let Some(word) = self.next_word() else {
            return Err(self.fault());
        };
        let Some(found) = attribute_if(barred, word) else {
            return Err(self.fault());
        };
        self.pass()?;
        Ok(found)
    }

    fn any_int(&mut self) -> Result<(), ReadFault>
        ensures { Gives result self.new (any_int.parse self.old) }
    {
        self.int()?;
        Ok(())
    }

    fn round_group(&mut self) -> Result<(), ReadFault>
        ensures { Gives result self.new (round_group.parse self.old) }
    {
        self.group(b'(', b')')?;
        Ok(())
    }

    /// [ INT | GROUP ]
    #[tactic(auto, unfolding(ir_grammar::specs::Attributes::attribute_argument))]
    fn attribute_argument(&mut self) -> Result<(), ReadFault>
        ensures { Gives result self.new (attribute_argument.parse self.old) }
    {
        if self.is_kind(Kind::Int) {
            return self.any_int();
        }
        if self.is_sign(b'(') {
            return self.round_group();
        }
        Ok(())
    }

    /// [ `=` STRING ]
    #[tactic(auto, unfolding(ir_grammar::specs::Attributes::attribute_value))]
    fn attribute_value(&mut self) -> Result<(), ReadFault>
        ensures { Gives result self.new (attribute_value.parse self.old) }
    {
        if !self.is_sign(b'=') {
            return Ok(());
        }
        self.sign(b'=')?;
        self.text(Kind::Str)?;
        Ok(())
    }

    pub fn is_attribute(&self, barred: Barred) -> bool
        ensures { result ≡ head_in (attribute_set barred) self.now.tokens }
    {
        self.is_attribute_word(barred) || self.is_kind(Kind::Str) || self.is_kind(Kind::Hash)
    }

    /// An attribute that is a word.
    fn word_attribute(&mut self, barred: Barred) -> Result<Attribute, ReadFault>
        ensures { Gives result self.new ((word_attribute barred).parse self.old) }
    {
        let found = self.attribute_word(barred)?;
        self.attribute_argument()?;
        Ok(found)
    }

    #[tactic(auto, unfolding(ir_grammar::specs::Attributes::attribute))]
    pub fn attribute(&mut self, barred: Barred) -> Result<Attribute, ReadFault>
        ensures { Gives result self.new ((attribute barred).parse self.old) }
    {
        if self.is_attribute_word(barred) {
            return self.word_attribute(barred);
        }
        if self.is_kind(Kind::Str) {
            self.text(Kind::Str)?;
            self.attribute_value()?;
            return Ok(Attribute::Other);
        }
        let name = self.text(Kind::Hash)?;
        Ok(Attribute::Group(name))
    }

    /// One more attribute.
    fn next_mark(&mut self, barred: Barred, marks: Marks) -> Result<Marks, ReadFault>
        ensures { Gives result self.new ((one_mark barred marks).parse self.old) }
    {
        let next = self.attribute(barred)?;
        Ok(marked(marks, next)?)
    }

    /// { attr }
    pub fn attribute_list(&mut self, barred: Barred) -> Result<Marks, ReadFault>
        ensures { Gives result self.new ((attribute_list barred no_marks).parse self.old) }
    {
        let mut marks = no_marks(self.alloc);
        while self.is_attribute(barred) {
            marks = self.next_mark(barred, marks)?;
        }
        Ok(marks)
    }

    fn is_mark_or_note(&self) -> bool
        ensures { result ≡ head_in mark_or_note_set self.now.tokens }
    {
        self.is_kind(Kind::Meta) || self.is_attribute(Barred::Nothing)
    }

    /// One more attribute, or a note.
    fn next_mark_or_note(&mut self, marks: Marks) -> Result<Marks, ReadFault>
        ensures { Gives result self.new ((mark_or_note marks).parse self.old) }
    {
        if self.is_kind(Kind::Meta) {
            self.note()?;
            return Ok(marks);
        }
        self.next_mark(Barred::Nothing, marks)
    }

    /// { attr | note }
    pub fn attributes_and_notes(&mut self, marks: Marks) -> Result<Marks, ReadFault>
        ensures { Gives result self.new ((attributes_and_notes marks).parse self.old) }
    {
        let mut marks = marks;
        while self.is_mark_or_note() {
            marks = self.next_mark_or_note(marks)?;
        }
        Ok(marks)
    }

    /// An attribute of an argument, after no word.
    fn any_attribute(&mut self) -> Result<Stand, ReadFault>
        ensures { Gives result self.new (any_attribute.parse self.old) }
    {
        if self.is_attribute_word(Barred::Values) {
            self.attribute_word(Barred::Values)?;
            return Ok(Stand::AfterWord);
        }
        if self.is_kind(Kind::Str) {
            self.text(Kind::Str)?;
            self.attribute_value()?;
            return Ok(Stand::Free);
        }
        self.text(Kind::Hash)?;
        Ok(Stand::Free)
    }

    /// What may stand after a word of an argument.
    fn after_word(&mut self) -> Result<Stand, ReadFault>
        ensures { Gives result self.new ((more stands.AfterWord).parse self.old) }
    {
        if self.is_kind(Kind::Int) {
            let n = self.int()?;
            return Ok(Stand::AfterInt(n));
        }
        if self.is_sign(b'(') {
            self.group(b'(', b')')?;
            return Ok(Stand::Free);
        }
        self.any_attribute()
    }

    fn goes_on_after_word(&self) -> bool
        ensures { result ≡ head_in (more_set stands.AfterWord) self.now.tokens }
    {
        self.is_kind(Kind::Int) || self.is_sign(b'(') || self.is_attribute(Barred::Values)
    }

    fn goes_on(&self, stand: Stand) -> bool
        ensures { result ≡ head_in (more_set stand) self.now.tokens }
    {
        match stand {
            Stand::AfterWord => self.goes_on_after_word(),
            Stand::Free | Stand::AfterInt(_) => self.is_attribute(Barred::Values),
        }
    }

    fn next_stand(&mut self, stand: Stand) -> Result<Stand, ReadFault>
        ensures { Gives result self.new ((more stand).parse self.old) }
    {
        match stand {
            Stand::AfterWord => self.after_word(),
            Stand::Free | Stand::AfterInt(_) => self.any_attribute(),
        }
    }

    /// An address as a value.
    fn address_value(&mut self) -> Result<Operand, ReadFault>
        ensures { Gives result self.new (address_value.parse self.old) }
    {
        let found = self.address()?;
        Ok(Operand::Const(found))
    }

    /// A `getelementptr` as a value.
    fn gep_value(&mut self) -> Result<Operand, ReadFault>
        ensures { Gives result self.new ((gep_value stated).parse self.old) }
    {
        let found = self.gep_const(MOST_LEVELS)?;
        Ok(Operand::Const(found))
    }

    fn no_integer(&mut self) -> Result<Operand, ReadFault>
        ensures { Gives result self.new ((no_integer stated).parse self.old) }
    {
        if self.is_kind(Kind::Local) {
            return self.local_value();
        }
        if self.is_kind(Kind::Global) {
            return self.address_value();
        }
        if self.is_gep() {
            return self.gep_value();
        }
        let found = self.const_of_word()?;
        Ok(Operand::Const(found))
    }

    fn value_or(&mut self, n: i128) -> Result<Operand, ReadFault>
        ensures { Gives result self.new ((last stated (stands.AfterInt n)).parse self.old) }
    {
        if self.is_value() {
            return self.value();
        }
        Ok(Operand::Const(Const::Int(n)))
    }

    fn last_value(&mut self, stand: Stand) -> Result<Operand, ReadFault>
        ensures { Gives result self.new ((last stated stand).parse self.old) }
    {
        match stand {
            Stand::Free => self.value(),
            Stand::AfterWord => self.no_integer(),
            Stand::AfterInt(n) => self.value_or(n),
        }
    }

    /// { attr } value
    fn argument_value(&mut self) -> Result<Operand, ReadFault>
        ensures { Gives result self.new ((argument_value stated).parse self.old) }
    {
        let mut stand = Stand::Free;
        while self.goes_on(stand) {
            stand = self.next_stand(stand)?;
        }
        self.last_value(stand)
    }

    /// type { attr } value
    #[tactic(auto, unfolding(ir_grammar::specs::Attributes::argument))]
    pub fn argument(&mut self) -> Result<TypedOperand, ReadFault>
        ensures { Gives result self.new ((argument stated).parse self.old) }
    {
        let ty = self.type_form()?;
        let value = self.argument_value()?;
        Ok(TypedOperand { ty, value })
    }
}
