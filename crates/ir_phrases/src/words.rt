ghost use Rattle.std.specs.Prelude.{◌≡◌, ◌||◌, ◌++◌, map};
ghost use Rattle.std.specs.List.{list_any, list_all};
ghost use Rattle.std.specs.Char.{is_ascii_digit};
ghost use Rattle.std.specs.Str.{bytes_eq};
ghost use Rattle.ir_core.specs.declared.opcodes.TheConstants.{BIN_OPS, CAST_OPS};
ghost use Rattle.ir_core.specs.Opcodes.{bin_text, cast_text};
ghost use Rattle.ir_phrases.specs.CodeWords.{choice_words, line_words};
ghost use Rattle.ir_grammar.specs.Sets.{among, are_digits, is_integer_type, is_debug};
ghost use Rattle.ir_grammar.specs.Words.{left_out_types, left_out_operations, left_out_control, left_out_shared, left_out_passing, left_out_linkage, left_out_entities, left_out_words, type_words, is_left_out, never, value_words, code_words, barred_words, no_attributes};

use ir_core::{BinOp, CastOp};
use ir_grammar::Barred;
use ir_lexer::Token;

/// Is the word one of these?
fn is_one_of(word: &[u8], words: &[&[u8]]) -> bool
    ensures { result ≡ list_any (λ w. bytes_eq word.now w.now) words.now }
{
    words.iter().any(|w| word == *w)
}

fn is_left_out_types(word: &[u8]) -> bool
    ensures { result ≡ among left_out_types word.now }
{
    is_one_of(
        word,
        &[
            b"half".as_slice(),
            b"bfloat",
            b"float",
            b"double",
            b"fp128",
            b"x86_fp80",
            b"ppc_fp128",
            b"x86_amx",
            b"token",
            b"metadata",
            b"opaque",
            b"vscale",
            b"...",
        ],
    )
}

fn is_left_out_operations(word: &[u8]) -> bool
    ensures { result ≡ among left_out_operations word.now }
{
    is_one_of(
        word,
        &[
            b"fadd".as_slice(),
            b"fsub",
            b"fmul",
            b"fdiv",
            b"frem",
            b"fneg",
            b"fcmp",
            b"fptrunc",
            b"fpext",
            b"fptoui",
            b"fptosi",
            b"uitofp",
            b"sitofp",
            b"ptrtoint",
            b"inttoptr",
            b"bitcast",
            b"addrspacecast",
            b"freeze",
            b"va_arg",
            b"extractvalue",
            b"insertvalue",
            b"extractelement",
            b"insertelement",
            b"shufflevector",
        ],
    )
}

fn is_left_out_control(word: &[u8]) -> bool
    ensures { result ≡ among left_out_control word.now }
{
    is_one_of(
        word,
        &[
            b"invoke".as_slice(),
            b"callbr",
            b"indirectbr",
            b"resume",
            b"landingpad",
            b"catchswitch",
            b"catchpad",
            b"catchret",
            b"cleanuppad",
            b"cleanupret",
        ],
    )
}

fn is_left_out_shared(word: &[u8]) -> bool
    ensures { result ≡ among left_out_shared word.now }
{
    is_one_of(
        word,
        &[
            b"fence".as_slice(),
            b"cmpxchg",
            b"atomicrmw",
            b"atomic",
            b"volatile",
            b"musttail",
            b"asm",
            b"addrspace",
        ],
    )
}

fn is_left_out_passing(word: &[u8]) -> bool
    ensures { result ≡ among left_out_passing word.now }
{
    is_one_of(
        word,
        &[
            b"byval".as_slice(),
            b"inalloca",
            b"preallocated",
            b"nest",
            b"swifterror",
        ],
    )
}

fn is_left_out_linkage(word: &[u8]) -> bool
    ensures { result ≡ among left_out_linkage word.now }
{
    is_one_of(
        word,
        &[
            b"external".as_slice(),
            b"available_externally",
            b"linkonce",
            b"linkonce_odr",
            b"weak",
            b"weak_odr",
            b"common",
            b"appending",
            b"extern_weak",
            b"externally_initialized",
            b"thread_local",
        ],
    )
}

fn is_left_out_entities(word: &[u8]) -> bool
    ensures { result ≡ among left_out_entities word.now }
{
    is_one_of(
        word,
        &[
            b"alias".as_slice(),
            b"ifunc",
            b"comdat",
            b"section",
            b"personality",
            b"gc",
            b"prologue",
            b"prefix",
            b"partition",
            b"module",
            b"uselistorder",
            b"uselistorder_bb",
            b"blockaddress",
            b"inrange",
        ],
    )
}

/// Is the word left out by name?
fn is_left_out_word(word: &[u8]) -> bool
    ensures { result ≡ among left_out_words word.now }
{
    any_of(
        is_left_out_types(word),
        is_left_out_operations(word),
        any_of(
            is_left_out_control(word),
            is_left_out_shared(word),
            any_of(
                is_left_out_passing(word),
                is_left_out_linkage(word),
                is_left_out_entities(word),
            ),
        ),
    )
}

fn is_type_word(word: &[u8]) -> bool
    ensures { result ≡ among type_words word.now }
{
    is_one_of(
        word,
        &[b"void".as_slice(), b"i1", b"i8", b"i16", b"i32", b"ptr"],
    )
}

fn all_digits(name: &[u8]) -> bool
    ensures { result ≡ list_all is_ascii_digit name.now }
{
    name.iter().all(|b| b.is_ascii_digit())
}

/// Is this one digit or more?
pub fn are_digits(name: &[u8]) -> bool
    ensures { result ≡ are_digits name.now }
{
    !name.is_empty() && all_digits(name)
}

/// Is the word `i` with digits?
pub fn is_integer_type(word: &[u8]) -> bool
    ensures { result ≡ is_integer_type word.now }
{
    match word {
        [b'i', digits @ ..] => are_digits(digits),
        _ => false,
    }
}

/// Does the name begin with `DI`?
pub fn is_debug(name: &[u8]) -> bool
    ensures { result ≡ is_debug name.now }
{
    match name {
        [first, second, ..] => *first == b'D' && *second == b'I',
        _ => false,
    }
}

/// Is the token left out by name?
pub fn is_left_out(token: &Token) -> bool
    ensures { result ≡ is_left_out token.now }
{
    match token {
        Token::Word(word) => {
            is_left_out_word(word.as_slice())
                || (is_integer_type(word.as_slice()) && !is_type_word(word.as_slice()))
        }
        Token::Sign(sign) => matches!(*sign, b'<' | b'>' | b'*'),
        Token::Meta(name) => is_debug(name.as_slice()),
        Token::Hash(name) => !are_digits(name.as_slice()),
        _ => false,
    }
}

fn is_never(word: &[u8]) -> bool
    ensures { result ≡ among never word.now }
{
    is_one_of(
        word,
        &[
            b"void".as_slice(),
            b"ptr",
            b"define",
            b"declare",
            b"attributes",
            b"target",
            b"source_filename",
        ],
    )
}

fn begins_value(word: &[u8]) -> bool
    ensures { result ≡ among value_words word.now }
{
    is_one_of(
        word,
        &[
            b"true".as_slice(),
            b"false",
            b"null",
            b"undef",
            b"poison",
            b"getelementptr",
        ],
    )
}

/// Does the word name an operation?
fn is_operation(word: &[u8]) -> bool
    ensures { result ≡ among (map bin_text BIN_OPS) word.now }
{
    BinOp::from_text(word).is_some()
}

/// Does the word name a conversion?
fn is_conversion(word: &[u8]) -> bool
    ensures { result ≡ among (map cast_text CAST_OPS) word.now }
{
    CastOp::from_text(word).is_some()
}

fn begins_other_code(word: &[u8]) -> bool
    ensures { result ≡ among (choice_words ++ line_words) word.now }
{
    is_one_of(
        word,
        &[
            b"icmp".as_slice(),
            b"select",
            b"alloca",
            b"load",
            b"store",
            b"getelementptr",
            b"phi",
            b"tail",
            b"notail",
            b"call",
            b"ret",
            b"br",
            b"switch",
            b"unreachable",
        ],
    )
}

fn begins_code(word: &[u8]) -> bool
    ensures { result ≡ among code_words word.now }
{
    any_of(
        is_operation(word),
        is_conversion(word),
        begins_other_code(word),
    )
}

fn is_barred(barred: Barred, word: &[u8]) -> bool
    ensures { result ≡ among (barred_words barred) word.now }
{
    match barred {
        Barred::Nothing => false,
        Barred::Values => begins_value(word),
        Barred::Code => begins_code(word),
    }
}

/// One of three.
fn any_of(a: bool, b: bool, c: bool) -> bool
    ensures { result ≡ (a || (b || c)) }
{
    a || b || c
}

/// Is the word no attribute in a list?
pub fn is_no_attribute(barred: Barred, word: &[u8]) -> bool
    ensures { result ≡ among (no_attributes barred) word.now }
{
    any_of(
        is_barred(barred, word),
        is_never(word),
        is_left_out_word(word),
    )
}
