ghost use Rattle.std.specs.Prelude.{◌≡◌, ◌++◌, codes};
ghost use Rattle.ir_grammar.specs.Pieces.{lexical_place};
ghost use Rattle.optinline.specs.Answer.{limit_word, lexical_word, fault_word, fault_place};

use ir_lexer::LexFault;
use ir_reader::{ReadFault, Which};
use oi_base::Place;

/// The place of a fault of a module's text.
pub fn fault_place(fault: ReadFault) -> Place
    ensures { result ≡ fault_place fault }
{
    match fault {
        ReadFault::Lexical(e) => lexical_place(e),
        ReadFault::Syntax(place) | ReadFault::LeftOut(place) | ReadFault::Limit(place, _) => place,
        ReadFault::NoMemory => Place { line: 0, column: 0 },
    }
}

fn lexical_place(e: LexFault) -> Place
    ensures { result ≡ lexical_place e }
{
    match e {
        LexFault::BadByte(place, _) | LexFault::OpenString(place) | LexFault::LongNumber(place) => {
            place
        }
        LexFault::NoMemory => Place { line: 0, column: 0 },
    }
}

/// The words that say what is wrong with a module's text.
pub fn fault_word(fault: ReadFault) -> &'static str
    ensures { result.now ≡ fault_word fault }
{
    match fault {
        ReadFault::Lexical(e) => lexical_word(e),
        ReadFault::Syntax(_) => "syntax",
        ReadFault::LeftOut(_) => "left out",
        ReadFault::Limit(_, limit) => limit_word(limit),
        ReadFault::NoMemory => "memory",
    }
}

fn lexical_word(e: LexFault) -> &'static str
    ensures { result.now ≡ lexical_word e }
{
    match e {
        LexFault::BadByte(_, _) => "byte",
        LexFault::OpenString(_) => "string",
        LexFault::LongNumber(_) => "number",
        LexFault::NoMemory => "memory",
    }
}

fn limit_word(limit: Which) -> &'static str
    ensures { result.now ≡ codes "limit " ++ limit_word limit }
{
    match limit {
        Which::Functions => "limit functions",
        Which::Sites => "limit sites",
        Which::Params => "limit params",
        Which::Nesting => "limit nesting",
        Which::Length => "limit length",
    }
}
