use ir_lexer::{LexFault, Lexer, Token, tokens};
use oi_base::Place;
use std::alloc::{AllocError, Global};
use std::fmt::Write;
use std::test::Fail;

/// The bytes, those that are no printable ASCII and the backslash as `\` and two hexadecimal digits.
fn spell(line: &mut String, kind: &str, bytes: &[u8]) -> Result<(), AllocError> {
    line.push_str(kind)?;
    line.push(' ')?;
    for b in bytes {
        if matches!(*b, b' '..=b'[' | b']'..=b'~') {
            line.push(char::from(*b))?;
        } else {
            write!(line, "\\{b:02x}")?;
        }
    }
    Ok(())
}

fn spell_token(line: &mut String, token: &Token) -> Result<(), AllocError> {
    match token {
        Token::Int(n) => write!(line, "int {n}"),
        Token::Word(name) => spell(line, "word", name.as_slice()),
        Token::Label(name) => spell(line, "label", name.as_slice()),
        Token::Local(name) => spell(line, "local", name.as_slice()),
        Token::Global(name) => spell(line, "global", name.as_slice()),
        Token::Str(said) => spell(line, "string", said.as_slice()),
        Token::CStr(said) => spell(line, "cstring", said.as_slice()),
        Token::Meta(name) => spell(line, "meta", name.as_slice()),
        Token::Hash(name) => spell(line, "hash", name.as_slice()),
        Token::Sign(b) => spell(line, "sign", &[*b]),
        Token::End => line.push_str("end"),
    }
}

fn spell_fault(line: &mut String, fault: LexFault) -> Result<(), AllocError> {
    let place = match fault {
        LexFault::BadByte(place, b) => {
            write!(line, "bad byte {b} at")?;
            place
        }
        LexFault::OpenString(place) => {
            line.push_str("open string at")?;
            place
        }
        LexFault::LongNumber(place) => {
            line.push_str("long number at")?;
            place
        }
        LexFault::NoMemory => return line.push_str("no memory"),
    };
    spell_place(line, place)
}

fn spell_place(line: &mut String, place: Place) -> Result<(), AllocError> {
    let Place { line: row, column } = place;
    write!(line, " {row}:{column}")
}

/// More bytes than any text here has.
const MOST_BYTES: usize = 2_000_000;

/// What the calls of a lexer give, up to the end or a fault, and what one more call gives.
fn by_calls(alloc: Global, text: &[u8]) -> Result<(String, String), AllocError> {
    let mut line = String::new(alloc);
    let mut last = String::new(alloc);
    if text.len() >= MOST_BYTES {
        return Ok((line, last));
    }
    let mut lexer = Lexer::new(text);
    let mut ended = false;
    for _ in 0..100u32 {
        let mut item = String::new(alloc);
        let stops = match lexer.next(alloc) {
            Ok((token, place)) => {
                spell_token(&mut item, &token)?;
                spell_place(&mut item, place)?;
                matches!(token, Token::End)
            }
            Err(fault) => {
                spell_fault(&mut item, fault)?;
                true
            }
        };
        if ended {
            return Ok((line, item));
        }
        ended = stops;
        if line.len() > 0 {
            line.push_str(", ")?;
        }
        line.push_str(item.as_str())?;
        last = item;
    }
    Ok((line, last))
}

/// The list of tokens, or the fault alone.
fn by_list(alloc: Global, text: &[u8]) -> Result<(bool, String), AllocError> {
    let mut line = String::new(alloc);
    if text.len() >= MOST_BYTES {
        return Ok((false, line));
    }
    match tokens(alloc, text) {
        Ok(spots) => {
            for spot in spots.as_slice() {
                if line.len() > 0 {
                    line.push_str(", ")?;
                }
                spell_token(&mut line, &spot.token)?;
                spell_place(&mut line, spot.place)?;
            }
            Ok((true, line))
        }
        Err(fault) => {
            spell_fault(&mut line, fault)?;
            Ok((false, line))
        }
    }
}

const CASES: [(&[u8], &str); 67] = [
    (b"", "end 1:1"),
    (b" \t\r\n", "end 2:1"),
    (b"; no end", "end 1:9"),
    (b"; a\n; b\r\nx", "word x 3:1, end 3:2"),
    (b"a;b\nc", "word a 1:1, word c 2:1, end 2:2"),
    (
        b"define i32 @main()\n  ret",
        "word define 1:1, word i32 1:8, global main 1:12, sign ( 1:17, sign ) 1:18, word ret 2:3, end 2:6",
    ),
    (b"a.b$c_-9", "word a.b$c_-9 1:1, end 1:9"),
    (
        b"0 -7 12a - --1 1- 1-2 .5 00",
        "int 0 1:1, int -7 1:3, word 12a 1:6, word - 1:10, word --1 1:12, word 1- 1:16, word 1-2 1:19, word .5 1:23, int 0 1:26, end 1:28",
    ),
    (
        b"123456789012345678901234567890 -123456789012345678901234567890",
        "int 123456789012345678901234567890 1:1, int -123456789012345678901234567890 1:32, end 1:63",
    ),
    (
        b"x 1234567890123456789012345678901",
        "word x 1:1, long number at 1:3",
    ),
    (b"-1234567890123456789012345678901", "long number at 1:1"),
    (
        b"1234567890123456789012345678901:",
        "label 1234567890123456789012345678901 1:1, end 1:33",
    ),
    (
        b"170141183460469231731687303715",
        "int 170141183460469231731687303715 1:1, end 1:31",
    ),
    (b"entry:x", "label entry 1:1, word x 1:7, end 1:8"),
    (b"entry :", "word entry 1:1, sign : 1:7, end 1:8"),
    (
        b"7: -: \"a b\":",
        "label 7 1:1, label - 1:4, label a b 1:7, end 1:13",
    ),
    (b"a::", "label a 1:1, sign : 1:3, end 1:4"),
    (
        b"%x %\"x y\" @f.1 @\"\\41\" %-",
        "local x 1:1, local x y 1:4, global f.1 1:11, global A 1:16, local - 1:23, end 1:25",
    ),
    (b"%", "bad byte 37 at 1:1"),
    (b"@ x", "bad byte 64 at 1:1"),
    (b"%%", "bad byte 37 at 1:1"),
    (b"%;", "bad byte 37 at 1:1"),
    (b"@:", "bad byte 64 at 1:1"),
    (b"\"\"", "string  1:1, end 1:3"),
    (b"\"a\nb\" x", "string a\\0ab 1:1, word x 2:4, end 2:5"),
    (b"\"\":", "bad byte 34 at 1:1"),
    (b"%\"\"", "bad byte 37 at 1:1"),
    (b" @\"\"", "bad byte 64 at 1:2"),
    (b"\"a\\00\":", "bad byte 34 at 1:1"),
    (b"%\"a\\00b\"", "bad byte 37 at 1:1"),
    (b"\"a\\00\"", "string a\\00 1:1, end 1:7"),
    (b"\"\x00\":", "bad byte 34 at 1:1"),
    (b"c\"a\\00\"", "cstring a\\00 1:1, end 1:8"),
    (b"c\"a\":", "cstring a 1:1, sign : 1:5, end 1:6"),
    (b"c \"a\"", "word c 1:1, string a 1:3, end 1:6"),
    (b"cc\"a\"", "word cc 1:1, string a 1:3, end 1:6"),
    (b"c:\"a\"", "label c 1:1, string a 1:3, end 1:6"),
    (b"c\"\"", "cstring  1:1, end 1:4"),
    (b"c", "word c 1:1, end 1:2"),
    (
        b"\"\\\\\" \"\\5C\\5c\" \"\\4\" \"\\g1\" \"\\\\41\" \"\\4\\\\\" \"\\e9\xff\"",
        "string \\5c 1:1, string \\5c\\5c 1:6, string \\5c4 1:15, string \\5cg1 1:20, string \\5c41 1:26, string \\5c4\\5c 1:33, string \\e9\\ff 1:40, end 1:46",
    ),
    (b"\"\\\"", "string \\5c 1:1, end 1:4"),
    (b"\"a\\\"b", "string a\\5c 1:1, word b 1:5, end 1:6"),
    (b"x \"abc", "word x 1:1, open string at 1:3"),
    (b"\"", "open string at 1:1"),
    (b"c\"", "open string at 1:2"),
    (b"%\"a", "open string at 1:2"),
    (b" @\"a\nb", "open string at 1:3"),
    (b"c\"a\n", "open string at 1:2"),
    (
        b"!dbg !\"a\" !{!0}",
        "meta dbg 1:1, sign ! 1:6, string a 1:7, sign ! 1:11, sign { 1:12, meta 0 1:13, sign } 1:15, end 1:16",
    ),
    (
        b"#0 #dbg_value(",
        "hash 0 1:1, hash dbg_value 1:4, sign ( 1:14, end 1:15",
    ),
    (b"#", "bad byte 35 at 1:1"),
    (b"# 0", "bad byte 35 at 1:1"),
    (b"a#\"", "word a 1:1, bad byte 35 at 1:2"),
    (
        b"=,()[]{}!*<>:|",
        "sign = 1:1, sign , 1:2, sign ( 1:3, sign ) 1:4, sign [ 1:5, sign ] 1:6, sign { 1:7, sign } 1:8, sign ! 1:9, sign * 1:10, sign < 1:11, sign > 1:12, sign : 1:13, sign | 1:14, end 1:15",
    ),
    (b"a\x0bb", "word a 1:1, bad byte 11 at 1:2"),
    (b"\x0c", "bad byte 12 at 1:1"),
    (b"\x7f", "bad byte 127 at 1:1"),
    (b"\xc3\xa9", "bad byte 195 at 1:1"),
    (b"a\xff", "word a 1:1, bad byte 255 at 1:2"),
    (b"+1", "bad byte 43 at 1:1"),
    (b"1+", "int 1 1:1, bad byte 43 at 1:2"),
    (b"a/b", "word a 1:1, bad byte 47 at 1:2"),
    (b"'", "bad byte 39 at 1:1"),
    (b"a\n \n\t&", "word a 1:1, bad byte 38 at 3:2"),
    (b"\\", "bad byte 92 at 1:1"),
    (b"\x00", "bad byte 0 at 1:1"),
    (b"~", "bad byte 126 at 1:1"),
];

#[test]
fn tokens_and_places(rt: HostRuntime) -> Result<(), Fail> {
    let alloc = rt.alloc();
    for (text, want) in CASES {
        let (line, again) = by_calls(alloc, text)?;
        assert_eq!(rt; line.as_str(), want);
        assert!(rt; line.as_str().ends_with(again.as_str()));
        let (whole, list) = by_list(alloc, text)?;
        if whole {
            assert_eq!(rt; list.as_str(), want);
        } else {
            assert!(rt; line.as_str().ends_with(list.as_str()));
        }
    }
    Ok(())
}

/// Every kind of long text is read in time that grows with its bytes.
#[test]
fn a_mebibyte_of_each(rt: HostRuntime) -> Result<(), Fail> {
    let alloc = rt.alloc();
    for (front, piece, back, count) in LONG {
        let mut text = Vec::from_slice(alloc, front.as_bytes())?;
        for _ in 0..65_536u32 {
            text.extend_from_slice(piece.as_bytes())?;
        }
        text.extend_from_slice(back.as_bytes())?;
        assert!(rt; text.len() < MOST_BYTES);
        let given = match tokens(alloc, text.as_slice()) {
            Ok(spots) => spots.len(),
            Err(_) => 0,
        };
        assert_eq!(rt; given, count, "of {front}{piece}{back}");
    }
    Ok(())
}

/// The first bytes of a text, 16 bytes that come 65,536 times after them, the last bytes, and how many tokens it has;
/// 0 where it has a fault.
const LONG: [(&str, &str, &str, usize); 12] = [
    ("", "                ", "", 1),
    ("", "\n\n\n\n\n\n\n\n\n\n\n\n\n\n\n\n", "", 1),
    ("", ";;;;;;;;;;;;;;;;", "", 1),
    ("", ";comment\n;more \n", "", 1),
    ("\"", "a string of text", "\"", 2),
    ("\"", "a string of text", "", 0),
    ("c\"", "\\41\\\\\\4g\\5C\\5\\ab", "\"", 2),
    ("%\"", "\\41\\42\\43\\44abcd", "\"", 2),
    ("", "abcdefgh01234567", "", 2),
    ("", "0123456789012345", "", 0),
    ("", "0123456789012345", ":", 2),
    ("", "()(((){}{{{!!,,,", "", 1_048_577),
];
