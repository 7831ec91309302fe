//! A table of texts with their tokens, worked out by hand from the rules.

use std::alloc::Global;
use std::test::Fail;
use tptp_lexer::{Cursor, Lexer, next_token};

// The tokens of a text with their texts, offsets and places, and what comes behind them.
fn shown(alloc: Global, text: &[u8]) -> Result<String, Fail> {
    let mut out = String::new(alloc);
    if text.len() > 1000 {
        return Ok(out);
    }
    let mut lexer = Lexer::new(text);
    for _ in 0..=text.len() {
        let token = match lexer.next() {
            Err(fault) => {
                out.push_str(format!(in alloc;
                    "{:?} {}:{}",
                    fault.kind, fault.line, fault.column
                )?.as_str())?;
                return Ok(out);
            }
            Ok(found) => match found {
                None => {
                    out.push_str("end")?;
                    return Ok(out);
                }
                Some(token) => token,
            },
        };
        let kind = token.kind;
        let bytes = lexer.text(&token);
        let spelled = std::str::from_utf8(bytes).ok().unwrap_or("?");
        let plain = if token.plain { " plain" } else { "" };
        let line = format!(in alloc;
            "{kind:?} {spelled} {}-{} {}:{}{plain}; ",
            token.start, token.end, token.line, token.column
        )?;
        out.push_str(line.as_str())?;
    }
    Ok(out)
}

// No token, and words.
const WORDS: &[(&[u8], &str)] = &[
    (b"", "end"),
    (b" \t\n\x0b\x0c\r a", "Lower a 7-8 2:5; end"),
    (b"a", "Lower a 0-1 1:1; end"),
    (b"aZ_09-", "Lower aZ_09 0-5 1:1; Punct(45) - 5-6 1:6; end"),
    (b"X", "Upper X 0-1 1:1; end"),
    (b"Xy_1", "Upper Xy_1 0-4 1:1; end"),
    (b"AZaz09", "Upper AZaz09 0-6 1:1; end"),
    (b"zA@", "Lower zA 0-2 1:1; Punct(64) @ 2-3 1:3; end"),
    (
        b"[`{",
        "Punct(91) [ 0-1 1:1; Punct(96) ` 1-2 1:2; Punct(123) { 2-3 1:3; end",
    ),
    (b"_a", "Punct(95) _ 0-1 1:1; Lower a 1-2 1:2; end"),
    (b"$a", "Dollar $a 0-2 1:1; end"),
    (b"$$xY9_", "Dollar $$xY9_ 0-6 1:1; end"),
    (b"$X", "Punct(36) $ 0-1 1:1; Upper X 1-2 1:2; end"),
    (
        b"$$X",
        "Punct(36) $ 0-1 1:1; Punct(36) $ 1-2 1:2; Upper X 2-3 1:3; end",
    ),
    (b"$$$a", "Punct(36) $ 0-1 1:1; Dollar $$a 1-4 1:2; end"),
    (b"!", "Punct(33) ! 0-1 1:1; end"),
    (b"!=", "NotEqual != 0-2 1:1; end"),
    (b"!==", "NotEqual != 0-2 1:1; Punct(61) = 2-3 1:3; end"),
    (
        b"~p(",
        "Punct(126) ~ 0-1 1:1; Lower p 1-2 1:2; Punct(40) ( 2-3 1:3; end",
    ),
];

const NUMBERS: &[(&[u8], &str)] = &[
    (b"0", "Number 0 0-1 1:1 plain; end"),
    (b"00", "Number 00 0-2 1:1; end"),
    (b"120", "Number 120 0-3 1:1 plain; end"),
    (b"012", "Number 012 0-3 1:1; end"),
    (
        b"9:/0",
        "Number 9 0-1 1:1 plain; Punct(58) : 1-2 1:2; Punct(47) / 2-3 1:3; Number 0 3-4 1:4 plain; end",
    ),
    (b"-3", "Number -3 0-2 1:1; end"),
    (b"1/2", "Number 1/2 0-3 1:1; end"),
    (b"+1/23e4", "Number +1/23 0-5 1:1; Lower e4 5-7 1:6; end"),
    (
        b"1/2.5",
        "Number 1/2 0-3 1:1; Punct(46) . 3-4 1:4; Number 5 4-5 1:5 plain; end",
    ),
    (
        b"3/-4",
        "Number 3 0-1 1:1 plain; Punct(47) / 1-2 1:2; Number -4 2-4 1:3; end",
    ),
    (b"+4.5e-6", "Number +4.5e-6 0-7 1:1; end"),
    (b"12.50E+03", "Number 12.50E+03 0-9 1:1; end"),
    (b"1e5e6", "Number 1e5 0-3 1:1; Lower e6 3-5 1:4; end"),
    (b"1.", "Number 1 0-1 1:1 plain; Punct(46) . 1-2 1:2; end"),
    (
        b"1.e2",
        "Number 1 0-1 1:1 plain; Punct(46) . 1-2 1:2; Lower e2 2-4 1:3; end",
    ),
    (b"1e", "Number 1 0-1 1:1 plain; Lower e 1-2 1:2; end"),
    (
        b"1e+",
        "Number 1 0-1 1:1 plain; Lower e 1-2 1:2; Punct(43) + 2-3 1:3; end",
    ),
    (b"e1", "Lower e1 0-2 1:1; end"),
    (b"-", "Punct(45) - 0-1 1:1; end"),
    (b"--1", "Punct(45) - 0-1 1:1; Number -1 1-3 1:2; end"),
    (b"1-2", "Number 1 0-1 1:1 plain; Number -2 1-3 1:2; end"),
];

const QUOTES: &[(&[u8], &str)] = &[
    (b"''", "Quoted '' 0-2 1:1; end"),
    (b"\"\"", "Distinct \"\" 0-2 1:1; end"),
    (br"'a\'b\\'", r"Quoted 'a\'b\\' 0-8 1:1; end"),
    (b"\"a\\\"b\\\\\"", "Distinct \"a\\\"b\\\\\" 0-8 1:1; end"),
    (b"'\" ~'", "Quoted '\" ~' 0-5 1:1; end"),
    (b"\"'\"'", "Distinct \"'\" 0-3 1:1; OpenQuote 1:4"),
    (br"'\\'x", r"Quoted '\\' 0-4 1:1; Lower x 4-5 1:5; end"),
    (br"'\\\'", "OpenQuote 1:1"),
    (br"'a\", "OpenQuote 1:1"),
    (b"'\\\n'", "OpenQuote 1:1"),
    (b"'\\x\n'", "OpenQuote 1:1"),
    (b"a\r\n\t'b", "Lower a 0-1 1:1; OpenQuote 2:2"),
    (b"'a\x01\r'", "OpenQuote 1:1"),
    (b"\n\n 'a\tb'", "BadByte 3:4"),
    (b"\"\x80\"", "BadByte 1:2"),
    (b"'\x1f'", "BadByte 1:2"),
    (br"'\x'", "BadEscape 1:2"),
    (b"\"\\'\"", "BadEscape 1:2"),
    (b"'\\\"'", "BadEscape 1:2"),
    (b"'\x7f\\x'", "BadByte 1:2"),
    (b"\r\t'ab\\q\x01'", "BadEscape 1:6"),
];

const COMMENTS: &[(&[u8], &str)] = &[
    (b"%", "end"),
    (b"a%'\xff/*\nc", "Lower a 0-1 1:1; Lower c 7-8 2:1; end"),
    (b"/**/", "end"),
    (b"a/*%*/b", "Lower a 0-1 1:1; Lower b 6-7 1:7; end"),
    (b"/*\n\n\t*/x", "Lower x 7-8 3:4; end"),
    (b"/**/*/", "Punct(42) * 4-5 1:5; Punct(47) / 5-6 1:6; end"),
    (b"/* * / **/a", "Lower a 10-11 1:11; end"),
    (
        b"a/b",
        "Lower a 0-1 1:1; Punct(47) / 1-2 1:2; Lower b 2-3 1:3; end",
    ),
    (b"/*/", "OpenComment 1:1"),
    (b"x\t\r\n  /*\n*", "Lower x 0-1 1:1; OpenComment 2:3"),
    (b"\t\x01", "BadByte 1:2"),
    (b"a\n\n\x7f", "Lower a 0-1 1:1; BadByte 3:1"),
    (b"p\x80", "Lower p 0-1 1:1; BadByte 1:2"),
    (b"\0", "BadByte 1:1"),
    (b"\t\x08", "BadByte 1:2"),
    (b"\r\x0e", "BadByte 1:2"),
];

#[test]
fn tokens_of_texts(rt: HostRuntime) -> Result<(), Fail> {
    let tables = [WORDS, NUMBERS, QUOTES, COMMENTS];
    for (text, wanted) in tables.into_iter().flatten() {
        let found = shown(rt.alloc(), text)?;
        assert_eq!(rt; found.as_str(), *wanted);
    }
    Ok(())
}

// The end and a fault are answered again, by a lexer and by a cursor.
#[test]
fn last_answers_stay(rt: HostRuntime) -> Result<(), Fail> {
    let mut lexer = Lexer::new(b"a");
    assert!(rt; lexer.next().is_ok_and(|found| found.is_some()));
    assert_eq!(rt; lexer.next(), Ok(None));
    assert_eq!(rt; lexer.next(), Ok(None));
    let text = b" 'x";
    let mut cursor = Cursor::start();
    let first = next_token(text, &mut cursor);
    assert!(rt; first.is_err());
    let mut lexer = Lexer::new(text);
    assert_eq!(rt; lexer.next(), first);
    assert_eq!(rt; lexer.next(), first);
    assert_eq!(rt; next_token(text, &mut cursor), first);
    Ok(())
}
