//! Texts and their tokens. A report shows of tokens only the line of the first fault, so kinds, values and places are
//! compared here.

ghost use Rattle.std.specs.Prelude.{◌≤◌, length, All};
ghost use Rattle.bb_lex.specs.Cut.{IsTokenOf};

use bb_lex::laws::tokens_are_in_text;
use bb_lex::{Kind, LexFault, Token, name_bytes, plain_value, sized_bits, tokens};
use std::alloc::{AllocError, Global};
use std::process::Abort;
use std::test::Fail;

fn print_bytes(out: &mut String, bytes: &[u8]) -> Result<(), AllocError> {
    for b in bytes {
        out.push(char::from(*b))?;
    }
    Ok(())
}

fn print_bits(out: &mut String, bits: &[bool]) -> Result<(), AllocError> {
    for bit in bits {
        out.push_str(if *bit { "1" } else { "0" })?;
    }
    Ok(())
}

/// A name as its bytes, a number as its bits or value, and the place of either.
fn print(alloc: Global, out: &mut String, token: &Token, text: &[u8]) -> Result<(), AllocError>
    requires { IsTokenOf token.now text.now }
{
    match token.kind {
        Kind::Name => {
            out.push_str("name ")?;
            print_bytes(out, name_bytes(token, text))?;
        }
        Kind::Word(keyword) => write!(out, "{keyword:?}")?,
        Kind::Sized => print_bits(out, &sized_bits(alloc, token, text)?)?,
        Kind::Plain => write!(out, "{}", plain_value(token, text))?,
        Kind::Mark(mark) => write!(out, "{mark:?}")?,
    }
    let start = token.start;
    let end = token.end;
    let line = token.line;
    write!(out, " {start}-{end} line {line}; ")
}

fn print_all(alloc: Global, out: &mut String, list: &[Token], text: &[u8]) -> Result<(), AllocError>
    requires { All (λ token. IsTokenOf token text.now) list.now }
{
    for token in list {
        print(alloc, out, token, text)?;
    }
    Ok(())
}

fn printed(alloc: Global, text: &[u8]) -> Result<String, AllocError>
    requires { length text.now ≤ 33554432 }
{
    let mut out = String::new(alloc);
    tokens_are_in_text();
    match tokens(alloc, text) {
        Ok(list) => print_all(alloc, &mut out, &list, text)?,
        Err(LexFault::Bad { line }) => write!(out, "bad line {line}")?,
        Err(LexFault::NoMemory) => out.push_str("no memory")?,
    }
    Ok(out)
}

const NAMES_AND_WORDS_ARE_READ: &[(&[u8], &str)] = &[
    (b"", ""),
    (
        b"module m;",
        "Module 0-6 line 1; name m 7-8 line 1; Semicolon 8-9 line 1; ",
    ),
    (
        b"Module modul endmodule2 table",
        "name Module 0-6 line 1; name modul 7-12 line 1; name endmodule2 13-23 line 1; Other 24-29 line 1; ",
    ),
    (b"_a$1 xnor", "name _a$1 0-4 line 1; Xnor 5-9 line 1; "),
    // An escaped identifier ends at white space alone, and is a name whatever its bytes are.
    (b"\\w;x y", "name w;x 0-4 line 1; name y 5-6 line 1; "),
    (b"\\wire", "name wire 0-5 line 1; "),
    (b"\\a~\t\\b", "name a~ 0-3 line 1; name b 4-6 line 1; "),
    // A carriage return is white space, and begins no line.
    (b"a\r\n\r\n b", "name a 0-1 line 1; name b 6-7 line 3; "),
    (b"a\rb", "name a 0-1 line 1; name b 2-3 line 1; "),
    (b"a\x0cb", "name a 0-1 line 1; name b 2-3 line 1; "),
    (b"a\x0bb", "bad line 1"),
    (b"a\n\0", "bad line 2"),
    (b"a\n\x7f", "bad line 2"),
    (b"a\\", "bad line 1"),
    (b"\n\\ a", "bad line 2"),
    (b"\\a\x7f b", "bad line 1"),
    (b"\\a\x80 b", "bad line 1"),
    (b"a\n\n\xe9", "bad line 3"),
    (
        b"module s(y); output y;\nassign y = 4'b10x0; endmodule\n",
        "bad line 2",
    ),
    (b"output y;\nassign y = a * b; endmodule\n", "bad line 2"),
];

const SKIPS_ARE_PASSED_OVER: &[(&[u8], &str)] = &[
    (b"a // b \xff\nc", "name a 0-1 line 1; name c 9-10 line 2; "),
    (b"a//", "name a 0-1 line 1; "),
    (b"// a\rb\nc", "name c 7-8 line 2; "),
    (b"/*\0*/a", "name a 5-6 line 1; "),
    (b"/* \n*/*/ b", "bad line 2"),
    (b"/* /* \xff */b", "name b 10-11 line 1; "),
    (b"\n\n/*/ b", "bad line 3"),
    (b"(* keep *) a", "name a 11-12 line 1; "),
    (b"(**)a", "name a 4-5 line 1; "),
    // Neither a string nor a comment within an attribute closes it.
    (b"(* s = \"*)\" *)a", "name a 14-15 line 1; "),
    (b"(* s = \"\\\"*)\" *)a", "name a 16-17 line 1; "),
    (b"(* // *)\n /* *) */ **)a", "name a 22-23 line 2; "),
    // What does not end is bad where the comment or the attribute begins.
    (b"\n(* \n\" *)", "bad line 2"),
    (b"\n(* \n/* *)", "bad line 2"),
    (b"(* // *)", "bad line 1"),
    (b"a\n(* b", "bad line 2"),
    (b"(*)", "bad line 1"),
    (b"( * a", "bad line 1"),
    (b"`timescale 1ns / 1ps\na", "name a 21-22 line 2; "),
    (
        b"`celldefine\n`endcelldefine (* \na",
        "name a 31-32 line 3; ",
    ),
    // A comment that opens in the line of a directive is passed over with that line, and is not open after it.
    (b"`celldefine /* \na", "name a 16-17 line 2; "),
    (b"`celldefine wire a;\nb", "name b 20-21 line 2; "),
    (b"`timescales\n", "bad line 1"),
    (b"` timescale\n", "bad line 1"),
    (b"`define a\n", "bad line 1"),
];

const NUMBERS_HAVE_THEIR_MEANING: &[(&[u8], &str)] = &[
    (b"1'b0", "0 0-4 line 1; "),
    (b"12 'hF", "000000001111 0-6 line 1; "),
    (b"8 'd 255", "11111111 0-8 line 1; "),
    (b"4'b10_01", "1001 0-8 line 1; "),
    (b"0_4\n'O\n1_7 a", "1111 0-10 line 1; name a 11-12 line 3; "),
    (b"2'B1", "01 0-4 line 1; "),
    (b"5'hfA", "11010 0-5 line 1; "),
    (
        b"32'd4294967296",
        "00000000000000000000000000000000 0-14 line 1; ",
    ),
    (
        b"3'd340282366920938463463374607431768211455",
        "111 0-42 line 1; ",
    ),
    (
        b"4'h100000000000000000000000000000000000000007",
        "0111 0-45 line 1; ",
    ),
    (
        b"128'b1;",
        "00000000000000000000000000000000000000000000000000000000000000000000000000000000000000000000000000000000000000\
            000000000000000001 0-6 line 1; Semicolon 6-7 line 1; ",
    ),
    (b"1_000_", "1000 0-6 line 1; "),
    (b"2147483647", "2147483647 0-10 line 1; "),
    (b"7a", "7 0-1 line 1; name a 1-2 line 1; "),
    (b"7 a", "7 0-1 line 1; name a 2-3 line 1; "),
];

const WHAT_IS_NO_NUMBER_IS_BAD: &[(&[u8], &str)] = &[
    (b"3'd340282366920938463463374607431768211456", "bad line 1"),
    (b"\n4'bx", "bad line 2"),
    (b"\n4\n'b1x", "bad line 2"),
    (b"4'b12", "bad line 1"),
    (b"4'b_1", "bad line 1"),
    (b"4'b1$", "bad line 1"),
    (b"4'b", "bad line 1"),
    (b"4'1", "bad line 1"),
    (b"4' b1", "bad line 1"),
    (b"'b1", "bad line 1"),
    (b"0'b1", "bad line 1"),
    (b"129'b1", "bad line 1"),
    (b"2147483648", "bad line 1"),
    (b"7 \n'", "bad line 1"),
    (b"7$", "bad line 1"),
    (b"4''b1", "bad line 1"),
    (b"4'b1'b1", "bad line 1"),
    (b"7 /**/ 'b1", "bad line 1"),
];

const THE_LONGEST_MARK_IS_READ: &[(&[u8], &str)] = &[
    (
        b"a<=b",
        "name a 0-1 line 1; LessEqual 1-3 line 1; name b 3-4 line 1; ",
    ),
    (
        b"~^~^^~",
        "TildeCaret 0-2 line 1; TildeCaret 2-4 line 1; CaretTilde 4-6 line 1; ",
    ),
    (
        b"^^~~==",
        "Caret 0-1 line 1; CaretTilde 1-3 line 1; Tilde 3-4 line 1; EqualEqual 4-6 line 1; ",
    ),
    (
        b"+-<>!",
        "Plus 0-1 line 1; Minus 1-2 line 1; Less 2-3 line 1; Greater 3-4 line 1; Bang 4-5 line 1; ",
    ),
    (
        b"<=>===!=",
        "LessEqual 0-2 line 1; GreaterEqual 2-4 line 1; EqualEqual 4-6 line 1; BangEqual 6-8 line 1; ",
    ),
    (
        b"===<<<",
        "EqualEqual 0-2 line 1; Equals 2-3 line 1; LessLess 3-5 line 1; Less 5-6 line 1; ",
    ),
    (
        b">>>=&&&",
        "GreaterGreater 0-2 line 1; GreaterEqual 2-4 line 1; AmpAmp 4-6 line 1; Amp 6-7 line 1; ",
    ),
    (
        b"|||~~&~|",
        "BarBar 0-2 line 1; Bar 2-3 line 1; Tilde 3-4 line 1; TildeAmp 4-6 line 1; TildeBar 6-8 line 1; ",
    ),
    (
        b"a /* b */ < c",
        "name a 0-1 line 1; Less 10-11 line 1; name c 12-13 line 1; ",
    ),
];

const MARKS_OF_ONE_BYTE_ARE_READ: &[(&[u8], &str)] = &[
    (
        b"()[]{}",
        "LeftRound 0-1 line 1; RightRound 1-2 line 1; LeftSquare 2-3 line 1; RightSquare 3-4 line 1; LeftBrace 4-5 \
            line 1; RightBrace 5-6 line 1; ",
    ),
    (
        b",;:.@",
        "Comma 0-1 line 1; Semicolon 1-2 line 1; Colon 2-3 line 1; Dot 3-4 line 1; At 4-5 line 1; ",
    ),
    (b"&|?", "Amp 0-1 line 1; Bar 1-2 line 1; Query 2-3 line 1; "),
    (b"a * b", "bad line 1"),
    (b"\na / b", "bad line 2"),
    (b"a % b", "bad line 1"),
];

fn rows(rt: &impl Abort, alloc: Global, rows: &[(&[u8], &str)]) -> Result<(), Fail> {
    for (text, expected) in rows {
        assert!(rt; text.len() <= 33_554_432);
        let found = printed(alloc, text)?;
        assert_eq!(rt; found.as_str(), *expected);
    }
    Ok(())
}

#[test]
fn texts_are_cut_into_tokens(rt: HostRuntime) -> Result<(), Fail> {
    rows(&rt, rt.alloc(), NAMES_AND_WORDS_ARE_READ)?;
    rows(&rt, rt.alloc(), SKIPS_ARE_PASSED_OVER)?;
    rows(&rt, rt.alloc(), NUMBERS_HAVE_THEIR_MEANING)?;
    rows(&rt, rt.alloc(), WHAT_IS_NO_NUMBER_IS_BAD)?;
    rows(&rt, rt.alloc(), THE_LONGEST_MARK_IS_READ)?;
    rows(&rt, rt.alloc(), MARKS_OF_ONE_BYTE_ARE_READ)?;
    Ok(())
}
