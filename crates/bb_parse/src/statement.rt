//! One statement: where it ends, how deep it nests, and what it is. Nesting is counted over the tokens before anything
//! is parsed. So `Deep` does not depend on how the parser recurses, the recursion has levels enough for each statement
//! that passes, and its own limit is never met.

ghost use Rattle.std.specs.Prelude.{◌≡◌, ◌<◌, ◌≤◌, ◌+◌, ◌^◌, ℕ, List, map, max, length, option_map};
ghost use Rattle.std.specs.List.{AllByRecursion};
ghost use Rattle.bb_ast.specs.declared.module.Head.{Head};
ghost use Rattle.bb_ast.specs.Inside.Views.{head_view, body_view};
ghost use Rattle.bb_lex.specs.Cut.{IsTokenOf};
ghost use Rattle.bb_parse.specs.Nesting.{nesting};
ghost use Rattle.bb_parse.specs.Sources.{ends_statement, line_of};
ghost use Rattle.bb_parse.specs.Inside.Sources.{judged, Answers, count_at, square_at, first_statement, read_header_of};
ghost use Rattle.bb_parse.specs.Inside.Sources.{read_item_of};

use crate::cursor::Cursor;
use crate::fault::ParseFault;
use crate::header::module_header;
use crate::items::body;
use crate::stop::Stop;
use bb_ast::{Body, Head};
use bb_bits::Name;
use bb_lex::{Keyword, Kind, Mark, Token};
use std::alloc::Global;

/// Bounds the stack of the parser, and of every recursion over an expression in the crates above.
const NESTING: u32 = 200;

/// 200, and the level on which nothing nests.
const LEVELS: u32 = 201;

fn is_end(kind: Kind) -> bool
    ensures { result ≡ ends_statement kind }
{
    matches!(
        kind,
        Kind::Mark(Mark::Semicolon) | Kind::Word(Keyword::Endmodule)
    )
}

#[tactic(auto, using(crate::proofs::Statements::first_looping))]
pub(crate) fn first<'a>(tokens: &'a [Token]) -> Option<(&'a [Token], &'a [Token])>
    ensures { option_map (λ x. (x.0.now, x.1.now)) result ≡ first_statement tokens.entry.now }
{
    for (i, token) in tokens.iter().enumerate() {
        if is_end(token.kind) {
            return Some(tokens.split_at(i + 1));
        }
    }
    None
}

pub(crate) fn line(statement: &[Token]) -> u32
    ensures { result ≡ line_of statement.now }
{
    match statement.first() {
        Some(token) => token.line,
        None => 0,
    }
}

/// `:` closes a `?` only outside square brackets: `[7:0]` has one too. A closing bracket too many leaves the counter at
/// 0, since the grammar refuses it anyway. No overflow: there are fewer than 2^32 tokens.
fn count_after(kind: Option<Kind>, square: u32, count: u32) -> u32
    requires { count < 4294967295 }
    ensures value { result ≡ count_at kind square count }
    ensures within { result ≤ count + 1 }
{
    match kind {
        Some(Kind::Mark(Mark::LeftRound | Mark::LeftBrace | Mark::Query)) => count + 1,
        Some(Kind::Mark(Mark::RightRound | Mark::RightBrace)) => count.saturating_sub(1),
        Some(Kind::Mark(Mark::Colon)) if square == 0 => count.saturating_sub(1),
        _ => count,
    }
}

fn square_after(kind: Option<Kind>, square: u32) -> u32
    requires { square < 4294967295 }
    ensures value { result ≡ square_at kind square }
    ensures within { result ≤ square + 1 }
{
    match kind {
        Some(Kind::Mark(Mark::LeftSquare)) => square + 1,
        Some(Kind::Mark(Mark::RightSquare)) => square.saturating_sub(1),
        _ => square,
    }
}

fn greater(a: u32, b: u32) -> u32
    ensures { result ≡ max a b }
{
    if a < b { b } else { a }
}

#[tactic(auto, using(crate::proofs::Statements::nesting_looping))]
fn depth(cursor: &mut Cursor<'_>) -> u32
    ensures { result ≡ nesting cursor.old }
{
    let mut count = 0;
    let mut square = 0;
    let mut greatest = 0;
    for turn in 0..cursor.len() {
        let kind = cursor.kind();
        let after = count_after(kind, square, count);
        square = square_after(kind, square);
        count = after;
        greatest = greater(greatest, count);
        cursor.skip();
    }
    greatest
}

fn all_read<T: Drop>(read: Result<T, Stop>, left: usize, line: u32) -> Result<T, ParseFault>
    ensures { result ≡ judged read left line }
{
    match read {
        Ok(x) => {
            if left > 0 {
                return Err(ParseFault::Statement { line });
            }
            Ok(x)
        }
        Err(Stop::Amiss) => Err(ParseFault::Statement { line }),
        Err(Stop::NoMemory) => Err(ParseFault::NoMemory),
    }
}

#[tactic(auto, using(crate::proofs::Statements::judging), unfolding(crate::specs::Inside::Sources::read_header_of))]
pub(crate) fn header_of(
    alloc: Global,
    statement: &[Token],
    text: &[u8],
) -> Result<(Name, Vec<Head>), ParseFault>
    requires of_text { AllByRecursion (λ token. IsTokenOf token text.now) statement.now }
    requires small { length statement.now < 2 ^ 32 }
    ensures { Answers (λ x. (x.0, map head_view x.1.items)) result (read_header_of text.now statement.now) }
{
    let line = line(statement);
    if depth(&mut Cursor::new(statement, text)) > NESTING {
        return Err(ParseFault::Deep { line });
    }
    let mut cursor = Cursor::new(statement, text);
    let read = module_header(alloc, &mut cursor);
    all_read(read, cursor.len(), line)
}

#[tactic(auto, using(crate::proofs::Statements::judging), unfolding(crate::specs::Inside::Sources::read_item_of))]
pub(crate) fn item_of(alloc: Global, statement: &[Token], text: &[u8]) -> Result<Body, ParseFault>
    requires of_text { AllByRecursion (λ token. IsTokenOf token text.now) statement.now }
    requires small { length statement.now < 2 ^ 32 }
    ensures { Answers body_view result (read_item_of text.now statement.now) }
{
    let line = line(statement);
    if depth(&mut Cursor::new(statement, text)) > NESTING {
        return Err(ParseFault::Deep { line });
    }
    let mut cursor = Cursor::new(statement, text);
    let read = body(alloc, &mut cursor, LEVELS);
    all_read(read, cursor.len(), line)
}
