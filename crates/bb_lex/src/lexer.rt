//! The tokens of a text, piece by piece, each the longest that begins at its place. White space, comments, attributes
//! and directives are pieces too, without a token, so that the pieces joined are the text and a place where none begins
//! is a fault. Lines are counted as pieces are passed.

ghost use Rattle.std.specs.Prelude.{◌≡◌, ◌⊎◌, ◌<◌, ◌≤◌, ◌^◌, ◌==◌, ◌++◌, List, length, count_by, OnOk, IfOk, IfErr};
ghost use Rattle.std.specs.Prelude.{MatchResult};
ghost use Rattle.bb_lex.specs.declared.token.Token.{Token};
ghost use Rattle.bb_lex.specs.declared.fault.LexFault.{LexFault};
ghost use Rattle.bb_lex.specs.Cut.{AreTokens};
ghost use Rattle.bb_lex.specs.Inside.Answers.{IsFault, IsAnswer};
ghost use Rattle.bb_lex.specs.Inside.Pieces.{tokens_at};

use crate::fault::LexFault;
use crate::piece::piece_at;
use crate::token::{Kind, Token};
use std::alloc::Global;

fn newlines(bytes: &[u8]) -> u32
    requires { length bytes.now < 2 ^ 32 }
    ensures { result ≡ count_by (λ b. b == 10) bytes.now }
{
    bytes.iter().filter(|b| **b == b'\n').count() as u32
}

fn push_token(
    tokens: &mut Vec<Token>,
    kind: Option<Kind>,
    start: u32,
    end: u32,
    line: u32,
) -> Result<(), LexFault>
    ensures ok { OnOk result (tokens.new.items ≡ tokens.old.items ++ tokens_at kind start end line) }
    ensures err { IfErr result (λ fault. fault ≡ LexFault.NoMemory) }
{
    if let Some(kind) = kind {
        tokens.push(Token {
            kind,
            start,
            end,
            line,
        })?;
    }
    Ok(())
}

fn scan(alloc: Global, text: &[u8]) -> Result<Vec<Token>, LexFault>
    requires { length text.now ≤ 33554432 }
    ensures { IsAnswer text.now result }
{
    let mut tokens = Vec::new(alloc);
    let mut rest = text;
    let mut line = 1;
    'pieces: while !rest.is_empty() {
        let Some(found) = piece_at(rest) else {
            return Err(LexFault::Bad { line });
        };
        let start = text.len() - rest.len();
        let length = rest.len() - found.rest.len();
        let end = start + length;
        push_token(&mut tokens, found.kind, start as u32, end as u32, line)?;
        line += newlines(&rest[..length]);
        rest = found.rest;
    }
    Ok(tokens)
}

/// The tokens in text order. `Bad` has the line of the first place, after whole pieces, at which no piece begins; a
/// comment that does not end is such a place, so its first line is reported.
///
/// The text has at most 2^25 bytes, so places and lines fit into 32 bits.
pub fn tokens(alloc: Global, text: &[u8]) -> Result<Vec<Token>, LexFault>
    requires { length text.now ≤ 33554432 }

    // A result is the tokens, or the fault.
    ensures ok { IfOk result (λ found. AreTokens text.now found.items) }
    ensures fault { IfErr result (λ fault. (fault ≡ LexFault.NoMemory) ⊎ IsFault text.now fault) }

    // The tokens come wherever there are some, and else the fault, unless memory runs out.
    ensures only_ok { (list : List Token) → AreTokens text.now list
        → MatchResult result (λ found. found.items ≡ list) (λ fault. fault ≡ LexFault.NoMemory) }
    ensures only_fault { (first : LexFault) → IsFault text.now first
        → MatchResult result (λ found. ⊥) (λ fault. (fault ≡ first) ⊎ (fault ≡ LexFault.NoMemory)) }
{
    scan(alloc, text)
}
