//! Gate instances (IEEE 1364-2005, A.3.1 and 7.2, 7.3). Terminals are kept in place up to four, so most gates of a
//! netlist take no allocation for them.

ghost use Rattle.std.specs.Prelude.{◌≡◌, ℕ, List, [], ◌∷◌, map, IfOk, IfErr};
ghost use Rattle.bb_ast.specs.Inside.Views.{expression, gate_view, body_view};
ghost use Rattle.bb_parse.specs.declared.stop.Stop.{Stop};
ghost use Rattle.bb_parse.specs.Inside.Steps.{Gives, read_list};
ghost use Rattle.bb_parse.specs.Inside.Items.{read_optional_name, read_two_terms, read_terms, read_gate, read_gates};
ghost use Rattle.bb_parse.specs.Inside.Items.{gate_of};
ghost use Rattle.bb_parse.specs.Inside.Items.{gates_at};

use crate::cursor::Cursor;
use crate::expr::expr;
use crate::list::begun;
use crate::stop::Stop;
use bb_ast::{Body, Expr, Gate, GateCall};
use bb_bits::Name;
use bb_lex::{Keyword, Kind, Mark};
use smallvec::SmallVec;
use std::alloc::Global;

/// A gate may have no name, while an instance of a module needs one.
fn optional_name(alloc: Global, cursor: &mut Cursor<'_>) -> Result<Option<Name>, Stop>
    ensures { Gives (λ name. name) result cursor.new (read_optional_name cursor.old) }
{
    match cursor.kind() {
        Some(Kind::Name) => {
            let name = cursor.name(alloc)?;
            Ok(Some(name))
        }
        _ => Ok(None),
    }
}

fn both(alloc: Global, first: Expr, second: Expr) -> Result<SmallVec<Expr, 4>, Stop>
    ensures ok { IfOk result (λ terms. terms.items ≡ first ∷ second ∷ []) }
    ensures err { IfErr result (λ stop. stop ≡ Stop.NoMemory) }
{
    let mut terms = SmallVec::new(alloc);
    terms.push(first)?;
    terms.push(second)?;
    Ok(terms)
}

#[tactic(auto, unfolding(crate::specs::Inside::Items::read_two_terms))]
fn two_terms(alloc: Global, cursor: &mut Cursor<'_>, depth: u32) -> Result<SmallVec<Expr, 4>, Stop>
    ensures { Gives (λ terms. map expression terms.items) result cursor.new (read_two_terms depth cursor.old) }
{
    let first = expr(alloc, cursor, depth)?;
    cursor.mark(Mark::Comma)?;
    let second = expr(alloc, cursor, depth)?;
    let terms = both(alloc, first, second)?;
    Ok(terms)
}

/// At least two: an output and an input. That each gate has an input is known from here on by the syntax alone.
#[tactic(auto, using(crate::proofs::Loops::terms_looping))]
fn terms(alloc: Global, cursor: &mut Cursor<'_>, depth: u32) -> Result<SmallVec<Expr, 4>, Stop>
    ensures { Gives (λ terms. map expression terms.items) result cursor.new (read_terms depth cursor.old) }
{
    let mut terms = two_terms(alloc, cursor, depth)?;
    for turn in 0..cursor.len() {
        if !cursor.takes(Mark::Comma) {
            return Ok(terms);
        }
        let next = expr(alloc, cursor, depth)?;
        terms.push(next)?;
    }
    Ok(terms)
}

#[tactic(auto, unfolding(crate::specs::Inside::Items::read_gate))]
fn gate(alloc: Global, cursor: &mut Cursor<'_>, depth: u32) -> Result<GateCall, Stop>
    ensures { Gives gate_view result cursor.new (read_gate depth cursor.old) }
{
    let name = optional_name(alloc, cursor)?;
    cursor.mark(Mark::LeftRound)?;
    let terms = terms(alloc, cursor, depth)?;
    cursor.mark(Mark::RightRound)?;
    Ok(GateCall { name, terms })
}

fn gate_list(alloc: Global, cursor: &mut Cursor<'_>, depth: u32) -> Result<Vec<GateCall>, Stop>
    ensures { Gives (λ all. map gate_view all.items) result cursor.new (read_list (read_gate depth) cursor.old) }
{
    let first = gate(alloc, cursor, depth)?;
    let mut all = begun(alloc, first)?;
    for turn in 0..cursor.len() {
        if !cursor.takes(Mark::Comma) {
            return Ok(all);
        }
        let next = gate(alloc, cursor, depth)?;
        all.push(next)?;
    }
    Ok(all)
}

#[tactic(auto, unfolding(crate::specs::Inside::Items::read_gates))]
fn gates(alloc: Global, cursor: &mut Cursor<'_>, depth: u32, gate: Gate) -> Result<Body, Stop>
    ensures { Gives body_view result cursor.new (read_gates gate depth cursor.old) }
{
    let all = gate_list(alloc, cursor, depth)?;
    cursor.mark(Mark::Semicolon)?;
    Ok(Body::Gates(gate, all))
}

fn gate_named(word: Keyword) -> Option<Gate>
    ensures { result ≡ gate_of word }
{
    match word {
        Keyword::And => Some(Gate::And),
        Keyword::Nand => Some(Gate::Nand),
        Keyword::Or => Some(Gate::Or),
        Keyword::Nor => Some(Gate::Nor),
        Keyword::Xor => Some(Gate::Xor),
        Keyword::Xnor => Some(Gate::Xnor),
        Keyword::Buf => Some(Gate::Buf),
        Keyword::Not => Some(Gate::Not),
        _ => None,
    }
}

pub(crate) fn worded_gates(
    alloc: Global,
    cursor: &mut Cursor<'_>,
    depth: u32,
    word: Keyword,
) -> Result<Body, Stop>
    ensures { Gives body_view result cursor.new (gates_at (gate_of word) depth cursor.old) }
{
    match gate_named(word) {
        Some(gate) => gates(alloc, cursor, depth, gate),
        None => Err(Stop::Amiss),
    }
}
