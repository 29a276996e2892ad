//! Items of a module (IEEE 1364-2005, A.1.4). The first token decides which item is read. Each statement ends at its
//! `;`, so a fault in one never moves where the next begins.

ghost use Rattle.std.specs.Prelude.{◌≡◌, ℕ, List, map};
ghost use Rattle.bb_ast.specs.Inside.Views.{expression, arm_view, named_view, body_view};
ghost use Rattle.bb_parse.specs.Inside.Steps.{Gives, read_list};
ghost use Rattle.bb_parse.specs.Inside.Items.{read_net, read_nets, read_sides, read_assignment, read_assign, edge_of};
ghost use Rattle.bb_parse.specs.Inside.Items.{read_clock, read_event, read_clocked, read_always, worded, read_body};

use crate::cursor::Cursor;
use crate::decl::{optional_range, ports, regs, supply};
use crate::expr::expr;
use crate::gates::worded_gates;
use crate::instances::calls;
use crate::list::begun;
use crate::lval::lval;
use crate::stop::Stop;
use bb_ast::{Always, Body, Expr};
use bb_bits::Name;
use bb_lex::{Keyword, Kind, Mark};
use std::alloc::Global;

/// One declaration may mix nets with and without an assignment, which the standard does not allow; nothing becomes
/// ambiguous by it.
#[tactic(auto, unfolding(crate::specs::Inside::Items::read_net))]
fn net(alloc: Global, cursor: &mut Cursor<'_>, depth: u32) -> Result<(Name, Option<Expr>), Stop>
    ensures { Gives named_view result cursor.new (read_net depth cursor.old) }
{
    let name = cursor.name(alloc)?;
    if !cursor.takes(Mark::Equals) {
        return Ok((name, None));
    }
    let value = expr(alloc, cursor, depth)?;
    Ok((name, Some(value)))
}

fn net_list(
    alloc: Global,
    cursor: &mut Cursor<'_>,
    depth: u32,
) -> Result<Vec<(Name, Option<Expr>)>, Stop>
    ensures { Gives (λ nets. map named_view nets.items) result cursor.new (read_list (read_net depth) cursor.old) }
{
    let first = net(alloc, cursor, depth)?;
    let mut nets = begun(alloc, first)?;
    for turn in 0..cursor.len() {
        if !cursor.takes(Mark::Comma) {
            return Ok(nets);
        }
        let next = net(alloc, cursor, depth)?;
        nets.push(next)?;
    }
    Ok(nets)
}

#[tactic(auto, unfolding(crate::specs::Inside::Items::read_nets))]
fn nets(alloc: Global, cursor: &mut Cursor<'_>, depth: u32) -> Result<Body, Stop>
    ensures { Gives body_view result cursor.new (read_nets depth cursor.old) }
{
    let range = optional_range(cursor)?;
    let nets = net_list(alloc, cursor, depth)?;
    cursor.mark(Mark::Semicolon)?;
    Ok(Body::Nets(range, nets))
}

#[tactic(auto, unfolding(crate::specs::Inside::Items::read_sides))]
fn sides(
    alloc: Global,
    cursor: &mut Cursor<'_>,
    depth: u32,
    mark: Mark,
) -> Result<(Expr, Expr), Stop>
    ensures { Gives arm_view result cursor.new (read_sides mark depth cursor.old) }
{
    let left = lval(alloc, cursor, depth)?;
    cursor.mark(mark)?;
    let right = expr(alloc, cursor, depth)?;
    Ok((left, right))
}

fn assignments(
    alloc: Global,
    cursor: &mut Cursor<'_>,
    depth: u32,
) -> Result<Vec<(Expr, Expr)>, Stop>
    ensures { Gives (λ all. map arm_view all.items) result cursor.new (read_list (read_assignment depth) cursor.old) }
{
    let first = sides(alloc, cursor, depth, Mark::Equals)?;
    let mut all = begun(alloc, first)?;
    for turn in 0..cursor.len() {
        if !cursor.takes(Mark::Comma) {
            return Ok(all);
        }
        let next = sides(alloc, cursor, depth, Mark::Equals)?;
        all.push(next)?;
    }
    Ok(all)
}

#[tactic(auto, unfolding(crate::specs::Inside::Items::read_assign))]
fn assign(alloc: Global, cursor: &mut Cursor<'_>, depth: u32) -> Result<Body, Stop>
    ensures { Gives body_view result cursor.new (read_assign depth cursor.old) }
{
    let all = assignments(alloc, cursor, depth)?;
    cursor.mark(Mark::Semicolon)?;
    Ok(Body::Assign(all))
}

/// `true` for `negedge`.
fn edge(kind: Option<Kind>) -> Option<bool>
    ensures { result ≡ edge_of kind }
{
    match kind {
        Some(Kind::Word(Keyword::Posedge)) => Some(false),
        Some(Kind::Word(Keyword::Negedge)) => Some(true),
        _ => None,
    }
}

/// A net or one of its bits, and no expression: registers of two designs are compared by the bit that clocks them.
#[tactic(auto, unfolding(crate::specs::Inside::Items::read_clock))]
fn clock(alloc: Global, cursor: &mut Cursor<'_>) -> Result<Expr, Stop>
    ensures { Gives expression result cursor.new (read_clock cursor.old) }
{
    let name = cursor.name(alloc)?;
    if !cursor.takes(Mark::LeftSquare) {
        return Ok(Expr::Net(name));
    }
    let index = cursor.plain()?;
    cursor.mark(Mark::RightSquare)?;
    Ok(Expr::Bit(name, index))
}

#[tactic(auto, unfolding(crate::specs::Inside::Items::read_event))]
fn event(alloc: Global, cursor: &mut Cursor<'_>) -> Result<(bool, Expr), Stop>
    ensures { Gives (λ x. (x.0, expression x.1)) result cursor.new (read_event cursor.old) }
{
    cursor.mark(Mark::At)?;
    cursor.mark(Mark::LeftRound)?;
    let Some(falling) = edge(cursor.kind()) else {
        return Err(Stop::Amiss);
    };
    cursor.skip();
    let clock = clock(alloc, cursor)?;
    cursor.mark(Mark::RightRound)?;
    Ok((falling, clock))
}

/// `<=` is one mark for the comparison and for this assignment; the left side is no expression, so it ends before the
/// mark.
#[tactic(auto, unfolding(crate::specs::Inside::Items::read_clocked))]
fn clocked(alloc: Global, cursor: &mut Cursor<'_>, depth: u32) -> Result<(Expr, Expr), Stop>
    ensures { Gives arm_view result cursor.new (read_clocked depth cursor.old) }
{
    let taken = sides(alloc, cursor, depth, Mark::LessEqual)?;
    cursor.mark(Mark::Semicolon)?;
    Ok(taken)
}

#[tactic(auto, unfolding(crate::specs::Inside::Items::read_always))]
fn always(alloc: Global, cursor: &mut Cursor<'_>, depth: u32) -> Result<Body, Stop>
    ensures { Gives body_view result cursor.new (read_always depth cursor.old) }
{
    let (falling, clock) = event(alloc, cursor)?;
    let (left, right) = clocked(alloc, cursor, depth)?;
    Ok(Body::Always(Always {
        falling,
        clock,
        left,
        right,
    }))
}

/// The word is still next. A direction stays there, since `port` reads it; any other word is passed.
fn worded_item(
    alloc: Global,
    cursor: &mut Cursor<'_>,
    depth: u32,
    word: Keyword,
) -> Result<Body, Stop>
    ensures { Gives body_view result cursor.new (worded word depth cursor.old) }
{
    match word {
        Keyword::Input | Keyword::Output => return ports(alloc, cursor),
        _ => cursor.skip(),
    }
    match word {
        Keyword::Wire => nets(alloc, cursor, depth),
        Keyword::Reg => regs(alloc, cursor),
        Keyword::Supply0 => supply(alloc, cursor, false),
        Keyword::Supply1 => supply(alloc, cursor, true),
        Keyword::Assign => assign(alloc, cursor, depth),
        Keyword::Always => always(alloc, cursor, depth),
        _ => worded_gates(alloc, cursor, depth, word),
    }
}

#[tactic(auto, unfolding(crate::specs::Inside::Items::read_body))]
pub(crate) fn body(alloc: Global, cursor: &mut Cursor<'_>, depth: u32) -> Result<Body, Stop>
    ensures { Gives body_view result cursor.new (read_body depth cursor.old) }
{
    match cursor.kind() {
        Some(Kind::Name) => calls(alloc, cursor, depth),
        Some(Kind::Word(word)) => worded_item(alloc, cursor, depth, word),
        _ => Err(Stop::Amiss),
    }
}
