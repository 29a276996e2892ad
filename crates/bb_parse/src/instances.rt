//! Instances of modules (IEEE 1364-2005, A.4.1, 12.3.5 and 12.3.6), connected by order or by name, never by both in one
//! instance.

ghost use Rattle.std.specs.Prelude.{◌≡◌, ℕ, List, map};
ghost use Rattle.bb_ast.specs.Inside.Views.{optional_view, named_view, conns_view, call_view, body_view};
ghost use Rattle.bb_parse.specs.Inside.Steps.{Gives, read_list};
ghost use Rattle.bb_parse.specs.Inside.Items.{read_place, read_named, read_conns, read_call, read_calls};

use crate::cursor::Cursor;
use crate::expr::expr;
use crate::list::begun;
use crate::stop::Stop;
use bb_ast::{Body, Call, Conns, Expr};
use bb_bits::Name;
use bb_lex::Mark;
use std::alloc::Global;

/// An open connection: nothing before a comma or `)`.
#[tactic(auto, unfolding(crate::specs::Inside::Items::read_place))]
fn place(alloc: Global, cursor: &mut Cursor<'_>, depth: u32) -> Result<Option<Expr>, Stop>
    ensures { Gives optional_view result cursor.new (read_place depth cursor.old) }
{
    if cursor.is_at(Mark::Comma) || cursor.is_at(Mark::RightRound) {
        return Ok(None);
    }
    let inside = expr(alloc, cursor, depth)?;
    Ok(Some(inside))
}

fn places(alloc: Global, cursor: &mut Cursor<'_>, depth: u32) -> Result<Vec<Option<Expr>>, Stop>
    ensures { Gives (λ all. map optional_view all.items) result cursor.new (read_list (read_place depth) cursor.old) }
{
    let first = place(alloc, cursor, depth)?;
    let mut all = begun(alloc, first)?;
    for turn in 0..cursor.len() {
        if !cursor.takes(Mark::Comma) {
            return Ok(all);
        }
        let next = place(alloc, cursor, depth)?;
        all.push(next)?;
    }
    Ok(all)
}

#[tactic(auto, unfolding(crate::specs::Inside::Items::read_named))]
fn named(alloc: Global, cursor: &mut Cursor<'_>, depth: u32) -> Result<(Name, Option<Expr>), Stop>
    ensures { Gives named_view result cursor.new (read_named depth cursor.old) }
{
    cursor.mark(Mark::Dot)?;
    let name = cursor.name(alloc)?;
    cursor.mark(Mark::LeftRound)?;
    let inside = place(alloc, cursor, depth)?;
    cursor.mark(Mark::RightRound)?;
    Ok((name, inside))
}

fn named_list(
    alloc: Global,
    cursor: &mut Cursor<'_>,
    depth: u32,
) -> Result<Vec<(Name, Option<Expr>)>, Stop>
    ensures { Gives (λ all. map named_view all.items) result cursor.new (read_list (read_named depth) cursor.old) }
{
    let first = named(alloc, cursor, depth)?;
    let mut all = begun(alloc, first)?;
    for turn in 0..cursor.len() {
        if !cursor.takes(Mark::Comma) {
            return Ok(all);
        }
        let next = named(alloc, cursor, depth)?;
        all.push(next)?;
    }
    Ok(all)
}

/// `u()` has no connections, and not one that is open: an instance of a module without ports needs none.
#[tactic(auto, unfolding(crate::specs::Inside::Items::read_conns))]
fn conns(alloc: Global, cursor: &mut Cursor<'_>, depth: u32) -> Result<Conns, Stop>
    ensures { Gives conns_view result cursor.new (read_conns depth cursor.old) }
{
    if cursor.is_at(Mark::RightRound) {
        return Ok(Conns::Order(Vec::new(alloc)));
    }
    if cursor.is_at(Mark::Dot) {
        let all = named_list(alloc, cursor, depth)?;
        return Ok(Conns::Named(all));
    }
    let all = places(alloc, cursor, depth)?;
    Ok(Conns::Order(all))
}

#[tactic(auto, unfolding(crate::specs::Inside::Items::read_call))]
fn call(alloc: Global, cursor: &mut Cursor<'_>, depth: u32) -> Result<Call, Stop>
    ensures { Gives call_view result cursor.new (read_call depth cursor.old) }
{
    let name = cursor.name(alloc)?;
    cursor.mark(Mark::LeftRound)?;
    let conns = conns(alloc, cursor, depth)?;
    cursor.mark(Mark::RightRound)?;
    Ok(Call { name, conns })
}

fn call_list(alloc: Global, cursor: &mut Cursor<'_>, depth: u32) -> Result<Vec<Call>, Stop>
    ensures { Gives (λ all. map call_view all.items) result cursor.new (read_list (read_call depth) cursor.old) }
{
    let first = call(alloc, cursor, depth)?;
    let mut all = begun(alloc, first)?;
    for turn in 0..cursor.len() {
        if !cursor.takes(Mark::Comma) {
            return Ok(all);
        }
        let next = call(alloc, cursor, depth)?;
        all.push(next)?;
    }
    Ok(all)
}

#[tactic(auto, unfolding(crate::specs::Inside::Items::read_calls))]
pub(crate) fn calls(alloc: Global, cursor: &mut Cursor<'_>, depth: u32) -> Result<Body, Stop>
    ensures { Gives body_view result cursor.new (read_calls depth cursor.old) }
{
    let name = cursor.name(alloc)?;
    let all = call_list(alloc, cursor, depth)?;
    cursor.mark(Mark::Semicolon)?;
    Ok(Body::Calls(name, all))
}
