//! Left sides of assignments (IEEE 1364-2005, A.8.5). They have a rule of their own, and are not expressions that are
//! checked afterwards, so that `a <= b` in a clocked assignment is never read as a comparison.

ghost use Rattle.std.specs.Prelude.{◌≡◌, ℕ, List, map};
ghost use Rattle.bb_ast.specs.Inside.Views.{expression};
ghost use Rattle.bb_parse.specs.Inside.Steps.{Gives, read_list};
ghost use Rattle.bb_parse.specs.Inside.Expressions.{read_lval, read_lvals};

use crate::cursor::Cursor;
use crate::list::begun;
use crate::select::select;
use crate::stop::Stop;
use bb_ast::Expr;
use bb_lex::Mark;
use std::alloc::Global;

#[cycle(lval)]
#[tactic(auto, unfolding(crate::specs::Inside::Expressions::read_lval, crate::specs::Inside::Expressions::read_lvals))]
pub(crate) fn lval(alloc: Global, cursor: &mut Cursor<'_>, depth: u32) -> Result<Expr, Stop>
    ensures { Gives expression result cursor.new (read_lval depth cursor.old) }
{
    if depth == 0 {
        return Err(Stop::Amiss);
    }
    if !cursor.takes(Mark::LeftBrace) {
        return select(alloc, cursor);
    }
    let parts = lvals(alloc, cursor, depth - 1)?;
    cursor.mark(Mark::RightBrace)?;
    Ok(Expr::Concat(parts))
}

#[cycle(lval)]
fn lvals(alloc: Global, cursor: &mut Cursor<'_>, depth: u32) -> Result<Vec<Expr>, Stop>
    ensures { Gives (λ parts. map expression parts.items) result cursor.new (read_list (read_lval depth) cursor.old) }
{
    let first = lval(alloc, cursor, depth)?;
    let mut parts = begun(alloc, first)?;
    for turn in 0..cursor.len() {
        if !cursor.takes(Mark::Comma) {
            return Ok(parts);
        }
        let part = lval(alloc, cursor, depth)?;
        parts.push(part)?;
    }
    Ok(parts)
}
