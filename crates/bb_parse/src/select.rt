//! A net, one of its bits, or a part of it (IEEE 1364-2005, A.8.4 and A.8.5), with constant indices only: an index that
//! is an expression would be a multiplexer and could be out of range.

ghost use Rattle.bb_ast.specs.Inside.Views.{expression};
ghost use Rattle.bb_parse.specs.Inside.Steps.{Gives};
ghost use Rattle.bb_parse.specs.Inside.Expressions.{read_select, read_index};

use crate::cursor::Cursor;
use crate::stop::Stop;
use bb_ast::Expr;
use bb_bits::Name;
use bb_lex::Mark;
use std::alloc::Global;

#[tactic(auto, unfolding(crate::specs::Inside::Expressions::read_select))]
pub(crate) fn select(alloc: Global, cursor: &mut Cursor<'_>) -> Result<Expr, Stop>
    ensures { Gives expression result cursor.new (read_select cursor.old) }
{
    let name = cursor.name(alloc)?;
    if cursor.takes(Mark::LeftSquare) {
        index(cursor, name)
    } else {
        Ok(Expr::Net(name))
    }
}

#[tactic(auto, unfolding(crate::specs::Inside::Expressions::read_index))]
fn index(cursor: &mut Cursor<'_>, name: Name) -> Result<Expr, Stop>
    ensures { Gives expression result cursor.new (read_index name cursor.old) }
{
    let left = cursor.plain()?;
    if cursor.takes(Mark::Colon) {
        let right = cursor.plain()?;
        cursor.mark(Mark::RightSquare)?;
        return Ok(Expr::Part(name, left, right));
    }
    cursor.mark(Mark::RightSquare)?;
    Ok(Expr::Bit(name, left))
}
