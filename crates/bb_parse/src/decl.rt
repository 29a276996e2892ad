//! Declarations of ports, registers and supply nets (IEEE 1364-2005, A.2). A port's declaration is read without its
//! names, since a header may give it to several names one by one and an item to all of its list.

ghost use Rattle.std.specs.Prelude.{◌≡◌, ℕ, List};
ghost use Rattle.bb_ast.specs.Inside.Views.{body_view};
ghost use Rattle.bb_parse.specs.Inside.Steps.{Gives};
ghost use Rattle.bb_parse.specs.Inside.Declarations.{direction_of, port_kind_of, read_range, read_optional_range};
ghost use Rattle.bb_parse.specs.Inside.Declarations.{read_port, read_ports, read_regs, read_supply};

use crate::cursor::Cursor;
use crate::names::names;
use crate::stop::Stop;
use bb_ast::{Body, Dir, Port, PortKind, Range};
use bb_lex::{Keyword, Kind, Mark};
use std::alloc::Global;

pub(crate) fn direction(kind: Option<Kind>) -> Option<Dir>
    ensures { result ≡ direction_of kind }
{
    match kind {
        Some(Kind::Word(Keyword::Input)) => Some(Dir::Input),
        Some(Kind::Word(Keyword::Output)) => Some(Dir::Output),
        _ => None,
    }
}

fn port_kind(kind: Option<Kind>) -> Option<PortKind>
    ensures { result ≡ port_kind_of kind }
{
    match kind {
        Some(Kind::Word(Keyword::Wire)) => Some(PortKind::Wire),
        Some(Kind::Word(Keyword::Reg)) => Some(PortKind::Reg),
        _ => None,
    }
}

#[tactic(auto, unfolding(crate::specs::Inside::Declarations::read_range))]
fn range(cursor: &mut Cursor<'_>) -> Result<Range, Stop>
    ensures { Gives (λ range. range) result cursor.new (read_range cursor.old) }
{
    cursor.mark(Mark::LeftSquare)?;
    let left = cursor.plain()?;
    cursor.mark(Mark::Colon)?;
    let right = cursor.plain()?;
    cursor.mark(Mark::RightSquare)?;
    Ok(Range { left, right })
}

#[tactic(auto, unfolding(crate::specs::Inside::Declarations::read_optional_range))]
pub(crate) fn optional_range(cursor: &mut Cursor<'_>) -> Result<Option<Range>, Stop>
    ensures { Gives (λ range. range) result cursor.new (read_optional_range cursor.old) }
{
    if !cursor.is_at(Mark::LeftSquare) {
        return Ok(None);
    }
    let range = range(cursor)?;
    Ok(Some(range))
}

/// The kind, `wire` or `reg`, is kept as written or as none: that a port has no kind of its own matters where a later
/// declaration gives one.
#[tactic(auto, unfolding(crate::specs::Inside::Declarations::read_port))]
pub(crate) fn port(cursor: &mut Cursor<'_>) -> Result<Port, Stop>
    ensures { Gives (λ port. port) result cursor.new (read_port cursor.old) }
{
    let Some(dir) = direction(cursor.kind()) else {
        return Err(Stop::Amiss);
    };
    cursor.skip();
    let kind = port_kind(cursor.kind());
    if kind.is_some() {
        cursor.skip();
    }
    let range = optional_range(cursor)?;
    Ok(Port { dir, kind, range })
}

#[tactic(auto, unfolding(crate::specs::Inside::Declarations::read_ports))]
pub(crate) fn ports(alloc: Global, cursor: &mut Cursor<'_>) -> Result<Body, Stop>
    ensures { Gives body_view result cursor.new (read_ports cursor.old) }
{
    let port = port(cursor)?;
    let names = names(alloc, cursor)?;
    cursor.mark(Mark::Semicolon)?;
    Ok(Body::Ports(port, names))
}

#[tactic(auto, unfolding(crate::specs::Inside::Declarations::read_regs))]
pub(crate) fn regs(alloc: Global, cursor: &mut Cursor<'_>) -> Result<Body, Stop>
    ensures { Gives body_view result cursor.new (read_regs cursor.old) }
{
    let range = optional_range(cursor)?;
    let names = names(alloc, cursor)?;
    cursor.mark(Mark::Semicolon)?;
    Ok(Body::Regs(range, names))
}

#[tactic(auto, unfolding(crate::specs::Inside::Declarations::read_supply))]
pub(crate) fn supply(alloc: Global, cursor: &mut Cursor<'_>, high: bool) -> Result<Body, Stop>
    ensures { Gives body_view result cursor.new (read_supply high cursor.old) }
{
    let range = optional_range(cursor)?;
    let names = names(alloc, cursor)?;
    cursor.mark(Mark::Semicolon)?;
    Ok(Body::Supply(high, range, names))
}
