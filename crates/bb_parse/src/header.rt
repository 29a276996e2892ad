//! Headers of modules (IEEE 1364-2005, A.1.2 and A.1.3, 12.3.3 and 12.3.4), with both lists of ports. A header that
//! only names its ports leaves their directions to declarations in the body: `decl` is none there. Which list it is
//! depends on the first token after `(`, so no header mixes the two.

ghost use Rattle.std.specs.Prelude.{◌≡◌, ℕ, List, map};
ghost use Rattle.bb_ast.specs.declared.module.Head.{Head};
ghost use Rattle.bb_ast.specs.Inside.Views.{head_view};
ghost use Rattle.bb_parse.specs.Inside.Symbols.{next_kind};
ghost use Rattle.bb_parse.specs.Inside.Steps.{Gives, read_list};
ghost use Rattle.bb_parse.specs.Inside.Declarations.{read_head, read_next_port, read_ansi, read_ansi_heads, read_heads};
ghost use Rattle.bb_parse.specs.Inside.Declarations.{read_header, header_at};

use crate::cursor::Cursor;
use crate::decl::{direction, port};
use crate::list::begun;
use crate::stop::Stop;
use bb_ast::{Head, Port};
use bb_bits::Name;
use bb_lex::{Keyword, Kind, Mark};
use std::alloc::Global;

#[tactic(auto, unfolding(crate::specs::Inside::Declarations::read_head))]
fn head(alloc: Global, cursor: &mut Cursor<'_>) -> Result<Head, Stop>
    ensures { Gives head_view result cursor.new (read_head cursor.old) }
{
    let name = cursor.name(alloc)?;
    Ok(Head { name, decl: None })
}

fn plain_heads(alloc: Global, cursor: &mut Cursor<'_>) -> Result<Vec<Head>, Stop>
    ensures { Gives (λ heads. map head_view heads.items) result cursor.new (read_list read_head cursor.old) }
{
    let first = head(alloc, cursor)?;
    let mut heads = begun(alloc, first)?;
    for turn in 0..cursor.len() {
        if !cursor.takes(Mark::Comma) {
            return Ok(heads);
        }
        let next = head(alloc, cursor)?;
        heads.push(next)?;
    }
    Ok(heads)
}

/// A name without a direction of its own repeats the declaration before it, range included.
#[tactic(auto, unfolding(crate::specs::Inside::Declarations::read_next_port))]
fn next_port(cursor: &mut Cursor<'_>, before: Port) -> Result<Port, Stop>
    ensures { Gives (λ port. port) result cursor.new (read_next_port before cursor.old) }
{
    if direction(cursor.kind()).is_some() {
        port(cursor)
    } else {
        Ok(before)
    }
}

#[tactic(auto, unfolding(crate::specs::Inside::Declarations::read_ansi))]
fn ansi(alloc: Global, cursor: &mut Cursor<'_>, before: Port) -> Result<(Port, Name), Stop>
    ensures { Gives (λ x. (x.0, x.1)) result cursor.new (read_ansi before cursor.old) }
{
    let port = next_port(cursor, before)?;
    let name = cursor.name(alloc)?;
    Ok((port, name))
}

#[tactic(auto, unfolding(crate::specs::Inside::Declarations::read_ansi_heads))]
fn ansi_heads(alloc: Global, cursor: &mut Cursor<'_>) -> Result<Vec<Head>, Stop>
    ensures { Gives (λ heads. map head_view heads.items) result cursor.new (read_ansi_heads cursor.old) }
{
    let mut before = port(cursor)?;
    let first = cursor.name(alloc)?;
    let head = Head {
        name: first,
        decl: Some(before),
    };
    let mut heads = begun(alloc, head)?;
    for turn in 0..cursor.len() {
        if !cursor.takes(Mark::Comma) {
            return Ok(heads);
        }
        let (port, name) = ansi(alloc, cursor, before)?;
        before = port;
        heads.push(Head {
            name,
            decl: Some(port),
        })?;
    }
    Ok(heads)
}

#[tactic(auto, unfolding(crate::specs::Inside::Declarations::read_heads))]
fn heads(alloc: Global, cursor: &mut Cursor<'_>) -> Result<Vec<Head>, Stop>
    ensures { Gives (λ heads. map head_view heads.items) result cursor.new (read_heads cursor.old) }
{
    if cursor.takes(Mark::RightRound) {
        return Ok(Vec::new(alloc));
    }
    let heads = if direction(cursor.kind()).is_some() {
        ansi_heads(alloc, cursor)?
    } else {
        plain_heads(alloc, cursor)?
    };
    cursor.mark(Mark::RightRound)?;
    Ok(heads)
}

#[tactic(auto, unfolding(crate::specs::Inside::Declarations::read_header))]
fn header(alloc: Global, cursor: &mut Cursor<'_>) -> Result<(Name, Vec<Head>), Stop>
    ensures { Gives (λ x. (x.0, map head_view x.1.items)) result cursor.new (read_header cursor.old) }
{
    let name = cursor.name(alloc)?;
    let heads = if cursor.takes(Mark::LeftRound) {
        heads(alloc, cursor)?
    } else {
        Vec::new(alloc)
    };
    cursor.mark(Mark::Semicolon)?;
    Ok((name, heads))
}

pub(crate) fn module_header(
    alloc: Global,
    cursor: &mut Cursor<'_>,
) -> Result<(Name, Vec<Head>), Stop>
    ensures { Gives (λ x. (x.0, map head_view x.1.items)) result cursor.new (header_at (next_kind cursor.old)
        cursor.old) }
{
    match cursor.kind() {
        Some(Kind::Word(Keyword::Module)) => {
            cursor.skip();
            header(alloc, cursor)
        }
        _ => Err(Stop::Amiss),
    }
}
