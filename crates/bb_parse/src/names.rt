//! Lists of names with commas between (IEEE 1364-2005, A.2.3). Each iteration takes a comma, so the number of tokens
//! bounds the loop; every rule for a list in this crate ends for this reason.

ghost use Rattle.std.specs.Prelude.{◌≡◌, ℕ, List};
ghost use Rattle.bb_parse.specs.Inside.Steps.{Gives, read_name, read_list};

use crate::cursor::Cursor;
use crate::list::begun;
use crate::stop::Stop;
use bb_bits::Name;
use bb_lex::Mark;
use std::alloc::Global;

pub(crate) fn names(alloc: Global, cursor: &mut Cursor<'_>) -> Result<Vec<Name>, Stop>
    ensures { Gives (λ names. names.items) result cursor.new (read_list read_name cursor.old) }
{
    let first = cursor.name(alloc)?;
    let mut names = begun(alloc, first)?;
    for turn in 0..cursor.len() {
        if !cursor.takes(Mark::Comma) {
            return Ok(names);
        }
        let name = cursor.name(alloc)?;
        names.push(name)?;
    }
    Ok(names)
}
