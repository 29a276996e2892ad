//! Contents of files in memory, for both kinds of these. Contents are a function of names: the first file of a name
//! counts, and an unknown name has the empty text, so a clause on what is held has no case for a file that is missing.

ghost use Rattle.std.specs.Prelude.{◌≡◌, take, IfOk};
ghost use Rattle.bb_outside.specs.Inside.MemFiles.{text_under, entries};

use crate::NoMemory;
use std::alloc::Global;
use std::rc::Rc;

// The first file of this name counts. An unknown name has the empty text, so that contents are a function of names.
fn text<'a>(files: &'a [(String, Vec<u8>)], name: &str) -> &'a [u8]
    ensures { result.now ≡ text_under (entries files.now) name.now }
{
    for (known, bytes) in files {
        if known.as_str() == name {
            return bytes;
        }
    }
    &[]
}

// A copy, as a real read makes one.
pub(crate) fn prefix(
    alloc: Global,
    files: &[(String, Vec<u8>)],
    name: &str,
    limit: u64,
) -> Result<Rc<Vec<u8>>, NoMemory>
    ensures { IfOk result (λ bytes. bytes.value.items ≡ take limit (text_under (entries files.now) name.now)) }
{
    let text = text(files, name);
    let end = text.len().min(limit as usize);
    let bytes = text[..end].to_vec(alloc)?;
    Ok(Rc::new(alloc, bytes)?)
}
