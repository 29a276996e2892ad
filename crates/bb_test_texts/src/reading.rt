//! The tree of syntax of a text, for tests of what comes after the parser.

ghost use Rattle.std.specs.Prelude.{◌≤◌, length, IfOk};
ghost use Rattle.bb_ast.specs.Inside.Views.{source_view};
ghost use Rattle.bb_names.specs.Inside.Checked.{AreFormedAndSmall};

use bb_ast::Source;
use bb_parse::laws::{sources_are_formed, texts_are_long};
use std::alloc::Global;
use std::test::Fail;

/// The tests call what has these two promises as premises.
pub(crate) fn source_of(alloc: Global, text: &[u8]) -> Result<Source, Fail>
    requires short { length text.now ≤ 33554432 }
    ensures read { IfOk result (λ source. AreFormedAndSmall (source_view source)) }
{
    sources_are_formed();
    texts_are_long();
    let tokens = bb_lex::tokens(alloc, text)?;
    let source = bb_parse::source(alloc, &tokens, text)?;
    Ok(source)
}
