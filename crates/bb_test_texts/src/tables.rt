//! Tables as texts with a row in each line: the expected result follows an arrow, and line breaks of a text are written
//! as `\n`. Empty lines and those that begin with two strokes are no rows.

use std::alloc::{AllocError, Global};

pub(crate) fn is_row(line: &str) -> bool {
    !line.is_empty() && !line.starts_with("//")
}

/// Without blanks around. The second half is empty where there is no arrow.
pub(crate) fn halves(row: &str) -> (&str, &str) {
    let (written, expected) = row.split_once("=>").unwrap_or((row, ""));
    (written.trim(), expected.trim())
}

pub(crate) fn with_breaks(alloc: Global, written: &str) -> Result<String, AllocError> {
    let mut text = String::new(alloc);
    for (number, line) in written.split("\\n").enumerate() {
        if number > 0 {
            text.push('\n')?;
        }
        text.push_str(line)?;
    }
    Ok(text)
}
