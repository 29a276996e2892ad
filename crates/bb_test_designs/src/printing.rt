//! The netlist of a text, and names as words.

use crate::reading::source_of;
use bb_bits::Name;
use bb_elab::{Flat, elaborate};
use bb_names::check;
use std::alloc::{AllocError, Global};
use std::process::Abort;
use std::test::Fail;

pub(crate) fn print_name(out: &mut String, name: &Name) -> Result<(), AllocError> {
    for b in name.bytes() {
        out.push(char::from(*b))?;
    }
    Ok(())
}

pub(crate) fn print_names(out: &mut String, names: &[Name]) -> Result<(), AllocError> {
    for name in names {
        out.push(' ')?;
        print_name(out, name)?;
    }
    Ok(())
}

pub(crate) fn flat_of(
    rt: &impl Abort,
    alloc: Global,
    text: &[u8],
    top: Option<&[u8]>,
) -> Result<Flat, Fail> {
    assert!(rt; text.len() <= 33_554_432);
    let source = source_of(alloc, text)?;
    let checked = check(alloc, source)?;
    let flat = elaborate(alloc, &checked, top)?;
    Ok(flat)
}
