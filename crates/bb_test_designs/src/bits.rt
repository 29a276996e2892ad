//! Bits as digits, and the outputs of a netlist for a list of bits.

use crate::fitting::fit_kinds;
use bb_bits::Table;
use bb_net::{Net, own_kinds};
use std::alloc::{AllocError, Global};
use std::process::Abort;
use std::test::Fail;

/// Blanks between digits are passed over.
pub(crate) fn bits(alloc: Global, digits: &str) -> Result<Vec<bool>, AllocError> {
    let mut bits = Vec::new(alloc);
    for digit in digits.as_bytes() {
        if *digit != b' ' {
            bits.push(*digit == b'1')?;
        }
    }
    Ok(bits)
}

pub(crate) fn digits(alloc: Global, bits: &[bool]) -> Result<String, AllocError> {
    let mut digits = String::new(alloc);
    for bit in bits {
        digits.push(if *bit { '1' } else { '0' })?;
    }
    Ok(digits)
}

/// Digits of the inputs and tables of the boxes, both in the order of the netlist.
pub(crate) fn outputs<R: Abort>(
    rt: &R,
    alloc: Global,
    net: &Net,
    tables: &[Table],
    x: &str,
) -> Result<String, Fail> {
    let x = bits(alloc, x)?;
    assert!(rt; x.len() == net.inputs() as usize);
    assert!(rt; net.boxes().len() <= 1000);
    let kinds = own_kinds(alloc, net.boxes().len() as u32)?;
    assert!(rt; fit_kinds(tables, &kinds, net.boxes()));
    let mut values = vec![in alloc; false; net.cells().len()]?;
    net.value_with(&x, tables, &kinds, &mut values);
    let mut found = Vec::new(alloc);
    for place in net.outs() {
        found.push(*values.get(*place as usize).ok_or("no such cell")?)?;
    }
    Ok(digits(alloc, &found)?)
}
