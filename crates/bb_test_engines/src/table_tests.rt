//! Names and tables through their public calls.

use bb_bits::{Name, Table};
use std::cmp::Ordering;
use std::test::Fail;

#[test]
fn a_name_is_its_bytes(rt: HostRuntime) -> Result<(), Fail> {
    let name = Name::of(rt.alloc(), b"ab")?;
    let copy = name.clone()?;
    let longer = Name::of(rt.alloc(), b"abc")?;
    let other = Name::of(rt.alloc(), b"b")?;
    assert_eq!(rt; name.bytes(), b"ab".as_slice());
    assert!(rt; name == copy);
    assert!(rt; name != longer);
    assert_eq!(rt; name.cmp(&longer), Ordering::Less);
    assert_eq!(rt; other.cmp(&longer), Ordering::Greater);
    Ok(())
}

// The first pin is the most significant one, and a table without outputs has any number of inputs.
#[test]
fn a_row_is_found_by_its_inputs(rt: HostRuntime) -> Result<(), Fail> {
    let mut table = Table::zeros(rt.alloc(), 1, 1)?;
    table.set(1, 0, true);
    let mut out = [false];
    table.row(&[true], &mut out);
    assert_eq!(rt; out, [true]);
    table.row(&[false], &mut out);
    assert_eq!(rt; out, [false]);
    let mut table = Table::zeros(rt.alloc(), 3, 2)?;
    table.set(4, 1, true);
    assert!(rt; table.bit(4, 1));
    assert!(rt; !table.bit(4, 0));
    let mut out = [false, false];
    table.row(&[true, false, false], &mut out);
    assert_eq!(rt; out, [false, true]);
    table.row(&[false, false, true], &mut out);
    assert_eq!(rt; out, [false, false]);
    let table = Table::zeros(rt.alloc(), 2048, 0)?;
    assert_eq!(rt; table.inputs(), 2048);
    assert_eq!(rt; table.outputs(), 0);
    Ok(())
}
