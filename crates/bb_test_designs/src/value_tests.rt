//! Names of netlists of small designs, and values of their outputs for vectors and tables of the boxes.

use crate::bits::{bits, outputs};
use crate::designs::{DESIGNS, parts};
use crate::fitting::table_of;
use crate::printing::{flat_of, print_name, print_names};
use bb_bits::Table;
use bb_net::{BoxName, Flat, Reg};
use std::alloc::{AllocError, Global};
use std::process::Abort;
use std::test::Fail;

fn print_registers(out: &mut String, regs: &[Reg]) -> Result<(), AllocError> {
    for reg in regs {
        out.push_str(if reg.falling { " neg " } else { " pos " })?;
        print_name(out, &reg.text)?;
        match reg.clock {
            Some(clock) => write!(out, "@{clock}")?,
            None => out.push_str("@?")?,
        }
    }
    Ok(())
}

fn print_boxes(out: &mut String, boxes: &[BoxName]) -> Result<(), AllocError> {
    for of in boxes {
        out.push_str(" box ")?;
        print_name(out, of.path())?;
        out.push_str(":")?;
        print_names(out, of.ins())?;
        out.push_str(" ->")?;
        print_names(out, of.outs())?;
    }
    Ok(())
}

fn names(alloc: Global, flat: &Flat) -> Result<String, AllocError> {
    let mut out = String::from_str(alloc, "in")?;
    print_names(&mut out, flat.ins())?;
    print_registers(&mut out, flat.regs())?;
    out.push_str(" out")?;
    print_names(&mut out, flat.outs())?;
    print_boxes(&mut out, flat.boxes())?;
    Ok(out)
}

#[test]
fn names_of_designs(rt: HostRuntime) -> Result<(), Fail> {
    for design in DESIGNS.split("\n\n") {
        let design = parts(design);
        let flat = flat_of(&rt, rt.alloc(), design.text.as_bytes(), Some(b"t"))?;
        let found = names(rt.alloc(), &flat)?;
        assert_eq!(&rt; found.as_str(), design.names);
    }
    Ok(())
}

// Two boxes of one module, the second one level deeper than the first and with its connections by name.
const ONE_MODULE: &[u8] =
    b"module t(a, b, y, z); input a, b; output y; output [1:0] z; bx u({b, a}, y, z[0]); m v(a, b, z[1]); endmodule
module m(c, d, y); input c, d; output y; bx w(.s(y), .i({c, d}), .o()); endmodule
module bx(i, o, s); input [1:0] i; output o, s; endmodule";

fn print_module(out: &mut String, of: &BoxName) -> Result<(), AllocError> {
    print_name(out, of.path())?;
    out.push(' ')?;
    print_name(out, of.module())?;
    print_names(out, of.ins())?;
    print_names(out, of.outs())?;
    out.push(';')
}

#[test]
fn modules_of_boxes(rt: HostRuntime) -> Result<(), Fail> {
    let flat = flat_of(&rt, rt.alloc(), ONE_MODULE, Some(b"t"))?;
    let mut printed = String::new(rt.alloc());
    for of in flat.boxes() {
        print_module(&mut printed, of)?;
    }
    let expected = "u bx i[1] i[0] o s;v.w bx i[1] i[0] o s;";
    assert_eq!(&rt; printed.as_str(), expected);
    Ok(())
}

/// The rows of a table follow each other, with a blank between two tables.
pub(crate) fn tables(alloc: Global, flat: &Flat, all: &str) -> Result<Vec<Table>, Fail> {
    let mut tables = Vec::new(alloc);
    for (of, rows) in flat.boxes().iter().zip(all.split(' ')) {
        let rows = bits(alloc, rows)?;
        tables.push(table_of(alloc, of.ins().len(), of.outs().len(), &rows)?)?;
    }
    Ok(tables)
}

fn row<R: Abort>(rt: &R, alloc: Global, flat: &Flat, row: &str) -> Result<(), Fail> {
    let (head, points) = row.split_once(": ").unwrap_or((row, ""));
    let tables = tables(alloc, flat, head.strip_prefix("values ").unwrap_or(""))?;
    for point in points.split(' ') {
        let (x, expected) = point.split_once(":").unwrap_or((point, ""));
        let found = outputs(rt, alloc, flat.net(), &tables, x)?;
        assert_eq!(rt; found.as_str(), expected, "{head} {x}");
    }
    Ok(())
}

#[test]
fn values_of_designs(rt: HostRuntime) -> Result<(), Fail> {
    for design in DESIGNS.split("\n\n") {
        let design = parts(design);
        let flat = flat_of(&rt, rt.alloc(), design.text.as_bytes(), Some(b"t"))?;
        for line in design.rows.lines() {
            row(&rt, rt.alloc(), &flat, line)?;
        }
    }
    Ok(())
}
