//! The texts of filled designs, worked out by hand.

ghost use Rattle.std.specs.Prelude.{◌≡◌, true, All, IsSome};

use crate::fitting::fit_kinds;
use crate::printing::{flat_of, print_name};
use crate::value_tests::tables;
use bb_bits::{Name, Table};
use bb_fill::{FillFault, fill};
use bb_net::{Flat, Reg, own_kinds};
use std::alloc::{AllocError, Global};
use std::process::Abort;
use std::test::Fail;

// A premise of `fill`.
fn have_clocks(regs: &[Reg]) -> bool
    ensures { result ≡ true → All (λ r. IsSome r.clock) regs.now }
{
    for reg in regs {
        if reg.clock.is_none() {
            return false;
        }
    }
    true
}

// The text, or the fault.
fn printed<R: Abort>(rt: &R, alloc: Global, flat: &Flat, tables: &[Table]) -> Result<String, Fail> {
    let net = flat.net();
    assert!(rt; net.boxes().len() <= 1000);
    let kinds = own_kinds(alloc, net.boxes().len() as u32)?;
    assert!(rt; fit_kinds(tables, &kinds, net.boxes()));
    assert!(rt; have_clocks(flat.regs()));
    let mut out = String::new(alloc);
    match fill(alloc, flat, tables, &kinds) {
        Ok(text) => print_name(&mut out, &Name::of(alloc, &text)?)?,
        Err(FillFault::Clash { name }) => {
            out.push_str("clash ")?;
            print_name(&mut out, &name)?;
        }
        Err(FillFault::TooLarge) => out.push_str("toolarge")?,
        Err(FillFault::NoMemory) => out.push_str("no memory")?,
    }
    Ok(out)
}

// Each design with the rows of its tables, and its filled text or fault.
const FILLED: &str =
    "module t(a, y); input a; output y; bx u(a, y); endmodule module bx(i, o); input i; output o; endmodule
10
module filled(\\a ,\\y );
input \\a ;
output \\y ;
assign _t0 = \\a  ? 1'b0 : 1'b1;
buf(_3,_t0);
buf(\\y ,_3);
endmodule

---
module t(c, d, q); input c, d; output reg q; always @(posedge c) q <= d; endmodule

module filled(\\c ,\\d ,\\q );
input \\c ;
input \\d ;
output \\q ;
reg \\q ;
always @(posedge \\c ) \\q  <= \\d ;
endmodule

---
module t(_a, b, y); input _a, b; output y; wire w; b2 u(_a, b, y, w); endmodule module b2(i, j, o, p); input i, j; \
    output o, p; endmodule
00010110
module filled(\\_a ,\\b ,\\y );
input \\_a ;
input \\b ;
output \\y ;
assign __t0 = \\b  ? 1'b0 : 1'b0;
assign __t1 = \\b  ? 1'b1 : 1'b0;
assign __t2 = \\_a  ? __t1 : __t0;
buf(__4,__t2);
assign __t3 = \\b  ? 1'b1 : 1'b0;
assign __t4 = \\b  ? 1'b0 : 1'b1;
assign __t5 = \\_a  ? __t4 : __t3;
buf(__5,__t5);
buf(\\y ,__4);
endmodule

---
module t(c, a, b, y, z); input c, a, b; output y, z; reg r; wire s = a ? b : 1'b0; always @(negedge c) r <= s; xor(y, \
    a, r); or(z, b, 1'b1); endmodule

module filled(\\c ,\\a ,\\b ,\\y ,\\z );
input \\c ;
input \\a ;
input \\b ;
output \\y ;
output \\z ;
reg \\r ;
assign _6 = \\a  ? \\b  : 1'b0;
xor(_7,\\a ,\\r );
or(_8,\\b ,1'b1);
buf(\\y ,_7);
buf(\\z ,_8);
always @(negedge \\c ) \\r  <= _6;
endmodule

---
module t(); endmodule

module filled();
endmodule

---
module t(c, d, \\u.q ); input c, d; output \\u.q ; m u(c, d, \\u.q ); endmodule module m(c, d, q); input c, d; output \
    reg q; always @(posedge c) q <= d; endmodule

module filled(\\c ,\\d ,\\u.q );
input \\c ;
input \\d ;
output \\u.q ;
reg \\u.q ;
always @(posedge \\c ) \\u.q  <= \\d ;
endmodule

---
module t(c, d, \\u.q ); input c, d; output \\u.q ; wire w; m u(c, d, w); not(\\u.q , w); endmodule module m(c, d, q); \
    input c, d; output reg q; always @(posedge c) q <= d; endmodule

clash u.q
---
module t(a, \\a[0] ); input [0:0] a; output \\a[0] ; buf(\\a[0] , a[0]); endmodule

clash a[0]";

// Each way out of a function and each value that is dropped there costs proof, so bodies of loops are functions.
fn expect_filled<R: Abort>(rt: &R, alloc: Global, block: &str) -> Result<(), Fail> {
    let (text, rest) = block.split_once("\n").unwrap_or((block, ""));
    let (rows, expected) = rest.split_once("\n").unwrap_or((rest, ""));
    let flat = flat_of(rt, alloc, text.as_bytes(), Some(b"t"))?;
    let tables = tables(alloc, &flat, rows)?;
    let found = printed(rt, alloc, &flat, &tables)?;
    assert_eq!(rt; found.as_str(), expected, "{text}");
    Ok(())
}

#[test]
fn texts_of_filled_designs(rt: HostRuntime) -> Result<(), Fail> {
    for block in FILLED.split("\n---\n") {
        expect_filled(&rt, rt.alloc(), block)?;
    }
    Ok(())
}

const TREE: &[u8] =
    b"module t(a, y); input a; output y; bx u({20{a}}, y); endmodule module bx(i, o); input [19:0] i; output o; \
        endmodule";

fn expect_too_large<R: Abort>(
    rt: &R,
    alloc: Global,
    text: &[u8],
    tables: &[Table],
) -> Result<(), Fail> {
    let flat = flat_of(rt, alloc, text, Some(b"t"))?;
    let found = printed(rt, alloc, &flat, tables)?;
    assert_eq!(rt; found.as_str(), "toolarge");
    Ok(())
}

fn long_name(alloc: Global) -> Result<String, AllocError> {
    let mut name = String::new(alloc);
    for _ in 0..65_536 {
        name.push('n')?;
    }
    Ok(name)
}

// Six hundred gates that read an input.
fn wide_gates(alloc: Global, name: &str) -> Result<String, AllocError> {
    format!(in alloc;
        "module t({name}, b, y); input {name}, b; output [599:0] y; assign y = {{600{{{name}}}}} & {{600{{b}}}}; \
            endmodule"
    )
}

// Each bound alone: a tree with too many nets, and gates that read an input with a name of 65,536 bytes, for the bound
// on bytes.
#[test]
fn texts_that_are_too_large(rt: HostRuntime) -> Result<(), Fail> {
    let tables = vec![in rt.alloc(); Table::zeros(rt.alloc(), 20, 1)?]?;
    expect_too_large(&rt, rt.alloc(), TREE, &tables)?;
    let text = wide_gates(rt.alloc(), &long_name(rt.alloc())?)?;
    expect_too_large(&rt, rt.alloc(), text.as_bytes(), &[])
}
