//! Texts and the nets of their modules, worked out by hand. No report lists nets, so they are compared here.

use crate::expression_printing::print_name;
use crate::reading::source_of;
use crate::tables::{halves, is_row, with_breaks};
use bb_names::{CheckedModule, NetInfo, check};
use std::alloc::AllocError;
use std::test::Fail;

// Name, kind, range, direction, and the place that is found for the name: the look-up is tested too.
fn print_net(out: &mut String, found: &CheckedModule, net: &NetInfo) -> Result<(), AllocError> {
    out.push_str(" ")?;
    print_name(out, &net.name)?;
    write!(out, " {:?}", net.kind)?;
    if let Some(range) = net.range {
        write!(out, " {}:{}", range.left, range.right)?;
    }
    if let Some(dir) = net.port {
        write!(out, " {dir:?}")?;
    }
    match found.index.get(&net.name) {
        Some(place) => write!(out, " {place},"),
        None => out.push_str(" ?,"),
    }
}

fn print_module(out: &mut String, found: &CheckedModule) -> Result<(), AllocError> {
    if !out.is_empty() {
        out.push(' ')?;
    }
    print_name(out, &found.module.name)?;
    out.push_str(if found.empty { " empty:" } else { ":" })?;
    for net in &found.nets {
        print_net(out, found, net)?;
    }
    out.push_str(";")
}

const NETS: &str = "
=>
module m; endmodule => m empty:;
module m(a, y); input a; output [1:0] y; wire [1:0] y; wire w; buf (v, w); assign u = a; endmodule => m: a Wire Input \
    0, y Wire 1:0 Output 1, w Wire 2, v Wire 3, u Wire 4,;
module m(input a, output reg [0:3] q); supply1 o; always @(posedge a) q <= {a, o, q[0:1]}; endmodule module n(i); \
    output i; reg i; endmodule => m: a Wire Input 0, q Reg 0:3 Output 1, o One 2,; n empty: i Reg Output 0,;
module m(a, y); input a; output y; n u(a, y), v(.p(a)), w(, y2); endmodule module n(p, q); input p; output q; \
    endmodule => m: a Wire Input 0, y Wire Output 1, y2 Wire 2,; n empty: p Wire Input 0, q Wire Output 1,;
// close to what is refused
module m(a);\\nwire [1:0] a;\\ninput [1:0] a; endmodule => m empty: a Wire 1:0 Input 0,;
module m;\\nassign a = a; endmodule => m: a Wire 0,;
module m;\\nwire a = b;\\nbuf (b, a); endmodule => m: a Wire 0, b Wire 1,;
module m; wire [3:0] w; wire v;\\nassign v = w[1:0]; assign v = w[2]; assign w[3] = v; endmodule => m: w Wire 3:0 0, v \
    Wire 1,;
module m; wire [1:0] w;\\nn u(.p(w[0] ? w : w)); endmodule module n(p); input [7:6] p; endmodule => m: w Wire 1:0 0,; \
    n empty: p Wire 7:6 Input 0,;
module m(a); input a; wire c;\\nbuf (c, a & b); endmodule => m: a Wire Input 0, c Wire 1, b Wire 2,;
module m; wire w;\\nbuf (w, w | u); endmodule => m: w Wire 0, u Wire 1,;
module m;\\nbuf (w, ~u); endmodule => m: w Wire 0, u Wire 1,;
module m; wire [5:2] w;\\nassign v = w[5]; assign v = w[2]; endmodule => m: w Wire 5:2 0, v Wire 1,;";

#[test]
fn modules_have_their_nets(rt: HostRuntime) -> Result<(), Fail> {
    for line in NETS.lines() {
        if is_row(line) {
            let (written, expected) = halves(line);
            let text = with_breaks(rt.alloc(), written)?;
            let bytes = text.as_bytes();
            assert!(rt; bytes.len() <= 33_554_432);
            let source = source_of(rt.alloc(), bytes)?;
            let checked = check(rt.alloc(), source)?;
            let mut out = String::new(rt.alloc());
            for found in checked.modules() {
                print_module(&mut out, found)?;
            }
            assert_eq!(rt; out.as_str(), expected, "{line}");
        }
    }
    Ok(())
}
