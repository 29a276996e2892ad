//! Texts and their trees of syntax, printed with parentheses so that grouping is seen.

use crate::printing::printed;
use crate::tables::{halves, is_row, with_breaks};
use std::alloc::Global;
use std::process::Abort;
use std::test::Fail;

fn rows(rt: &impl Abort, alloc: Global, table: &str) -> Result<(), Fail> {
    for line in table.lines() {
        if is_row(line) {
            let (written, expected) = halves(line);
            let text = with_breaks(alloc, written)?;
            let found = printed(rt, alloc, text.as_bytes())?;
            assert_eq!(rt; found.as_str(), expected, "{line}");
        }
    }
    Ok(())
}

const HEADERS_AND_DECLARATIONS: &str = "
=>
module m; endmodule\\nmodule n(); endmodule => <1 m ><2 n >
module m(a, \\b+ ,c); endmodule => <1 m a,b+,c,>
module m(input a, b, output wire [3:0] y, z, input c); endmodule => <1 m in a,in b,out wire [3:0] y,out wire [3:0] \
    z,in c,>
module m(output reg q); endmodule => <1 m out reg q,>
module m(input [3:0] a, output reg [0:1] q, input wire b, c); endmodule => <1 m in [3:0] a,out reg [0:1] q,in wire \
    b,in wire c,>
module m(a);\\ninput [0:7] a,\\nb; output reg c;\\nendmodule => <1 m a,; 2 in [0:7] a,b,; 3 out reg c,>
module m; wire a; wire [1:0] b, c = 2'b10, d; reg [7:0] q, r; supply0 z; supply1 [1:0] o, p; endmodule => <1 m ; 1 \
    wire a=-,; 1 wire [1:0] b=-,c='10,d=-,; 1 reg [7:0] q,r,; 1 zero z,; 1 one [1:0] o,p,>";

const ITEMS: &str = "
module m; assign a = b, c[1] = d, {e, f[3:0], {g}} = h; endmodule => <1 m ; 1 a=b,c[1]=d,{e,f[3:0],{g,},}=h,>
module m; nand (a, b, c), g1(d, e); not n(f, g); buf(a,b,c,d,e,f); xnor(a, b & c); endmodule => <1 m ; 1 Nand \
    (a,b,c,)g1(d,e,); 1 Not n(f,g,); 1 Buf (a,b,c,d,e,f,); 1 Xnor (a,(b And c),)>
module m; and(a, b, c); or(a, b); nor(a, b); xor g(a, b, c); endmodule => <1 m ; 1 And (a,b,c,); 1 Or (a,b,); 1 Nor \
    (a,b,); 1 Xor g(a,b,c,)>
module m; box u(), v(a), w(a, , b[2]), x(,), y(.p(a), .q()), z(.r(a & b)); endmodule => <1 m ; 1 box \
    u()v(a,)w(a,-,b[2],)x(-,-,)y(p=a,q=-,)z(r=(a And b),)>
module m; always @(posedge c) q <= d; always @(negedge c[2]) {q, r[3:0]} <= d & e; endmodule => <1 m ; 1 rise c q=d; 1 \
    fall c[2] {q,r[3:0],}=(d And e)>
module m; always @(negedge c) q[2] <= d; always @(posedge c) q[3:0] <= {d, e}; endmodule => <1 m ; 1 fall c q[2]=d; 1 \
    rise c q[3:0]={d,e,}>";

const EXPRESSIONS: &str = "
module m; assign y = a | b ^ c & d; assign y = a & b ^ c | d; endmodule => <1 m ; 1 y=(a Or (b Xor (c And d))),; 1 \
    y=(((a And b) Xor c) Or d),>
module m; assign y = a & b & c; assign y = (a & b) & c; assign y = a & (b & c); endmodule => <1 m ; 1 y=(a And b And \
    c),; 1 y=((a And b) And c),; 1 y=(a And (b And c)),>
module m; assign y = a ~^ b ^~ c ^ d; assign y = ~~a & ~(~b); assign y = ~(a | b); endmodule => <1 m ; 1 y=(a Xnor b \
    Xnor c Xor d),; 1 y=(~2 a And ~1 ~1 b),; 1 y=~1 (a Or b),>
module m; assign y = a ? b : c ? d : e; assign y = a ? b : (c ? d : e); assign y = (a ? b : c) ? d : e; endmodule => \
    <1 m ; 1 y=(a ? b : c ? d : e),; 1 y=(a ? b : (c ? d : e)),; 1 y=((a ? b : c) ? d : e),>
module m; assign y = a | b ? c ? d : e : f & g; endmodule => <1 m ; 1 y=((a Or b) ? (c ? d : e) : (f And g)),>
module m; assign y = {a, b[1], {c}, 2'b01, 7}; assign y = {3{a, b}}; assign y = {3, {2{a}}}; assign y = ((a)); \
    endmodule => <1 m ; 1 y={a,b[1],{c,},'01,7,},; 1 y=3{a,b,},; 1 y={3,2{a,},},; 1 y=a,>";

// How operators on words and reductions are grouped.
const GROUPINGS: &str = "
module m; assign y = a << b + c; endmodule => <1 m ; 1 y=(a Left (b Plus c)),>
module m; assign y = a + b << c; endmodule => <1 m ; 1 y=((a Plus b) Left c),>
module m; assign y = a < b << c; endmodule => <1 m ; 1 y=(a Less (b Left c)),>
module m; assign y = a << b < c; endmodule => <1 m ; 1 y=((a Left b) Less c),>
module m; assign y = a == b < c; endmodule => <1 m ; 1 y=(a Equal (b Less c)),>
module m; assign y = a < b == c; endmodule => <1 m ; 1 y=((a Less b) Equal c),>
module m; assign y = a & b == c; endmodule => <1 m ; 1 y=(a And (b Equal c)),>
module m; assign y = a == b & c; endmodule => <1 m ; 1 y=((a Equal b) And c),>
module m; assign y = a && b | c; endmodule => <1 m ; 1 y=(a Both (b Or c)),>
module m; assign y = a | b && c; endmodule => <1 m ; 1 y=((a Or b) Both c),>
module m; assign y = a || b && c; endmodule => <1 m ; 1 y=(a Either (b Both c)),>
module m; assign y = a && b || c; endmodule => <1 m ; 1 y=((a Both b) Either c),>
module m; assign y = a || b ? c : d || e; endmodule => <1 m ; 1 y=((a Either b) ? c : (d Either e)),>
module m; assign y = a || b && c | d ^ e & f == g < h << i + j; endmodule => <1 m ; 1 y=(a Either (b Both (c Or (d Xor \
    (e And (f Equal (g Less (h Left (i Plus j))))))))),>
module m; assign y = a + b << c < d == e & f ^ g | h && i || j; endmodule => <1 m ; 1 y=(((((((((a Plus b) Left c) \
    Less d) Equal e) And f) Xor g) Or h) Both i) Either j),>
module m; assign y = a + b - c + d; endmodule => <1 m ; 1 y=(a Plus b Minus c Plus d),>
module m; assign y = a - (b - c); endmodule => <1 m ; 1 y=(a Minus (b Minus c)),>
module m; assign y = (a - b) - c; endmodule => <1 m ; 1 y=((a Minus b) Minus c),>
module m; assign y = a << b >> c; endmodule => <1 m ; 1 y=(a Left b Right c),>
module m; assign y = a < b <= c > d >= e; endmodule => <1 m ; 1 y=(a Less b LessEqual c Greater d GreaterEqual e),>
module m; assign y = a == b != c; endmodule => <1 m ; 1 y=(a Equal b NotEqual c),>
module m; assign y = a && b && c; endmodule => <1 m ; 1 y=(a Both b Both c),>
module m; assign y = a || b || c; endmodule => <1 m ; 1 y=(a Either b Either c),>
module m; assign y = !a; endmodule => <1 m ; 1 y=None a,>
module m; assign y = &a; endmodule => <1 m ; 1 y=All a,>
module m; assign y = ~&a; endmodule => <1 m ; 1 y=NotAll a,>
module m; assign y = |a; endmodule => <1 m ; 1 y=Any a,>
module m; assign y = ~|a; endmodule => <1 m ; 1 y=NotAny a,>
module m; assign y = ^a; endmodule => <1 m ; 1 y=Odd a,>
module m; assign y = ~^a; endmodule => <1 m ; 1 y=NotOdd a,>
module m; assign y = ^~a; endmodule => <1 m ; 1 y=NotOdd a,>
module m; assign y = ~!a; endmodule => <1 m ; 1 y=~1 None a,>
module m; assign y = !~a; endmodule => <1 m ; 1 y=None ~1 a,>
module m; assign y = ~~&~~~a; endmodule => <1 m ; 1 y=~1 NotAll ~3 a,>
module m; assign y = ~ &a; endmodule => <1 m ; 1 y=~1 All a,>
module m; assign y = a & &b; endmodule => <1 m ; 1 y=(a And All b),>
module m; assign y = a &&& b; endmodule => <1 m ; 1 y=(a Both All b),>
module m; assign y = a ||| b; endmodule => <1 m ; 1 y=(a Either Any b),>
module m; assign y = a & ~&b; endmodule => <1 m ; 1 y=(a And NotAll b),>
module m; assign y = a ^ ^b; endmodule => <1 m ; 1 y=(a Xor Odd b),>
module m; assign y = a ^ ~b; endmodule => <1 m ; 1 y=(a Xor ~1 b),>
module m; assign y = a ^~b; endmodule => <1 m ; 1 y=(a Xnor b),>
module m; assign y = &a & |b; endmodule => <1 m ; 1 y=(All a And Any b),>
module m; assign y = !a == b; endmodule => <1 m ; 1 y=(None a Equal b),>
module m; assign y = !(a == b); endmodule => <1 m ; 1 y=None (a Equal b),>
module m; assign y = !(!a); endmodule => <1 m ; 1 y=None None a,>
module m; assign y = &{a, b}; endmodule => <1 m ; 1 y=All {a,b,},>
module m; assign y = {2{&a}}; endmodule => <1 m ; 1 y=2{All a,},>
module m; assign y = a <= b; endmodule => <1 m ; 1 y=(a LessEqual b),>
// the first sign of a clocked assignment is no operator
module m; always @(posedge c) q <= a <= b; always @(posedge c) q <= a < b; endmodule => <1 m ; 1 rise c q=(a LessEqual \
    b); 1 rise c q=(a Less b)>";

#[test]
fn texts_read_as_sources(rt: HostRuntime) -> Result<(), Fail> {
    rows(&rt, rt.alloc(), HEADERS_AND_DECLARATIONS)?;
    rows(&rt, rt.alloc(), ITEMS)?;
    rows(&rt, rt.alloc(), EXPRESSIONS)?;
    rows(&rt, rt.alloc(), GROUPINGS)
}
