//! Small designs with the names of their netlists and values of their outputs. The module t is on top. Names were
//! worked out by hand, and values are those that the scripts in contrib/ find from the texts alone: `contrib/check`
//! reads this file and finds them anew.

/// The designs, with an empty line between two: a name with what it shows, the text, the names, and values. Names are
/// the inputs, registers with edge and number of the clock, outputs, boxes with their pins. A line of values has a
/// table for each box, its rows one after the other, and then vectors with their outputs: a bit for each input and
/// register, and one for each output and next state. Up to five inputs all vectors are there, else some. A stroke
/// stands for a table without bits.
pub(crate) const DESIGNS: &str = r#"design ADDER: Two half adders.
module t(a, b, c, s, o); input a, b, c; output s, o; ha u1(a, b, p, q), u2(.c(r), .y(c), .x(p), .s(s)); or(o, q, r);
endmodule
module ha(x, y, s, c); input x, y; output s, c; xor(s, x, y); and(c, x, y); endmodule
names in a b c out s o
values: 000:00 001:10 010:10 011:01 100:10 101:01 110:01 111:11

design SELECTS: Selects and parts, whose indices fall or rise.
module t(a, b, y, z); input [3:0] a; input [0:3] b; output [5:2] y; output [0:3] z;
assign y[5:4] = a[2:1]; assign y[3:2] = b[1:2], z[0:1] = {b[3], a[0]}; assign {z[3], z[2]} = a[3:2] ^ b[0:1]; endmodule
names in a[3] a[2] a[1] a[0] b[0] b[1] b[2] b[3] out y[5] y[4] y[3] y[2] z[0] z[1] z[2] z[3]
values: 00000000:00000000 00000001:00001000 00000010:00010000 00000100:00100010 00000110:00110010 00001000:00000001
values: 00010000:00000100 00010011:00011100 00010111:00111110 00100000:01000000 00100010:01010000 00100100:01100010
values: 00100110:01110010 00110110:01110110 00111111:01111111 01000000:10000010 01000010:10010010 01000100:10100000
values: 01000110:10110000 01001000:10000011 01001100:10100001 01100000:11000010 01100010:11010010 01100100:11100000
values: 01100110:11110000 01111011:11011111 01111111:11111101 10000000:00000001 10010000:00000101 10011000:00000100
values: 10101000:01000000 10110011:01011101 10111111:01111110 11000010:10010011 11000011:10011011 11011111:10111100
values: 11101111:11111000 11110111:11111101 11111011:11011110 11111101:11101100 11111110:11110100 11111111:11111100

design REPEATS: Parts side by side, and several times.
module t(a, b, y, z); input a; input [1:0] b; output [7:0] y; output [2:0] z;
assign y = {2{b, a, ~b[0]}}; assign {z[0], z[2:1]} = {3{a & b[1]}} ^ {b, a}; endmodule
names in a b[1] b[0] out y[7] y[6] y[5] y[4] y[3] y[2] y[1] y[0] z[2] z[1] z[0]
values: 000:00010001000 001:01000100100 010:10011001001 011:11001100101 100:00110011010 101:01100110110 110:10111011100
values: 111:11101110000

design REGISTERS: A register with an enable, and one of the falling edge.
module t(clk, en, d, q, n); input clk, en; input [1:0] d; output [1:0] q; output n; reg f; reg [1:0] r;
always @(posedge clk) r <= en ? d : r; always @(negedge clk) f <= r[1] & d; assign q = r; xor(n, f, r[0]); endmodule
names in clk en d[1] d[0] neg f@0 pos r[1]@0 pos r[0]@0 out q[1] q[0] n
values: 0000000:000000 0000001:011001 0000010:100010 0000011:111011 0000100:001000 0001000:000000 0001001:011001
values: 0001010:100110 0001011:111111 0001100:001000 0001111:110111 0010000:000000 0010001:011001 0010010:100010
values: 0010011:111011 0011000:000000 0011001:011001 0011010:100110 0011011:111111 0011111:110111 0100000:000000
values: 0100001:011000 0100010:100000 0100011:111000 0100110:101000 0101000:000001 0101001:011001 0101010:100101
values: 0101011:111101 0110000:000010 0110001:011010 0110010:100010 0110011:111010 0111000:000011 0111001:011011
values: 0111010:100111 0111011:111111 0111111:110111 1000000:000000 1000010:100010 1000101:010001 1010100:001000
values: 1011001:011001 1011110:101110 1011111:110111 1101001:011001 1101111:110101 1110111:110010 1111011:111111
values: 1111101:010011 1111110:101111 1111111:110111

design CLOCKS: Registers in instances, whose clocks come over copies, over a gate and out of a bus.
module t(c, d, y); input [1:0] c; input d; output y; m u(c[0], d, v), w(x, v, z); and(g, c[1], d);
m x1(.q(y), .c(g), .d(z));
buf(e, c[1]); assign x = ~~e; reg r; always @(posedge e) r <= y; endmodule
module m(c, d, q); input c, d; output reg q; always @(posedge c) q <= ~d; endmodule
names in c[1] c[0] d pos r@0 pos u.q@1 pos w.q@0 pos x1.q@? out y
values: 0000000:00111 0000001:11111 0000010:00110 0000100:00101 0001000:00111 0001100:00101 0001111:11100 0010000:00011
values: 0011000:00011 0011001:11011 0011111:11000 0100000:00111 0100110:00100 0110001:11011 0111111:11000 1000000:00111
values: 1000010:00110 1000101:11101 1010100:00001 1011001:11011 1011110:00000 1011111:11000 1101001:11111 1101111:11100
values: 1110111:11000 1111011:11010 1111101:11001 1111110:00000 1111111:11000

design COPIES: Copies of copies, through instances and gates of one input.
module t(a, y); input [1:0] a; output [1:0] y; wire [1:0] v, w, x; assign v = {a[0], a[1]}; buf(w[0], v[1]);
or(w[1], v[0]);
k u(w, x); k v1(.q(y), .p(x)); endmodule
module k(p, q); input [1:0] p; output [1:0] q; wire [0:1] m = ~~p; n u({m[0], m[1]}, q); endmodule
module n(p, q); input [1:0] p; output [0:1] q; assign q = p; endmodule
names in a[1] a[0] out y[1] y[0]
values: 00:00 01:01 10:10 11:11

design SUPPLIES: Constants.
module t(a, y, z); input a; output [2:0] y; output z; supply1 [1:0] h; supply0 l; assign y = {h[0], l, a} ^ h;
k u(l, z);
endmodule
module k(p, q); input p; output q; supply1 h; xor(q, p, h); endmodule
names in a out y[2] y[1] y[0] z
values: 0:1111 1:1101

design GATES: Gates with several outputs, and each gate with one, two and three inputs.
module t(a, b, c, y, z, w); input a, b, c; output [1:3] y; output [17:0] z; output w; buf(y[2], y[1], a);
not(y[3], w, b);
and g1(z[0], a), g2(z[1], a, b), (z[2], a, b, c); nand(z[3], a), (z[4], a, b), (z[5], a, b, c);
or(z[6], a), (z[7], a, b), (z[8], a, b, c);
nor(z[9], a), (z[10], a, b), (z[11], a, b, c); xor(z[12], a), (z[13], a, b), (z[14], a, b, c);
xnor(z[15], a), (z[16], a, b), (z[17], a, b, c); endmodule
names in a b c out y[1] y[2] y[3] z[17] z[16] z[15] z[14] z[13] z[12] z[11] z[10] z[9] z[8] z[7] z[6] z[5] z[4] z[3] z[2] z[1] z[0] w
values: 000:0011110001110001110001 001:0010111000111001110001 010:0000011100011101110000 011:0001010100011101110000
values: 100:1110001110001111100011 101:1111000110001111100011 110:1101100010001111000110 111:1100101010001110001110

design CONDITIONS: Conditions of several bits, and branches of different widths.
module t(s, a, b, y, z); input [1:0] s, a; input b; output [2:0] y; output [1:0] z;
assign y = s ? a : s[0] ^ b ? b : {a, b}; assign z = (b ? s : a) ? ~b : a; endmodule
names in s[1] s[0] a[1] a[0] b out y[2] y[1] y[0] z[1] z[0]
values: 00000:00000 00001:00100 00010:01011 00011:00101 00100:10011 00101:00110 00110:11011 00111:00111 01000:00000
values: 01001:00010 01010:00111 01011:00110 01100:01011 01101:01010 01110:01111 01111:01110 10000:00000 10001:00010
values: 10010:00111 10011:00110 10100:01011 10101:01010 10110:01111 10111:01110 11000:00000 11001:00010 11010:00111
values: 11011:00110 11100:01011 11101:01010 11110:01111 11111:01110

design WIDTHS: What is wider or less wide than what it is given to.
module t(a, b, y, z, w, v); input a; input [1:0] b; output [3:0] y; output [1:0] z; output [2:0] w, v;
assign y = ~a, z = {a, b} ^ 3'b101, w = b | 5; wire c = ~b; assign v = {c, a} ~^ b | 4'b10_00; endmodule
names in a b[1] b[0] out y[3] y[2] y[1] y[0] z[1] z[0] w[2] w[1] w[0] v[2] v[1] v[0]
values: 000:111101101101 001:111100101110 010:111111111111 011:111110111100 100:111001101100 101:111000101111
values: 110:111011111110
values: 111:111010111101

design BOXES: A box in the top and one in an instance, one behind the other.
module t(a, b, y, z); input a, b; output y, z; m v(w, z); bx u(.i({a, b}), .o(w)); xor(y, w, a); endmodule
module m(p, q); input p; output q; b1 x(.i(p), .o(r)); not(q, r); endmodule
module bx(o, i); output o; input [1:0] i; endmodule
module b1(i, o); input i; output o; wire o; endmodule
names in a b out y z box u: i[1] i[0] -> o box v.x: i -> o
values 0000 00: 00:01 01:01 10:11 11:11
values 0110 10: 00:00 01:11 10:01 11:10
values 1011 01: 00:10 01:01 10:00 11:00
values 0001 11: 00:00 01:00 10:10 11:00

design PINS: A box with an output port that is open, and one with a constant at an input.
module t(a, y, z); input a; output [0:1] y; output z; bx u(a ^ 1'b1, , y); b2 v(.j(a), .o(z), .i(1'b1)); endmodule
module bx(i, o, p); input i; output o; output [0:1] p; endmodule module b2(i, j, o); input i, j; output o; endmodule
names in a out y[0] y[1] z box u: i -> o p[0] p[1] box v: i j -> o
values 000000 0000: 0:000 1:000
values 101011 0110: 0:111 1:010
values 010101 0001: 0:010 1:101

design CHAINED: Boxes one behind the other, the later one first in the text.
module t(a, y); input a; output y; bx u1(w, y); bx u2(a, w); endmodule module bx(i, o); input i; output o; endmodule
names in a out y box u2: i -> o box u1: i -> o
values 01 01: 0:0 1:1
values 10 10: 0:0 1:1
values 11 01: 0:1 1:1
values 01 10: 0:1 1:0

design ENDS: A box without inputs and one without outputs.
module t(a, y); input a; output y; b0 u(y); b1 v({a, y}); endmodule
module b0(o); output o; endmodule module b1(i); input [1:0] i; endmodule
names in a out y box u: -> o box v: i[1] i[0] ->
values 0 -: 0:0 1:0
values 1 -: 0:1 1:1

design STATES: A box between registers.
module t(c, a, y); input c, a; output y; reg [1:0] q; bx u(q[1], w); always @(posedge c) q <= {w, a & q[1]};
not(y, q[0]);
endmodule
module bx(i, o); input i; output o; endmodule
names in c a pos q[1]@0 pos q[0]@0 out y box u: i -> o
values 00: 0000:100 0001:000 0010:100 0011:000 0100:100 0101:000 0110:101 0111:001 1000:100 1001:000 1010:100 1011:000
values 00: 1100:100 1101:000 1110:101 1111:001
values 01: 0000:100 0001:000 0010:110 0011:010 0100:100 0101:000 0110:111 0111:011 1000:100 1001:000 1010:110 1011:010
values 01: 1100:100 1101:000 1110:111 1111:011
values 10: 0000:110 0001:010 0010:100 0011:000 0100:110 0101:010 0110:101 0111:001 1000:110 1001:010 1010:100 1011:000
values 10: 1100:110 1101:010 1110:101 1111:001
values 11: 0000:110 0001:010 0010:110 0011:010 0100:110 0101:010 0110:111 0111:011 1000:110 1001:010 1010:110 1011:010
values 11: 1100:110 1101:010 1110:111 1111:011

design ESCAPED: Names with bytes that stand for something else in other places.
module t(\a.b , y); input \a.b ; output y; wire \w;x ; buf(\w;x , \a.b ); k \u[0] (\w;x , y); endmodule
module k(p, q); input p; output q; reg \r[1] ; always @(negedge p) \r[1] <= p; buf(q, \r[1] ); endmodule
names in a.b neg u[0].r[1]@0 out y
values: 00:00 01:10 10:01 11:11

design WRITTEN: A hierarchy as it is written.
module t(clk, d, y); input clk; input [1:0] d; output y; stage u1(.clk(clk), .d(d), .y(y)); endmodule
module stage(clk, d, y); input clk; input [1:0] d; output y; reg [1:0] q; always @(posedge clk) q <= d ^ q;
assign y = q[1] & ~q[0]; endmodule
names in clk d[1] d[0] pos u1.q[1]@0 pos u1.q[0]@0 out y
values: 00000:000 00001:001 00010:110 00011:011 00100:001 00101:000 00110:111 00111:010 01000:010 01001:011 01010:100
values: 01011:001 01100:011 01101:010 01110:101 01111:000 10000:000 10001:001 10010:110 10011:011 10100:001 10101:000
values: 10110:111 10111:010 11000:010 11001:011 11010:100 11011:001 11100:011 11101:010 11110:101 11111:000

design SYNTHESIZED: The same as a tool writes it, with a box in place of the output's function.
`timescale 1ns/1ps
(* top = 1, src = "a.v:1 *)" *)
module t(clk, d, y);
  input clk; wire clk; input [1:0] d; wire [1:0] d; output y; wire y; reg \u1.q[1] ; reg \u1.q[0] ; wire _0_, _1_;
  always @(posedge clk) \u1.q[1] <= _1_;
  always @(posedge clk) \u1.q[0] <= _0_;
  xor g0(_0_, d[0], \u1.q[0] ); xor g1(_1_, d[1], \u1.q[1] );
  hole h(.i({\u1.q[1] , \u1.q[0] }), .o(y));
endmodule
(* blackbox *)
module hole(i, o); input [1:0] i; output o; endmodule
names in clk d[1] d[0] pos u1.q[1]@0 pos u1.q[0]@0 out y box h: i[1] i[0] -> o
values 0010: 00000:000 00001:001 00010:110 00011:011 00100:001 00101:000 00110:111 00111:010 01000:010 01001:011
values 0010: 01010:100
values 0010: 01011:001 01100:011 01101:010 01110:101 01111:000 10000:000 10001:001 10010:110 10011:011 10100:001
values 0010: 10101:000
values 0010: 10110:111 10111:010 11000:010 11001:011 11010:100 11011:001 11100:011 11101:010 11110:101 11111:000
values 1101: 00000:100 00001:101 00010:010 00011:111 00100:101 00101:100 00110:011 00111:110 01000:110 01001:111
values 1101: 01010:000
values 1101: 01011:101 01100:111 01101:110 01110:001 01111:100 10000:100 10001:101 10010:010 10011:111 10100:101
values 1101: 10101:100
values 1101: 10110:011 10111:110 11000:110 11001:111 11010:000 11011:101 11100:111 11101:110 11110:001 11111:100"#;

/// What is reported of a design: its text, its names, and its lines of values.
#[derive(Clone, Copy)]
pub(crate) struct Design<'d> {
    pub(crate) text: &'d str,
    pub(crate) names: &'d str,
    pub(crate) rows: &'d str,
}

/// The parts of a design.
pub(crate) fn parts(design: &str) -> Design<'_> {
    let (_, rest) = design.split_once("\n").unwrap_or((design, ""));
    let (text, rest) = rest.split_once("\nnames ").unwrap_or((rest, ""));
    let (names, rows) = rest.split_once("\n").unwrap_or((rest, ""));
    Design { text, names, rows }
}

/// The text of the design with this name, among some.
pub(crate) fn text_in<'d>(designs: &'d str, name: &str) -> Option<&'d str> {
    for design in designs.split("\n\n") {
        let (head, _) = design.split_once(": ").unwrap_or((design, ""));
        if head.strip_prefix("design ") == Some(name) {
            return Some(parts(design).text);
        }
    }
    None
}
