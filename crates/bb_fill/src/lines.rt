//! The lines of the filled text, each one item of the language. Nets that gates and assignments drive are implicit
//! (IEEE 1364-2005, 4.5) and have no `wire` line: each would count against the bounds.

ghost use Rattle.std.specs.Prelude.{◌≡◌, ◌<◌, ◌++◌, ◌∷◌, [], if◌then◌else◌, codes, decimal, length, map, replicate};
ghost use Rattle.std.specs.List.{flat_map};
ghost use Rattle.bb_fill.specs.Words.{CellNet, Named, printed, word_at, word_text};
ghost use Rattle.bb_fill.specs.Lines.{Always, Assign, Buf, Gate, with_commas, line_text};
ghost use Rattle.bb_fill.specs.Inside.TextBuffers.{Adds};

use crate::text_buffer::TextBuffer;
use crate::words::{put_name, put_net, put_word};
use bb_bits::Name;
use bb_net::{Flat, Reg};

fn put_declaration(out: &mut TextBuffer, kind: &str, name: &Name)
    ensures adds { Adds out.old out.new (kind.now ++ printed name.now ++ codes ";\n") }
{
    out.put(kind.as_bytes());
    put_name(out, name);
    out.put(b";\n");
}

/// `kind` with a blank after it.
pub(crate) fn put_declarations(out: &mut TextBuffer, kind: &str, names: &[Name])
    ensures adds { Adds out.old out.new (flat_map (λ name. kind.now ++ printed name ++ codes ";\n") names.now) }
{
    for name in names {
        put_declaration(out, kind, name);
    }
}

pub(crate) fn put_registers(out: &mut TextBuffer, regs: &[Reg])
    ensures adds { Adds out.old out.new (flat_map (λ r. codes "reg " ++ printed r.text ++ codes ";\n") regs.now) }
{
    for reg in regs {
        put_declaration(out, "reg ", &reg.text);
    }
}

// The output is the first terminal of a gate (IEEE 1364-2005, 7.2).
fn put_gate(out: &mut TextBuffer, gate: &str, stem: usize, number: u32)
    ensures adds { Adds out.old out.new (gate.now ++ codes "(" ++ (replicate stem 95 ++ decimal number)) }
{
    out.put(gate.as_bytes());
    out.put(b"(");
    put_net(out, stem, number);
}

fn put_operand(out: &mut TextBuffer, flat: &Flat, stem: usize, place: u32)
    requires there { place < length flat.now.net.cells }
    ensures adds { Adds out.old out.new (codes "," ++ word_text (replicate stem 95) (word_at flat.now place)) }
{
    out.put(b",");
    put_word(out, flat, stem, place);
}

pub(crate) fn put_gate_of_one(
    out: &mut TextBuffer,
    flat: &Flat,
    gate: &str,
    stem: usize,
    number: u32,
    a: u32,
)
    requires there { a < length flat.now.net.cells }
    ensures adds { Adds out.old out.new (gate.now ++ codes "("
        ++ with_commas (map (word_text (replicate stem 95)) (CellNet number ∷ word_at flat.now a ∷ []))
        ++ codes ");\n") }
{
    put_gate(out, gate, stem, number);
    put_operand(out, flat, stem, a);
    out.put(b");\n");
}

pub(crate) fn put_gate_of_two(
    out: &mut TextBuffer,
    flat: &Flat,
    gate: &str,
    stem: usize,
    number: u32,
    a: u32,
    b: u32,
)
    requires first { a < length flat.now.net.cells }
    requires second { b < length flat.now.net.cells }
    ensures adds { Adds out.old out.new (gate.now ++ codes "("
        ++ with_commas (map (word_text (replicate stem 95)) (CellNet number ∷ word_at flat.now a
        ∷ word_at flat.now b ∷ []))
        ++ codes ");\n") }
{
    put_gate(out, gate, stem, number);
    put_operand(out, flat, stem, a);
    put_operand(out, flat, stem, b);
    out.put(b");\n");
}

/// `t` where `c` is 1, `e` where it is 0.
pub(crate) fn put_multiplexer(
    out: &mut TextBuffer,
    flat: &Flat,
    stem: usize,
    number: u32,
    c: u32,
    t: u32,
    e: u32,
)
    requires condition { c < length flat.now.net.cells }
    requires high { t < length flat.now.net.cells }
    requires low { e < length flat.now.net.cells }
    ensures adds { Adds out.old out.new (line_text (replicate stem 95) (Assign (CellNet number) (word_at flat.now c)
        (word_at flat.now t) (word_at flat.now e))) }
{
    out.put(b"assign ");
    put_net(out, stem, number);
    out.put(b" = ");
    put_word(out, flat, stem, c);
    out.put(b" ? ");
    put_word(out, flat, stem, t);
    out.put(b" : ");
    put_word(out, flat, stem, e);
    out.put(b";\n");
}

/// A `buf`, which elaboration does not count as a cell.
pub(crate) fn put_copy(out: &mut TextBuffer, flat: &Flat, stem: usize, name: &Name, place: u32)
    requires there { place < length flat.now.net.cells }
    ensures adds { Adds out.old out.new (line_text (replicate stem 95) (Gate Buf (Named name.now)
        (word_at flat.now place ∷ []))) }
{
    out.put(b"buf(");
    put_name(out, name);
    put_operand(out, flat, stem, place);
    out.put(b");\n");
}

fn put_edge(out: &mut TextBuffer, falling: bool, clock: &Name)
    ensures adds { Adds out.old out.new (codes "always @("
        ++ (if falling then codes "negedge " else codes "posedge ") ++ printed clock.now ++ codes ") ") }
{
    out.put(b"always @(");
    if falling {
        out.put(b"negedge ");
    } else {
        out.put(b"posedge ");
    }
    put_name(out, clock);
    out.put(b") ");
}

/// The next state at the edge of the register's own clock.
pub(crate) fn put_register(
    out: &mut TextBuffer,
    flat: &Flat,
    stem: usize,
    reg: &Reg,
    clock: &Name,
    place: u32,
)
    requires there { place < length flat.now.net.cells }
    ensures adds { Adds out.old out.new (line_text (replicate stem 95) (Always reg.now.falling clock.now
        reg.now.text (word_at flat.now place))) }
{
    put_edge(out, reg.falling, clock);
    put_name(out, &reg.text);
    out.put(b" <= ");
    put_word(out, flat, stem, place);
    out.put(b";\n");
}
