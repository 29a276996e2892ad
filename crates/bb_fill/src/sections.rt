//! The sections of the text in order: header, declarations, cells, outputs, registers. Cells come before outputs, so
//! that a line reads only what is driven before it.

ghost use Rattle.std.specs.Prelude.{◌≡◌, ◌<◌, ◌^◌, ◌++◌, [], ℕ, List, IsSome, IfSome, if◌then◌else◌, codes, length};
ghost use Rattle.std.specs.Prelude.{map, replicate, sum_by};
ghost use Rattle.std.specs.List.{flat_map, range_with_len};
ghost use Rattle.bb_net.specs.CutPoints.{state_texts};
ghost use Rattle.bb_net.specs.Kinds.{per_box};
ghost use Rattle.bb_net.specs.Values.{FitBoxes};
ghost use Rattle.bb_fill.specs.Words.{printed, stem_of};
ghost use Rattle.bb_fill.specs.Lines.{Module, line_text};
ghost use Rattle.bb_fill.specs.Lines as line;
ghost use Rattle.bb_net.specs.Flats.{HaveClocks};
ghost use Rattle.bb_fill.specs.Filled.{choice_count, filled_text, output_lines, register_line, register_lines};
ghost use Rattle.bb_fill.specs.Inside.Indexes.{IsIndex};
ghost use Rattle.bb_fill.specs.Inside.Ports.{begun_after, port_texts};
ghost use Rattle.bb_fill.specs.Inside.TextBuffers.{Adds};

use crate::cells::put_cells;
use crate::index::{Texts, is_register};
use crate::lines::{put_copy, put_declarations, put_register, put_registers};
use crate::parts::{output_count, output_place, output_text};
use crate::text_buffer::TextBuffer;
use crate::words::put_name;
use bb_bits::{Name, Table};
use bb_net::{Flat, Reg};

// A comma separates this port from one before it.
fn put_port(out: &mut TextBuffer, begun: bool, name: &Name)
    ensures adds { Adds out.old out.new ((if begun then codes "," else []) ++ printed name.now) }
{
    if begun {
        out.put(b",");
    }
    put_name(out, name);
}

// True once a port has come, since ports are printed from two lists.
fn put_ports(out: &mut TextBuffer, begun: bool, names: &[Name]) -> bool
    ensures adds { Adds out.old out.new (port_texts begun names.now) }
    ensures begun { result ≡ begun_after begun names.now }
{
    let mut begun = begun;
    for name in names {
        put_port(out, begun, name);
        begun = true;
    }
    begun
}

// Inputs before outputs, each in the order of the netlist.
fn put_header(out: &mut TextBuffer, flat: &Flat)
    ensures adds { (stem : List ℕ) → Adds out.old out.new (line_text stem (Module (flat.now.ins ++ flat.now.outs))) }
{
    out.put(b"module filled(");
    let begun = put_ports(out, false, flat.ins());
    put_ports(out, begun, flat.outs());
    out.put(b");\n");
}

fn put_all_declarations(out: &mut TextBuffer, flat: &Flat)
    ensures adds { (stem : List ℕ)
        → Adds out.old out.new (flat_map (line_text stem) (map line.Input flat.now.ins
        ++ map line.Output flat.now.outs ++ map line.Reg (state_texts flat.now))) }
{
    put_declarations(out, "input ", flat.ins());
    put_declarations(out, "output ", flat.outs());
    put_registers(out, flat.regs());
}

// An output with the text of a register is that register, and has no line.
fn put_output(out: &mut TextBuffer, flat: &Flat, texts: &Texts, stem: usize, o: u32)
    requires index { IsIndex flat.now texts.now.entries }
    requires there { o < length flat.now.outs }
    ensures adds { Adds out.old out.new (flat_map (line_text (replicate stem 95)) (output_lines flat.now o)) }
{
    let name = output_text(flat, o);
    if !is_register(flat, texts, name) {
        put_copy(out, flat, stem, name, output_place(flat, o));
    }
}

fn put_outputs(out: &mut TextBuffer, flat: &Flat, texts: &Texts, stem: usize)
    requires index { IsIndex flat.now texts.now.entries }
    ensures adds { Adds out.old out.new (flat_map (line_text (replicate stem 95)) (flat_map (output_lines flat.now)
        (range_with_len 0 (length flat.now.outs)))) }
{
    for o in 0..output_count(flat) {
        put_output(out, flat, texts, stem, o);
    }
}

fn put_state(out: &mut TextBuffer, flat: &Flat, stem: usize, r: u32, reg: &Reg)
    requires there { r < length flat.now.regs }
    requires clock { IsSome reg.now.clock }
    requires input { IfSome reg.now.clock (λ k. k < length flat.now.ins) }
    ensures adds { Adds out.old out.new (line_text (replicate stem 95) (register_line flat.now r reg.now)) }
{
    let Some(k) = reg.clock else {
        return;
    };
    let clock = &flat.ins()[k as usize];
    let place = output_place(flat, output_count(flat) + r);
    put_register(out, flat, stem, reg, clock, place);
}

fn put_states(out: &mut TextBuffer, flat: &Flat, stem: usize)
    requires clocks { HaveClocks flat.now }
    ensures adds { Adds out.old out.new (flat_map (line_text (replicate stem 95)) (register_lines flat.now 0
        flat.now.regs)) }
{
    for (r, reg) in flat.regs().iter().enumerate() {
        put_state(out, flat, stem, r as u32, reg);
    }
}

pub(crate) fn put_text(
    out: &mut TextBuffer,
    flat: &Flat,
    tables: &[Table],
    kinds: &[u32],
    texts: &Texts,
    stem: usize,
)
    requires clocks { HaveClocks flat.now }
    requires tables { FitBoxes (per_box kinds.now tables.now) flat.now.net.boxes }
    requires index { IsIndex flat.now texts.now.entries }
    requires room { sum_by (choice_count flat.now.net.boxes) flat.now.net.cells < 2 ^ 32 }
    requires stem { replicate stem 95 ≡ stem_of flat.now }
    ensures adds { Adds out.old out.new (filled_text flat.now (per_box kinds.now tables.now)) }
{
    put_header(out, flat);
    put_all_declarations(out, flat);
    put_cells(out, flat, tables, kinds, stem);
    put_outputs(out, flat, texts, stem);
    put_states(out, flat, stem);
    out.put(b"endmodule\n");
}
