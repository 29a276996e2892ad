//! The module of an adder, stage by stage, and the full adder after it. Each stage is an instance, so that a stage
//! becomes a box by the exchange of one word.

ghost use Rattle.std.specs.Prelude.{◌≡◌, ◌<◌, ◌++◌, OnOk};
ghost use Rattle.std.specs.List.{flat_map, range_with_len};
ghost use Rattle.bb_make.specs.Adders.{adder, cell, stage_connections, hole, stage_line};
ghost use Rattle.bb_make.specs.Commas.{comma_separated};

use crate::ports::{push_carry, push_header, push_numbered};
use bb_bits::NoMemory;

fn push_connections(text: &mut Vec<u8>, n: u32, i: u32) -> Result<(), NoMemory>
    requires stage { i < n }
    ensures text { OnOk result (text.new.items ≡ text.old.items ++ comma_separated (stage_connections n i)) }
{
    push_numbered(text, "a", i)?;
    push_numbered(text, ",b", i)?;
    text.extend_from_slice(b",")?;
    push_carry(text, n, i)?;
    push_numbered(text, ",s", i)?;
    text.extend_from_slice(b",")?;
    push_carry(text, n, i + 1)?;
    Ok(())
}

fn push_stage(text: &mut Vec<u8>, cell: &str, n: u32, i: u32) -> Result<(), NoMemory>
    requires stage { i < n }
    ensures text { OnOk result (text.new.items ≡ text.old.items ++ stage_line cell.now n i) }
{
    text.extend_from_slice(cell.as_bytes())?;
    push_numbered(text, " u", i)?;
    text.extend_from_slice(b"(")?;
    push_connections(text, n, i)?;
    text.extend_from_slice(b");\n")?;
    Ok(())
}

fn cell(gap: Option<u32>, i: u32) -> &'static str
    ensures cell { result.now ≡ cell gap i }
{
    if gap == Some(i) { "hole" } else { "fa" }
}

fn push_stages(text: &mut Vec<u8>, gap: Option<u32>, n: u32) -> Result<(), NoMemory>
    ensures text { OnOk result (text.new.items
        ≡ text.old.items ++ flat_map (λ i. stage_line (cell gap i) n i) (range_with_len 0 n)) }
{
    for i in 0..n {
        push_stage(text, cell(gap, i), n, i)?;
    }
    Ok(())
}

/// Appends an adder; `gap` is the stage that is the box, if any, and stage 0 adds the least significant bits.
pub fn push_adder(text: &mut Vec<u8>, gap: Option<u32>, n: u32) -> Result<(), NoMemory>
    ensures text { OnOk result (text.new.items ≡ text.old.items ++ adder gap n) }
{
    push_header(text, n)?;
    push_stages(text, gap, n)?;
    text.extend_from_slice(b"endmodule\n")?;
    text.extend_from_slice(b"module fa(a,b,c,s,o);\ninput a,b,c;\noutput s,o;\n")?;
    text.extend_from_slice(b"xor(s,a,b,c);\nassign o = a & b | a & c | b & c;\nendmodule\n")?;
    Ok(())
}

/// Appends the black box: a module with the ports of the full adder and nothing else.
pub fn push_hole(text: &mut Vec<u8>) -> Result<(), NoMemory>
    ensures text { OnOk result (text.new.items ≡ text.old.items ++ hole) }
{
    text.extend_from_slice(b"module hole(a,b,c,s,o);\ninput a,b,c;\noutput s,o;\nendmodule\n")
}
