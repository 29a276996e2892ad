//! The names of an adder's ports and carries. The two numbers are interleaved from the highest bit down: the order of
//! the specification's ports is the order of variables, and for an adder interleaved operands keep BDDs linear in the
//! width, while one number after the other makes them exponential (Knuth, TAOCP 4A, 7.1.4).

ghost use Rattle.std.specs.Prelude.{◌≡◌, ◌≤◌, ◌++◌, codes, length, OnOk};
ghost use Rattle.bb_make.specs.Adders.{carry, header, inputs, numbered, adder_outputs};
ghost use Rattle.bb_make.specs.Commas.{comma_separated};

use bb_bits::NoMemory;
use itoa::Buffer;

/// The number is in decimal, without leading zeros.
pub fn push_numbered(text: &mut Vec<u8>, name: &str, i: u32) -> Result<(), NoMemory>
    ensures text { OnOk result (text.new.items ≡ text.old.items ++ numbered name.now i) }
{
    text.extend_from_slice(name.as_bytes())?;
    let mut buffer = Buffer::new();
    text.extend_from_slice(buffer.format(i).as_bytes())?;
    Ok(())
}

/// `ci` into stage 0, `co` out of the last stage, and `c1`, `c2` and so on between.
pub fn push_carry(text: &mut Vec<u8>, n: u32, i: u32) -> Result<(), NoMemory>
    ensures text { OnOk result (text.new.items ≡ text.old.items ++ carry n i) }
{
    if i == 0 {
        text.extend_from_slice(b"ci")
    } else if i == n {
        text.extend_from_slice(b"co")
    } else {
        push_numbered(text, "c", i)
    }
}

/// Two for each bit, and the carry in.
#[tactic(auto, using(crate::proofs::Joined::inputs_counted))]
pub fn input_count(n: u32) -> u32
    requires width { n ≤ 256 }
    ensures count { result ≡ length (inputs n) }
{
    2 * n + 1
}

fn push_bits(text: &mut Vec<u8>, i: u32) -> Result<(), NoMemory>
    ensures text { OnOk result (text.new.items
        ≡ text.old.items ++ (numbered (codes "a") i ++ codes "," ++ numbered (codes "b") i ++ codes ",")) }
{
    push_numbered(text, "a", i)?;
    text.extend_from_slice(b",")?;
    push_numbered(text, "b", i)?;
    text.extend_from_slice(b",")?;
    Ok(())
}

fn push_inputs(text: &mut Vec<u8>, n: u32) -> Result<(), NoMemory>
    ensures text { OnOk result (text.new.items ≡ text.old.items ++ comma_separated (inputs n)) }
{
    for i in (0..n).rev() {
        push_bits(text, i)?;
    }
    text.extend_from_slice(b"ci")?;
    Ok(())
}

fn push_sum(text: &mut Vec<u8>, i: u32) -> Result<(), NoMemory>
    ensures text { OnOk result (text.new.items ≡ text.old.items ++ (numbered (codes "s") i ++ codes ",")) }
{
    push_numbered(text, "s", i)?;
    text.extend_from_slice(b",")?;
    Ok(())
}

fn push_outputs(text: &mut Vec<u8>, n: u32) -> Result<(), NoMemory>
    ensures text { OnOk result (text.new.items ≡ text.old.items ++ comma_separated (adder_outputs n)) }
{
    for i in (0..n).rev() {
        push_sum(text, i)?;
    }
    text.extend_from_slice(b"co")?;
    Ok(())
}

/// Ports are in the order of the header: all inputs and then all outputs, from the highest bit down.
pub fn push_header(text: &mut Vec<u8>, n: u32) -> Result<(), NoMemory>
    ensures text { OnOk result (text.new.items ≡ text.old.items ++ header (codes "add") (inputs n) (adder_outputs n)) }
{
    text.extend_from_slice(b"module add(")?;
    push_inputs(text, n)?;
    text.extend_from_slice(b",")?;
    push_outputs(text, n)?;
    text.extend_from_slice(b");\ninput ")?;
    push_inputs(text, n)?;
    text.extend_from_slice(b";\noutput ")?;
    push_outputs(text, n)?;
    text.extend_from_slice(b";\n")?;
    Ok(())
}
