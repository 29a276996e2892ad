//! Bit numbers in a scope: net by net, in each net from the leftmost bit on, so that the bits of a select are
//! consecutive.

ghost use Rattle.std.specs.Prelude.{◌≡◌, ◌≤◌, ◌<◌, ◌+◌, ◌++◌, ◌^◌, length, filter, Some, IfOk, OnOk};
ghost use Rattle.std.specs.List.{flat_map, range_with_len};
ghost use Rattle.bb_names.specs.Ranges.{range_width};
ghost use Rattle.bb_design.specs.Hierarchy.{Path};
ghost use Rattle.bb_design.specs.NetBits.{bits_of_net};
ghost use Rattle.bb_bits.specs.Inside.Places.{AreAt};
ghost use Rattle.bb_blast.specs.Inside.BitBlasting.{AreStarts, bit_count, is_port_of};

use bb_ast::{Dir, Range};
use bb_bits::NoMemory;
use bb_names::NetInfo;
use std::alloc::Global;

/// A net without a range has one bit.
pub(crate) fn range_width(range: Option<Range>) -> u32
    requires few { range_width range ≤ 1000000 }
    ensures width { result ≡ range_width range }
    ensures some { 1 ≤ result }
{
    match range {
        Some(range) => range.left.abs_diff(range.right) + 1,
        None => 1,
    }
}

pub(crate) fn add_run(numbers: &mut Vec<u32>, from: u32, count: u32) -> Result<(), NoMemory>
    requires room { from + count ≤ 2 ^ 32 }
    ensures run { OnOk result (numbers.new.items ≡ numbers.old.items ++ range_with_len from count) }
    ensures long { OnOk result (length numbers.new.items ≡ length numbers.old.items + count) }
{
    for turn in 0..count {
        numbers.push(from + turn)?;
    }
    Ok(())
}

pub(crate) fn count_bits(nets: &[NetInfo]) -> u32
    requires few { bit_count nets.now ≤ 1000000 }
    ensures count { result ≡ bit_count nets.now }
    ensures few { result ≤ 1000000 }
{
    let mut count = 0;
    for net in nets {
        count += range_width(net.range);
    }
    count
}

/// The sums of the widths of the nets before each.
pub(crate) fn starts_of(alloc: Global, nets: &[NetInfo]) -> Result<Vec<u32>, NoMemory>
    requires few { bit_count nets.now ≤ 1000000 }
    ensures starts { IfOk result (λ starts. AreStarts nets.now starts.items) }
    ensures long { IfOk result (λ starts. length starts.items ≡ length nets.now) }
{
    let mut starts = Vec::with_capacity(alloc, nets.len())?;
    let mut next = 0;
    for net in nets {
        starts.push(next)?;
        next += range_width(net.range);
    }
    Ok(starts)
}

fn is_port_of(net: &NetInfo, input: bool) -> bool
    ensures port { result ≡ is_port_of input net.now }
{
    match net.port {
        Some(Dir::Input) => input,
        Some(Dir::Output) => !input,
        None => false,
    }
}

/// Port by port, in the order of the header.
pub(crate) fn port_bits(
    alloc: Global,
    nets: &[NetInfo],
    starts: &[u32],
    input: bool,
) -> Result<Vec<u32>, NoMemory>
    requires starts { AreStarts nets.now starts.now }
    ensures bits { IfOk result (λ numbers. (path : Path)
        → AreAt (flat_map (bits_of_net path) nets.now) numbers.items (flat_map (bits_of_net path)
        (filter (is_port_of input) nets.now))) }
{
    let mut bits = Vec::new(alloc);
    for k in 0..nets.len() {
        let net = &nets[k];
        if is_port_of(net, input) {
            add_run(&mut bits, starts[k], range_width(net.range))?;
        }
    }
    Ok(bits)
}
