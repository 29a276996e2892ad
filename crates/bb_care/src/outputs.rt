//! Chooses among the outputs of a netlist, by the permutation of `Net::rearranged` that leaves the inputs alone.

ghost use Rattle.std.specs.Prelude.{◌≡◌, ◌<◌, All, length, map, slice_index, IfOk};
ghost use Rattle.std.specs.List.{range_with_len};

use bb_bits::NoMemory;
use bb_net::Net;
use std::alloc::Global;

/// In increasing order: the permutation that changes nothing.
pub fn numbers_below(alloc: Global, bound: u32) -> Result<Vec<u32>, NoMemory>
    ensures numbers { IfOk result (λ numbers. numbers.items ≡ range_with_len 0 bound) }
{
    let mut numbers = Vec::with_capacity(alloc, bound as usize)?;
    for i in 0..bound {
        numbers.push(i)?;
    }
    Ok(numbers)
}

/// `picks` has numbers of outputs; cells and inputs stay, also those that no output needs any more.
pub fn with_outs(alloc: Global, net: Net, picks: &[u32]) -> Result<Net, NoMemory>
    requires there { All (λ j. j < length net.outs) picks.now }
    ensures net { IfOk result (λ new. new ≡ record net { outs = map (slice_index net.outs) picks.now }) }
{
    let numbers = numbers_below(alloc, net.inputs())?;
    net.rearranged(alloc, &numbers, picks)
}
