//! Equivalence by the BDDs of the check of all outputs: without boxes there is nothing to quantify, so that check is a
//! comparison.

ghost use Rattle.std.specs.Prelude.{◌≤◌, IfOk, OnOk, IfSome, IfNone, IsErrOf};
ghost use Rattle.bb_bits.specs.Truth.{IsBeadOfAny};
ghost use Rattle.bb_bits.specs.TruthSets.{HasMoreThan};
ghost use Rattle.bb_sym.specs.Functions.{output_functions};
ghost use Rattle.bb_miter.specs.Inside.Equivalence.{AreComparable, AreEquivalent, DiffersAt};

use bb_net::Net;
use bb_sym::{RungFault, output_of};
use std::alloc::Global;

/// The least vector at which some output differs; none where the netlists are equivalent.
///
/// # Errors
///
/// `Nodes` exactly where the functions of the check of all outputs have more than `nodes` beads.
pub fn difference(
    alloc: Global,
    spec: &Net,
    imp: &Net,
    nodes: u32,
    cache: u32,
) -> Result<Option<Vec<bool>>, RungFault>
    requires comparable { AreComparable spec.now imp.now }
    requires nodes { nodes ≤ 50000000 }
    requires cache_least { 1 ≤ cache }
    requires cache_most { cache ≤ 1048576 }
    ensures found { IfOk result (λ found. IfSome found (λ x. DiffersAt spec.now imp.now x.items)) }
    ensures none { IfOk result (λ found. IfNone found (AreEquivalent spec.now imp.now)) }
    ensures nodes { IsErrOf result RungFault.Nodes
        → HasMoreThan (IsBeadOfAny (output_functions spec.now imp.now)) nodes }
    ensures within { HasMoreThan (IsBeadOfAny (output_functions spec.now imp.now)) nodes → OnOk result ⊥ }
{
    let answer = output_of(alloc, spec, imp, nodes, cache)?;
    match answer {
        Some(found) => Ok(Some(found.input)),
        None => Ok(None),
    }
}
