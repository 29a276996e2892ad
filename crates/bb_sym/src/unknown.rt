//! The check by 0-1-X simulation over all vectors. It is the weakest and has the fewest variables: it loses every
//! correlation between box outputs, and finds what is wrong without any.

ghost use Rattle.std.specs.Prelude.{◌≡◌, ◌≤◌, ℕ, length, Some, IfOk, OnOk, IsErrOf, IfSome, IfNone};
ghost use Rattle.bb_bits.specs.Truth.{IsBeadOfAny};
ghost use Rattle.bb_bits.specs.TruthSets.{HasMoreThan};
ghost use Rattle.bb_net.specs.Conditions.{IsKnownWrong, MayBeRight, MayBeRightEverywhere};
ghost use Rattle.bb_sym.specs.Functions.{mismatch, symbolic_functions};
ghost use Rattle.bb_sym.specs.Finds.{FindsOutput};
ghost use Rattle.bb_sym.specs.Inside.Made.{Makes, AreTooMany, RepresentAll, RepresentFirst};

use crate::mismatches::{input_cells, known_wrong_outputs};
use crate::searching::first_true;
use crate::{Found, RungFault};
use bb_bits::truth;
use bb_dd::{Diagrams, Ref};
use bb_net::Pair;
use bb_uniq::laws;
use std::alloc::Global;

/// The first output that is known and wrong at some vector, and the least such vector.
///
/// # Errors
///
/// `Nodes` exactly where the functions of the check have more than `nodes` beads.
pub fn symbolic(
    alloc: Global,
    pair: &Pair,
    nodes: u32,
    cache: u32,
) -> Result<Option<Found>, RungFault>
    requires nodes { nodes ≤ 50000000 }
    requires cache_least { 1 ≤ cache }
    requires cache_most { cache ≤ 1048576 }
    ensures found { IfOk result (λ answer. IfSome answer
        (FindsOutput pair.now.imp (IsKnownWrong pair.now.spec pair.now.imp) (MayBeRight pair.now.spec pair.now.imp))) }
    ensures none { IfOk result (λ answer. IfNone answer (MayBeRightEverywhere pair.now.spec pair.now.imp)) }
    ensures nodes { IsErrOf result RungFault.Nodes
        → HasMoreThan (IsBeadOfAny (symbolic_functions pair.now.spec pair.now.imp)) nodes }
    ensures within { HasMoreThan (IsBeadOfAny (symbolic_functions pair.now.spec pair.now.imp)) nodes → OnOk result ⊥ }
{
    truth::sizes();
    laws::sequences();
    let inputs = pair.imp().inputs();
    let mut d = Diagrams::start(alloc, inputs, nodes, cache)?;
    let wrong = symbolic_diagrams(alloc, &mut d, pair)?;
    d.is_canonical();
    let mut point = vec![in alloc; false; inputs as usize]?;
    match first_true(&d, &wrong, &mut point) {
        Some(j) => Ok(Some(Found {
            output: Some(j as u32),
            input: point,
        })),
        None => Ok(None),
    }
}

fn symbolic_diagrams(alloc: Global, d: &mut Diagrams, pair: &Pair) -> Result<Vec<Ref>, RungFault>
    requires vars { pair.now.imp.inputs ≡ d.old.store.vars }
    ensures refs { IfOk result (λ refs.
        RepresentFirst d.new.store (mismatch pair.now.spec pair.now.imp) (length pair.now.imp.outs) refs.items) }
    ensures makes { OnOk result (Makes d.old.store d.new.store (symbolic_functions pair.now.spec pair.now.imp)) }
    ensures nodes { IsErrOf result RungFault.Nodes
        → AreTooMany d.old.store (symbolic_functions pair.now.spec pair.now.imp) }
{
    let made = input_cells(alloc, d, pair)?;
    let refs = known_wrong_outputs(alloc, d, pair, &made)?;
    Ok(refs)
}
