//! Two texts as a pair, or the first reason why they are refused. The specification becomes its flat netlist before the
//! implementation is read, and nothing else is kept of it, so two trees of syntax are never in memory together. A pair
//! takes its netlists by value, and with a care output its implementation is another netlist than the flat one; so the
//! flat netlist is copied before, and only where the filled implementation is requested. To make it anew from the bytes
//! would save 16 bytes a cell and cost the elaboration twice.

ghost use Rattle.std.specs.Prelude.{◌≡◌, ◌<◌, ◌⊎◌, ℕ, List, None, Some, length, option_copied, if◌then◌else◌, IfOk};
ghost use Rattle.std.specs.Prelude.{IfErr, MatchResult};
ghost use Rattle.bb_design.specs.Hierarchy.{Design};
ghost use Rattle.bb_implements.specs.Implements.{Implements};
ghost use Rattle.bb_equiv.specs.DesignEquivalence.{IsPairFor};
ghost use Rattle.bb_net.specs.Pairs.{NetPair, IsPair};
ghost use Rattle.bb_frontend.specs.declared.limit.TheConstants.{READ_LIMIT};
ghost use Rattle.bb_frontend.specs.declared.refusal.Refusal.{Refusal};
ghost use Rattle.bb_frontend.specs.TextDesigns.{IsDesignOf};
ghost use Rattle.bb_verdict.specs.Inside.Made.{IsMade};
ghost use Rattle.bb_verdict.specs.TextPairs.{AreDesignsOf, IsRefusal, ImplementsTexts};

use crate::requested::TextComparison;
use crate::text_laws::{designs_are_allowed, no_pair_and_refusal, refusals_are_one};
use bb_bits::{Name, NoMemory};
use bb_equiv::laws::nets_are_taken_as_designs;
use bb_frontend::{Refusal, flat_of, of_imp, of_pair, of_spec};
use bb_match::pair;
use bb_net::{Flat, Pair};
use std::alloc::Global;

/// `imp` is the implementation as it was before the pair was made; kept only where it is to be filled.
#[derive(Drop)]
pub struct Made {
    pub pair: Pair,
    pub imp: Option<Flat>,
}

fn bytes_of(given: &Option<Name>) -> Option<&[u8]>
    ensures bytes { option_copied result ≡ given.now }
{
    match given {
        Some(name) => Some(name.bytes()),
        None => None,
    }
}

pub(crate) fn spec_flat(
    alloc: Global,
    spec: &[u8],
    requested: &TextComparison,
) -> Result<Flat, Refusal>
    requires short { length spec.now < READ_LIMIT }
    ensures ok { IfOk result (λ flat. (s : Design) × IsDesignOf requested.now.spec_top spec.now s × Implements s flat) }
    ensures refusal { IfErr result (λ refusal. (refusal ≡ Refusal.NoMemory)
        ⊎ ((imp : List ℕ) → IsRefusal requested.now spec.now imp refusal)) }
{
    match flat_of(alloc, spec, bytes_of(&requested.spec_top)) {
        Ok(flat) => Ok(flat),
        Err(fault) => Err(of_spec(fault)),
    }
}

fn imp_flat(alloc: Global, imp: &[u8], requested: &TextComparison) -> Result<Flat, Refusal>
    requires short { length imp.now < READ_LIMIT }
    ensures ok { IfOk result (λ flat. (i : Design) × IsDesignOf requested.now.imp_top imp.now i × Implements i flat) }
    ensures refusal { IfErr result (λ refusal. (refusal ≡ Refusal.NoMemory)
        ⊎ ((spec : List ℕ) (s : Design) → IsDesignOf requested.now.spec_top spec s
        → IsRefusal requested.now spec imp.now refusal)) }
{
    match flat_of(alloc, imp, bytes_of(&requested.imp_top)) {
        Ok(flat) => Ok(flat),
        Err(fault) => Err(of_imp(fault)),
    }
}

// Makes the invariant of a pair a fact of the caller's proof.
pub(crate) fn keeps(pair: &Pair)
    ensures kept { IsPair pair.now }
{
    pair.imp();
}

fn kept(flat: &Flat, keep: bool) -> Result<Option<Flat>, NoMemory>
    ensures kept { IfOk result (λ kept. kept ≡ (if keep then Some flat.now else None)) }
{
    if keep {
        Ok(Some(flat.clone()?))
    } else {
        Ok(None)
    }
}

fn beside(alloc: Global, spec: Flat, imp: Flat, requested: &TextComparison) -> Result<Pair, Refusal>
    ensures ok { IfOk result (λ p. (s i : Design) → Implements s spec → Implements i imp
        → (for : IsPairFor requested.now.care requested.now.options.shared s i p) × (for.imp_net ≡ imp)) }
    ensures refusal { IfErr result (λ refusal. (refusal ≡ Refusal.NoMemory)
        ⊎ ((spec_text imp_text : List ℕ) (s i : Design) → AreDesignsOf requested.now spec_text imp_text s i
        → Implements s spec → Implements i imp → IsRefusal requested.now spec_text imp_text refusal)) }
{
    designs_are_allowed();
    nets_are_taken_as_designs();
    let care = bytes_of(&requested.care);
    match pair(alloc, spec, imp, care, requested.options.shared) {
        Ok(pair) => {
            keeps(&pair);
            Ok(pair)
        }
        Err(fault) => Err(of_pair(fault)),
    }
}

// The specification first: its faults come before those of the implementation.
fn make(alloc: Global, spec: &[u8], imp: &[u8], requested: &TextComparison) -> Result<Made, Refusal>
    requires spec { length spec.now < READ_LIMIT }
    requires imp { length imp.now < READ_LIMIT }
    ensures ok { IfOk result (IsMade requested.now spec.now imp.now) }
    ensures refusal { IfErr result (λ refusal. (refusal ≡ Refusal.NoMemory)
        ⊎ IsRefusal requested.now spec.now imp.now refusal) }
{
    let of_spec = match spec_flat(alloc, spec, requested) {
        Ok(flat) => flat,
        Err(refusal) => return Err(refusal),
    };
    let of_imp = match imp_flat(alloc, imp, requested) {
        Ok(flat) => flat,
        Err(refusal) => return Err(refusal),
    };
    let imp = match kept(&of_imp, requested.fill) {
        Ok(imp) => imp,
        Err(NoMemory) => return Err(Refusal::NoMemory),
    };
    match beside(alloc, of_spec, of_imp, requested) {
        Ok(pair) => Ok(Made { pair, imp }),
        Err(refusal) => Err(refusal),
    }
}

/// The pair of two texts, and the flat netlist of the implementation where `fill` is set.
///
/// # Errors
///
/// The first fault: of the specification, else of the implementation, else of the two as a pair; or lack of memory.
pub fn pair_of(
    alloc: Global,
    spec: &[u8],
    imp: &[u8],
    requested: &TextComparison,
) -> Result<Made, Refusal>
    requires spec { length spec.now < READ_LIMIT }
    requires imp { length imp.now < READ_LIMIT }

    // The result is a pair of the two texts, or their first refusal.
    ensures ok { IfOk result (IsMade requested.now spec.now imp.now) }
    ensures refusal { IfErr result (λ refusal. (refusal ≡ Refusal.NoMemory)
        ⊎ IsRefusal requested.now spec.now imp.now refusal) }

    // A pair where there is one, and otherwise the first refusal, unless memory runs out.
    ensures only_pair { (p : NetPair) → ImplementsTexts requested.now spec.now imp.now p
        → IfErr result (λ refusal. refusal ≡ Refusal.NoMemory) }
    ensures only_refusal { (first : Refusal) → IsRefusal requested.now spec.now imp.now first
        → MatchResult result (λ made. ⊥) (λ refusal. (refusal ≡ first) ⊎ (refusal ≡ Refusal.NoMemory)) }
{
    refusals_are_one();
    no_pair_and_refusal();
    make(alloc, spec, imp, requested)
}
