//! The check by patterns: a pattern at which an output is known and wrong although every box is unknown. Patterns go
//! through in their order and the first pass with a hit ends it, so the answer is the first such pattern of the list.

ghost use Rattle.std.specs.Prelude.{◌≡◌, length, map, vec_items, All, IfOk, IfSome, IfNone};
ghost use Rattle.bb_net.specs.Conditions.{IsFirstHit, MayBeRightAmong};
ghost use Rattle.bb_tern.specs.Inside.Lanes.{HasRoom, IsHitAt, NoneIsHit};

use crate::lanes::Known;
use crate::passing::pass;
use bb_bits::NoMemory;
use bb_net::Pair;
use std::alloc::Global;

/// One lane for each bit of a word.
const LANES: usize = 64;

/// A pattern, and the first output that is known and wrong there, counted from 0.
#[derive(Debug, Drop)]
pub struct Hit {
    pub pattern: Vec<bool>,
    pub output: u32,
}

/// The first of the patterns that shows an error, and the first such output; none where no pattern does. A pattern has
/// a bit for each input of the pair, in order.
pub fn simulate(alloc: Global, pair: &Pair, patterns: &[Vec<bool>]) -> Result<Option<Hit>, NoMemory>
    requires { All (λ p. length p.items ≡ pair.now.imp.inputs) patterns.now }
    ensures hit { IfOk result (λ found. IfSome found (λ h.
        IsFirstHit pair.now.spec pair.now.imp (map vec_items patterns.now) h.pattern.items h.output)) }
    ensures none { IfOk result (λ found.
        IfNone found (MayBeRightAmong pair.now.spec pair.now.imp (map vec_items patterns.now))) }
{
    let mut ins = vec![in alloc; 0; pair.imp().inputs() as usize]?;
    let mut wanted = vec![in alloc; 0; pair.spec().cells().len()]?;
    let mut known = vec![in alloc; Known::UNKNOWN; pair.imp().cells().len()]?;
    match first_hit(pair, patterns, &mut ins, &mut wanted, &mut known) {
        Some((k, output)) => {
            let pattern = Vec::from_slice(alloc, &patterns[k])?;
            let output = output as u32;
            Ok(Some(Hit { pattern, output }))
        }
        None => Ok(None),
    }
}

fn first_hit(
    pair: &Pair,
    patterns: &[Vec<bool>],
    ins: &mut [u64],
    wanted: &mut [u64],
    known: &mut [Known],
) -> Option<(usize, usize)>
    requires inputs { All (λ p. length p.items ≡ pair.now.imp.inputs) patterns.now }
    requires room { HasRoom pair.now ins.old wanted.old known.old }
    ensures hit { IfSome result (λ found.
        IsHitAt pair.now.spec pair.now.imp (map vec_items patterns.now) found.0 found.1) }
    ensures none { IfNone result (NoneIsHit pair.now.spec pair.now.imp (map vec_items patterns.now)) }
{
    let mut start = 0;
    while start < patterns.len() {
        let end = patterns.len().min(start + LANES);
        if let Some((k, output)) = pass(pair, &patterns[start..end], ins, wanted, known) {
            return Some((start + k, output));
        }
        start = end;
    }
    None
}
