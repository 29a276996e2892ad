//! One pass of up to 64 patterns through both nets, over buffers that the caller reuses. All outputs are folded into
//! one word first; only where it is not 0 is the output looked for.

ghost use Rattle.std.specs.Prelude.{◌≡◌, ◌<◌, ◌≤◌, ℕ, Bool, true, false, [], Option, length, map, vec_items, All};
ghost use Rattle.std.specs.Prelude.{IfSome, IfNone};
ghost use Rattle.bb_net.specs.Netlists.{ReadsBefore, cell_at};
ghost use Rattle.bb_tern.specs.Inside.Lanes.{lane, Holds, AreWords, AreKnowns, is_known_wrong, ReportsAll, FindsFirst};
ghost use Rattle.bb_tern.specs.Inside.Lanes.{HasRoom, AreFilled, IsHitAt, NoneIsHit};

use crate::lanes::{Known, and_word, cell_known, cell_word, not_word, or_word};
use crate::packing::pack;
use bb_net::{Cell, Pair, tern_exists, value_exists};

// In cell order, so operands are written before they are read.
pub fn write_words(cells: &[Cell], ins: &[u64], out: &mut [u64])
    requires room { length out.old ≡ length cells.now }
    requires ordered { (place : ℕ) → place < length cells.now
        → ReadsBefore (length ins.now) [] place (cell_at cells.now place) }
    ensures len { length out.new ≡ length out.old }
    ensures written { AreWords cells.now ins.now out.new (length cells.now) }
{
    for (place, cell) in cells.iter().enumerate() {
        out[place] = cell_word(*cell, ins, out);
    }
}

fn write_knowns(cells: &[Cell], ins: &[u64], out: &mut [Known])
    requires room { length out.old ≡ length cells.now }
    requires ordered { (place : ℕ) → place < length cells.now
        → ReadsBefore (length ins.now) [] place (cell_at cells.now place) }
    ensures len { length out.new ≡ length out.old }
    ensures written { AreKnowns cells.now ins.now out.new (length cells.now) }
{
    for (place, cell) in cells.iter().enumerate() {
        out[place] = cell_known(*cell, ins, out);
    }
}

// X is never wrong.
fn wrong_word(wanted: u64, known: Known) -> u64
    ensures { (k : ℕ) (bit : Bool) (value : Option Bool) → k < 64 → lane wanted k ≡ bit → Holds known k value
        → lane result k ≡ is_known_wrong bit value }
{
    let wrong_one = and_word(known.one, not_word(wanted));
    or_word(wrong_one, and_word(known.zero, wanted))
}

fn wrong_lanes(spec_outs: &[u32], imp_outs: &[u32], wanted: &[u64], known: &[Known]) -> u64
    requires same { length spec_outs.now ≡ length imp_outs.now }
    requires spec_cells { All (λ place. place < length wanted.now) spec_outs.now }
    requires imp_cells { All (λ place. place < length known.now) imp_outs.now }
    ensures { ReportsAll spec_outs.now imp_outs.now wanted.now known.now result }
{
    let mut lanes = 0;
    for (j, place) in imp_outs.iter().enumerate() {
        let word = wrong_word(wanted[spec_outs[j] as usize], known[*place as usize]);
        lanes = or_word(lanes, word);
    }
    lanes
}

pub fn has_lane(word: u64, k: usize) -> bool
    requires { k < 64 }
    ensures { result ≡ lane word k }
{
    word >> k & 1 == 1
}

fn first_wrong(
    spec_outs: &[u32],
    imp_outs: &[u32],
    wanted: &[u64],
    known: &[Known],
    k: usize,
) -> Option<usize>
    requires lane { k < 64 }
    requires same { length spec_outs.now ≡ length imp_outs.now }
    requires spec_cells { All (λ place. place < length wanted.now) spec_outs.now }
    requires imp_cells { All (λ place. place < length known.now) imp_outs.now }
    ensures { FindsFirst spec_outs.now imp_outs.now wanted.now known.now k result }
{
    for (j, place) in imp_outs.iter().enumerate() {
        let word = wrong_word(wanted[spec_outs[j] as usize], known[*place as usize]);
        if has_lane(word, k) {
            return Some(j);
        }
    }
    None
}

// The buffers may have old content: each cell is written before it is read.
fn fill(
    pair: &Pair,
    patterns: &[Vec<bool>],
    ins: &mut [u64],
    wanted: &mut [u64],
    known: &mut [Known],
)
    requires count { length patterns.now ≤ 64 }
    requires inputs { All (λ p. length p.items ≡ pair.now.imp.inputs) patterns.now }
    requires room { HasRoom pair.now ins.old wanted.old known.old }
    ensures room { HasRoom pair.now ins.new wanted.new known.new }
    ensures filled { AreFilled pair.now.spec pair.now.imp (map vec_items patterns.now) wanted.new known.new }
{
    value_exists();
    tern_exists();
    pack(patterns, ins);
    write_words(pair.spec().cells(), ins, wanted);
    write_knowns(pair.imp().cells(), ins, known);
}

/// The lowest pattern number, then the first output there. Lanes beyond the last pattern are ignored.
pub fn pass(
    pair: &Pair,
    patterns: &[Vec<bool>],
    ins: &mut [u64],
    wanted: &mut [u64],
    known: &mut [Known],
) -> Option<(usize, usize)>
    requires count { length patterns.now ≤ 64 }
    requires inputs { All (λ p. length p.items ≡ pair.now.imp.inputs) patterns.now }
    requires room { HasRoom pair.now ins.old wanted.old known.old }
    ensures hit { IfSome result (λ found.
        IsHitAt pair.now.spec pair.now.imp (map vec_items patterns.now) found.0 found.1) }
    ensures none { IfNone result (NoneIsHit pair.now.spec pair.now.imp (map vec_items patterns.now)) }
    ensures room { HasRoom pair.now ins.new wanted.new known.new }
{
    fill(pair, patterns, ins, wanted, known);
    let spec_outs = pair.spec().outs();
    let imp_outs = pair.imp().outs();
    let wrong = wrong_lanes(spec_outs, imp_outs, wanted, known);
    let k = wrong.trailing_zeros() as usize;
    if k >= patterns.len() {
        return None;
    }
    let j = first_wrong(spec_outs, imp_outs, wanted, known, k)?;
    Some((k, j))
}
