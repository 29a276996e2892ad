//! Gates on words of 64 lanes. A value in three values is two words, "known to be 1" and "known to be 0", so X is in
//! neither and gates are plain word operations. Laws speak of single lanes; only this file knows of words.

ghost use Rattle.std.specs.Prelude.{◌≡◌, ◌<◌, ◌^◌, ℕ, Bool, true, false, not, ◌&&◌, ◌||◌, if◌then◌else◌, Option, Some};
ghost use Rattle.std.specs.Prelude.{None, List, [], length};
ghost use Rattle.bb_net.specs.Netlists.{ReadsBefore};
ghost use Rattle.bb_net.specs.Values.{xor};
ghost use Rattle.bb_net.specs.Ternary.{not3, and3, or3, xor3, mux3};
ghost use Rattle.bb_tern.specs.Inside.Lanes.{lane, Holds, GivesWord, GivesKnown};

use bb_net::Cell;

/// `one` and `zero` share no lane; a lane in neither is X.
#[derive(Clone, Copy, Debug, PartialEq, Eq)]
pub struct Known {
    pub one: u64,
    pub zero: u64,
}

impl Known {
    /// X in every lane.
    pub const UNKNOWN: Known = Known { one: 0, zero: 0 };
}

#[tactic(auto, using(crate::proofs::LaneLemmas::lane_ones, crate::proofs::LaneLemmas::lane_zero))]
fn constant_word(bit: bool) -> u64
    ensures { (k : ℕ) → k < 64 → lane result k ≡ bit }
{
    if bit { u64::MAX } else { 0 }
}

#[tactic(auto, using(crate::proofs::LaneLemmas::lane_not))]
pub fn not_word(a: u64) -> u64
    ensures { (k : ℕ) → k < 64 → lane result k ≡ not (lane a k) }
{
    !a
}

#[tactic(auto, using(crate::proofs::LaneLemmas::lane_and))]
pub fn and_word(a: u64, b: u64) -> u64
    ensures { (k : ℕ) → k < 64 → lane result k ≡ lane a k && lane b k }
{
    a & b
}

#[tactic(auto, using(crate::proofs::LaneLemmas::lane_or))]
pub fn or_word(a: u64, b: u64) -> u64
    ensures { (k : ℕ) → k < 64 → lane result k ≡ lane a k || lane b k }
{
    a | b
}

#[tactic(auto, using(crate::proofs::LaneLemmas::lane_xor))]
pub fn xor_word(a: u64, b: u64) -> u64
    ensures { (k : ℕ) → k < 64 → lane result k ≡ xor (lane a k) (lane b k) }
{
    a ^ b
}

fn mux_word(c: u64, t: u64, e: u64) -> u64
    ensures { (k : ℕ) → k < 64 → lane result k ≡ (if lane c k then lane t k else lane e k) }
{
    or_word(and_word(c, t), and_word(not_word(c), e))
}

fn known_constant(bit: bool) -> Known
    ensures { (k : ℕ) → k < 64 → Holds result k (Some bit) }
{
    known_word(constant_word(bit))
}

fn known_word(word: u64) -> Known
    ensures { (k : ℕ) → k < 64 → Holds result k (Some (lane word k)) }
{
    Known {
        one: word,
        zero: not_word(word),
    }
}

fn known_not(a: Known) -> Known
    ensures { (k : ℕ) (p : Option Bool) → k < 64 → Holds a k p → Holds result k (not3 p) }
{
    Known {
        one: a.zero,
        zero: a.one,
    }
}

fn known_and(a: Known, b: Known) -> Known
    ensures { (k : ℕ) (p q : Option Bool) → k < 64 → Holds a k p → Holds b k q → Holds result k (and3 p q) }
{
    Known {
        one: and_word(a.one, b.one),
        zero: or_word(a.zero, b.zero),
    }
}

fn known_or(a: Known, b: Known) -> Known
    ensures { (k : ℕ) (p q : Option Bool) → k < 64 → Holds a k p → Holds b k q → Holds result k (or3 p q) }
{
    Known {
        one: or_word(a.one, b.one),
        zero: and_word(a.zero, b.zero),
    }
}

fn known_xor(a: Known, b: Known) -> Known
    ensures { (k : ℕ) (p q : Option Bool) → k < 64 → Holds a k p → Holds b k q → Holds result k (xor3 p q) }
{
    Known {
        one: or_word(and_word(a.one, b.zero), and_word(a.zero, b.one)),
        zero: or_word(and_word(a.one, b.one), and_word(a.zero, b.zero)),
    }
}

// Also known where the condition is X and both branches agree.
fn known_mux(c: Known, t: Known, e: Known) -> Known
    ensures { (k : ℕ) (p q r : Option Bool) → k < 64 → Holds c k p → Holds t k q → Holds e k r
        → Holds result k (mux3 p q r) }
{
    Known {
        one: chosen_word(c, t.one, e.one),
        zero: chosen_word(c, t.zero, e.zero),
    }
}

fn chosen_word(c: Known, t: u64, e: u64) -> u64
    ensures { (k : ℕ) → k < 64
        → lane result k ≡ (lane c.one k && lane t k || lane c.zero k && lane e k) || lane t k && lane e k }
{
    let chosen = or_word(and_word(c.one, t), and_word(c.zero, e));
    or_word(chosen, and_word(t, e))
}

/// `out` has all earlier cells. A box output is 0: filled netlists have none.
pub fn cell_word(cell: Cell, ins: &[u64], out: &[u64]) -> u64
    requires { ReadsBefore (length ins.now) [] (length out.now) cell }
    ensures { GivesWord ins.now out.now cell result }
{
    match cell {
        Cell::Const(bit) => constant_word(bit),
        Cell::Input(i) => ins[i as usize],
        Cell::Not(a) => not_word(out[a as usize]),
        Cell::And(a, b) => and_word(out[a as usize], out[b as usize]),
        Cell::Or(a, b) => or_word(out[a as usize], out[b as usize]),
        Cell::Xor(a, b) => xor_word(out[a as usize], out[b as usize]),
        Cell::Mux(c, t, e) => mux_word(out[c as usize], out[t as usize], out[e as usize]),
        Cell::BoxOut(_, _) => 0,
    }
}

/// `out` has all earlier cells. A box output is X.
pub fn cell_known(cell: Cell, ins: &[u64], out: &[Known]) -> Known
    requires { ReadsBefore (length ins.now) [] (length out.now) cell }
    ensures { GivesKnown ins.now out.now cell result }
{
    match cell {
        Cell::Const(bit) => known_constant(bit),
        Cell::Input(i) => known_word(ins[i as usize]),
        Cell::Not(a) => known_not(out[a as usize]),
        Cell::And(a, b) => known_and(out[a as usize], out[b as usize]),
        Cell::Or(a, b) => known_or(out[a as usize], out[b as usize]),
        Cell::Xor(a, b) => known_xor(out[a as usize], out[b as usize]),
        Cell::Mux(c, t, e) => known_mux(out[c as usize], out[t as usize], out[e as usize]),
        Cell::BoxOut(_, _) => Known::UNKNOWN,
    }
}
