//! The edges and clocks of registers. Clocks are compared by the names of inputs, since a register that stores at
//! another time is another register, whatever its next state.
ghost use Rattle.std.specs.Prelude.{◌≡◌, ◌↔◌, All, IsTrue, IsSome, IfSome, IfNone, MatchBool, option_map};
ghost use Rattle.bb_net.specs.declared.flat.Reg.{Reg};
ghost use Rattle.bb_bits.specs.Closures.{IsFirst};
ghost use Rattle.bb_net.specs.CutPoints.{state_texts, clock_text};
ghost use Rattle.bb_match.specs.Inside.Places.{ArePlaces};
ghost use Rattle.bb_match.specs.Refusals.{HasNoClock, IsClockedApart, HasSameClock, HaveSameClocks};

use crate::places::{Places, text_place};
use bb_bits::Name;
use bb_net::{Flat, Reg};

/// In register order. Such a clock is gated or derived, and no name says when it has an edge.
pub(crate) fn first_without_clock(regs: &[Reg]) -> Option<&Reg>
    ensures some { IfSome result (λ r. IsFirst HasNoClock regs.now r.now) }
    ensures none { IfNone result (All (λ r. IsSome r.clock) regs.now) }
{
    for r in regs {
        if r.clock.is_none() {
            return Some(r);
        }
    }
    None
}

fn clock_text<'a>(flat: &'a Flat, reg: &Reg) -> Option<&'a Name>
    ensures text { option_map (λ text. text.now) result ≡ clock_text flat.now reg.now }
{
    let ins = flat.ins();
    ins.get(reg.clock? as usize)
}

// Where this is called both clocks are inputs, so equal names mean one clock.
fn have_same_clock(spec: &Flat, r: &Reg, imp: &Flat, q: &Reg) -> bool
    ensures alike { IsTrue result ↔ ((q.now.falling ≡ r.now.falling)
        × (clock_text imp.now q.now ≡ clock_text spec.now r.now)) }
{
    q.falling == r.falling && clock_text(imp, q) == clock_text(spec, r)
}

fn is_clocked_apart(spec: &Flat, imp: &Flat, places: &Places, r: &Reg) -> bool
    requires places { ArePlaces (state_texts imp.now) places.now.entries }
    ensures apart { MatchBool result (IsClockedApart spec.now imp.now r.now) (HasSameClock spec.now imp.now r.now) }
{
    match imp.regs().get(text_place(places, &r.text) as usize) {
        Some(q) => q.text == r.text && !have_same_clock(spec, r, imp, q),
        None => false,
    }
}

/// In the order of the specification's registers.
pub(crate) fn first_clocked_apart<'a>(
    spec: &'a Flat,
    imp: &Flat,
    places: &Places,
) -> Option<&'a Reg>
    requires places { ArePlaces (state_texts imp.now) places.now.entries }
    ensures some { IfSome result (λ r. IsFirst (IsClockedApart spec.now imp.now) spec.now.regs r.now) }
    ensures none { IfNone result (HaveSameClocks spec.now imp.now) }
{
    for r in spec.regs() {
        if is_clocked_apart(spec, imp, places, r) {
            return Some(r);
        }
    }
    None
}
