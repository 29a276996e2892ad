//! Terminal cases: results that are a leaf or an operand, seen without looking below. They come before the cache,
//! so such calls take no entries.

ghost use Rattle.std.specs.Prelude.{◌≡◌, ◌<◌, ◌≤◌, ℕ, Bool, true, false, not, ◌&&◌, ◌||◌, if◌then◌else◌, IfSome};
ghost use Rattle.std.specs.Prelude.{IfNone};
ghost use Rattle.bb_bits.specs.Bits.{xor};
ghost use Rattle.bb_dd.specs.Inside.Operations.{value_of};
ghost use Rattle.bb_dd.specs.Inside.Terminals.{Settles, IsGiven};

use crate::key::Operation;
use bb_uniq::Ref;

fn not_terminal(f: Ref) -> Option<Ref>
    ensures value { IfSome result (λ r. Settles (λ a b c. not a) f.0 f.0 f.0 r.0) }
    ensures leaf { IfSome result (λ r. r.0 < 2) }
    ensures none { IfNone result (2 ≤ f.0) }
{
    match f.0 {
        0 => Some(Ref(1)),
        1 => Some(Ref(0)),
        _ => None,
    }
}

fn and_terminal(f: Ref, g: Ref) -> Option<Ref>
    ensures value { IfSome result (λ r. Settles (λ a b c. a && b) f.0 g.0 f.0 r.0) }
    ensures given { IfSome result (λ r. IsGiven f.0 g.0 f.0 r.0) }
    ensures none { IfNone result (2 ≤ f.0) }
{
    match (f.0, g.0) {
        (0, _) => Some(f),
        (1, _) => Some(g),
        (_, 0) => Some(g),
        (_, 1) => Some(f),
        (a, b) => if a == b { Some(f) } else { None },
    }
}

fn or_terminal(f: Ref, g: Ref) -> Option<Ref>
    ensures value { IfSome result (λ r. Settles (λ a b c. a || b) f.0 g.0 f.0 r.0) }
    ensures given { IfSome result (λ r. IsGiven f.0 g.0 f.0 r.0) }
    ensures none { IfNone result (2 ≤ f.0) }
{
    match (f.0, g.0) {
        (0, _) => Some(g),
        (1, _) => Some(f),
        (_, 0) => Some(f),
        (_, 1) => Some(g),
        (a, b) => if a == b { Some(f) } else { None },
    }
}

/// An operand that is true is no terminal case: its result, a complement, may need new nodes.
fn xor_terminal(f: Ref, g: Ref) -> Option<Ref>
    ensures value { IfSome result (λ r. Settles (λ a b c. xor a b) f.0 g.0 f.0 r.0) }
    ensures given { IfSome result (λ r. IsGiven f.0 g.0 f.0 r.0) }
    ensures none { IfNone result (f.0 < 2 → 2 ≤ g.0) }
{
    match (f.0, g.0) {
        (0, _) => Some(g),
        (_, 0) => Some(f),
        (a, b) => if a == b { Some(Ref(0)) } else { None },
    }
}

fn ite_terminal(f: Ref, g: Ref, h: Ref) -> Option<Ref>
    ensures value { IfSome result (λ r. Settles (λ a b c. if a then b else c) f.0 g.0 h.0 r.0) }
    ensures given { IfSome result (λ r. IsGiven f.0 g.0 h.0 r.0) }
    ensures none { IfNone result (2 ≤ f.0) }
{
    match f.0 {
        0 => Some(h),
        1 => Some(g),
        _ => if g == h {
            Some(g)
        } else {
            ite_of_leaves(f, g, h)
        },
    }
}

/// `if f then 1 else 0` is `f`. Its negation needs new nodes.
fn ite_of_leaves(f: Ref, g: Ref, h: Ref) -> Option<Ref>
    ensures value { IfSome result (λ r. Settles (λ a b c. if a then b else c) f.0 g.0 h.0 r.0) }
    ensures given { IfSome result (λ r. r.0 ≡ f.0) }
{
    match (g.0, h.0) {
        (1, 0) => Some(f),
        _ => None,
    }
}

/// None only where an operand is no leaf.
pub fn terminal(operation: Operation, f: Ref, g: Ref, h: Ref) -> Option<Ref>
    ensures value { IfSome result (λ r. Settles (value_of operation) f.0 g.0 h.0 r.0) }
    ensures given { IfSome result (λ r. IsGiven f.0 g.0 h.0 r.0) }
    ensures none { IfNone result (f.0 < 2 → g.0 < 2 → ⊥) }
{
    match operation {
        Operation::Not => not_terminal(f),
        Operation::And => and_terminal(f, g),
        Operation::Or => or_terminal(f, g),
        Operation::Xor => xor_terminal(f, g),
        Operation::Ite => ite_terminal(f, g, h),
    }
}
