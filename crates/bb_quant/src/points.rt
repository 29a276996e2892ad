//! The least point at which a diagram has a bit. One walk down suffices: in a reduced diagram an inner node takes both
//! values, so the 0 branch is taken unless it is the other leaf, and nothing is searched.

ghost use Rattle.std.specs.Prelude.{◌≡◌, ◌≢◌, ◌≤◌, true, false, if◌then◌else◌, ℕ, List, Bool, length, take};
ghost use Rattle.std.specs.Prelude.{slice_index_or};
ghost use Rattle.bb_bits.specs.Truth.{truth_at};
ghost use Rattle.bb_uniq.specs.Inside.Nodes.{IsRef};
ghost use Rattle.bb_uniq.specs.Inside.Cofactors.{top_of};
ghost use Rattle.bb_uniq.specs.Inside.Meaning.{truth_of};
ghost use Rattle.bb_quant.specs.Inside.LeastPoints.{BeginsAs, IsLeastPoint};

use bb_bits::{number_is_below, truth};
use bb_dd::{Diagrams, Ref, View};
use bb_uniq::laws;

/// Writes the least point that keeps the first `fixed` bits and at which `f` is `want`: 0 before 1, the first variable
/// most significant. False where there is none, and then `point` stays.
pub fn least(d: &Diagrams, f: Ref, want: bool, fixed: usize, point: &mut [bool]) -> bool
    requires f { IsRef d.now.store f.0 }
    requires point { length point.old ≡ d.now.store.vars }
    requires fixed { fixed ≤ length point.old }
    ensures found { result ≡ true → IsLeastPoint (truth_of d.now.store f.0) want fixed point.old point.new }
    ensures none { result ≡ false → (q : List Bool) → BeginsAs fixed point.old q
        → truth_at (truth_of d.now.store f.0) q ≡ want → ⊥ }
    ensures kept { result ≡ false → point.new ≡ point.old }
{
    truth::tables();
    laws::stores();
    number_is_below();
    let below = under(d, f, fixed, point);
    if below == leaf(!want) {
        return false;
    }
    clear_after(point, fixed);
    descend(d, below, want, point);
    true
}

/// Variables that the walk passes over then are 0, the least.
fn clear_after(point: &mut [bool], fixed: usize)
    requires { fixed ≤ length point.old }
    ensures len { length point.new ≡ length point.old }
    ensures first { take fixed point.new ≡ take fixed point.old }
    ensures zeros { (i : ℕ) → fixed ≤ i → slice_index_or point.new i false ≡ false }
{
    point[fixed..].fill(false);
}

fn leaf(bit: bool) -> Ref
    ensures { result.0 ≡ (if bit then 1 else 0) }
{
    if bit { Ref(1) } else { Ref(0) }
}

/// Follows the fixed bits; what remains begins at a later variable.
fn under(d: &Diagrams, f: Ref, fixed: usize, point: &[bool]) -> Ref
    requires f { IsRef d.now.store f.0 }
    requires point { length point.now ≡ d.now.store.vars }
    requires fixed { fixed ≤ length point.now }
    ensures inside { IsRef d.now.store result.0 }
    ensures later { fixed ≤ top_of d.now.store result.0 }
    ensures same { (q : List Bool) → BeginsAs fixed point.now q
        → truth_at (truth_of d.now.store f.0) q ≡ truth_at (truth_of d.now.store result.0) q }
{
    truth::tables();
    laws::stores();
    let mut r = f;
    loop {
        match d.view(r) {
            View::Node { var, lo, hi } if (var as usize) < fixed => {
                r = if point[var as usize] { hi } else { lo };
            }
            _ => return r,
        }
    }
}

/// `f` is not the leaf of the other bit. All bits of `point` from the variable of `f` on are 0.
fn descend(d: &Diagrams, f: Ref, want: bool, point: &mut [bool])
    requires f { IsRef d.now.store f.0 }
    requires point { length point.old ≡ d.now.store.vars }
    requires taken { f.0 ≢ (if want then 0 else 1) }
    requires zeros { (i : ℕ) → top_of d.now.store f.0 ≤ i → slice_index_or point.old i false ≡ false }
    ensures { IsLeastPoint (truth_of d.now.store f.0) want (top_of d.now.store f.0) point.old point.new }
{
    truth::tables();
    laws::stores();
    number_is_below();
    d.is_canonical();
    let View::Node { var, lo, hi } = d.view(f) else {
        return;
    };
    if lo == leaf(!want) {
        point[var as usize] = true;
        descend(d, hi, want, point);
    } else {
        descend(d, lo, want, point);
    }
}
