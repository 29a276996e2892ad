//! The support of a diagram. A mark for each node makes the walk linear; without marks shared nodes would be walked
//! once a path.

ghost use Rattle.std.specs.Prelude.{◌≡◌, ◌<◌, ◌+◌, ◌≤◌, ℕ, true, false, length, slice_index_or, IfOk};
ghost use Rattle.bb_uniq.specs.Inside.Nodes.{IsRef};
ghost use Rattle.bb_uniq.specs.Inside.Meaning.{truth_of};
ghost use Rattle.bb_sym.specs.Inside.Dependence.{DependsAtMost, AreSeen};

use bb_bits::{NoMemory, truth};
use bb_dd::{Diagrams, Ref, View};
use bb_uniq::laws;
use std::alloc::Global;

/// `marked[v]` is true where a node of the diagram has variable `v`, for the first `count` variables; on the others of
/// these it does not depend.
pub(crate) fn variables_of(
    alloc: Global,
    d: &Diagrams,
    f: Ref,
    count: u32,
) -> Result<Vec<bool>, NoMemory>
    requires f { IsRef d.now.store f.0 }
    requires few { d.now.store.vars ≤ 2048 }
    requires count { count ≤ d.now.store.vars }
    ensures len { IfOk result (λ marked. length marked.items ≡ count) }
    ensures marked { IfOk result (λ marked. DependsAtMost d.now.store.vars (truth_of d.now.store f.0) marked.items) }
{
    let mut marked = vec![in alloc; false; count as usize]?;
    let mut seen = vec![in alloc; false; d.len() as usize + 2]?;
    mark(d, f, seen.as_mut_slice(), marked.as_mut_slice());
    Ok(marked)
}

/// A seen diagram has all its variables marked, so the walk stops there.
fn mark(d: &Diagrams, f: Ref, seen: &mut [bool], marked: &mut [bool])
    requires f { IsRef d.now.store f.0 }
    requires all { length seen.old ≡ length d.now.store.nodes + 2 }
    requires seen { AreSeen d.now.store seen.old marked.old }
    ensures seen { AreSeen d.now.store seen.new marked.new }
    ensures own { slice_index_or seen.new f.0 false ≡ true }
    ensures still { (r : ℕ) → slice_index_or seen.old r false ≡ true → slice_index_or seen.new r false ≡ true }
    ensures all { length seen.new ≡ length seen.old }
    ensures count { length marked.new ≡ length marked.old }
{
    truth::tables();
    laws::stores();
    d.is_canonical();
    if seen[f.0 as usize] {
        return;
    }
    let View::Node { var, lo, hi } = d.view(f) else {
        seen[f.0 as usize] = true;
        return;
    };
    mark(d, lo, seen, marked);
    mark(d, hi, seen, marked);
    set(marked, var);
    seen[f.0 as usize] = true;
}

fn set(marked: &mut [bool], var: u32)
    ensures len { length marked.new ≡ length marked.old }
    ensures own { var < length marked.old → slice_index_or marked.new var false ≡ true }
    ensures others { (v : ℕ) → slice_index_or marked.new v false ≡ false → slice_index_or marked.old v false ≡ false }
{
    if (var as usize) < marked.len() {
        marked[var as usize] = true;
    }
}
