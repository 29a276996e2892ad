//! One variable quantified: the join of both cofactors, lifted through the nodes above. "For all" and "exists" share
//! the recursion and differ in the join. Only results of the recursion enter the store, never a substituted copy of
//! `f`.

ghost use Rattle.std.specs.Prelude.{◌≡◌, ◌<◌, ◌≤◌, ◌&&◌, ◌||◌, length, IfOk, IsErrOf};
ghost use Rattle.bb_bits.specs.Truth.{joined_tables, quantified};
ghost use Rattle.bb_uniq.specs.Inside.Nodes.{IsRef, view_of};
ghost use Rattle.bb_uniq.specs.Inside.Meaning.{truth_of, Adds, Keeps, IsTooMany};
ghost use Rattle.bb_uniq.specs.declared.store.View.TheVariants as seen;
ghost use Rattle.bb_dd.specs.Inside.Results.{quantifier};

use bb_bits::truth;
use bb_dd::{DdFault, Diagrams, Ref, View};
use bb_uniq::laws;

/// 1 where `f` is 1 for both values of `v`. Exactly the beads of the result are added.
///
/// # Errors
///
/// `Full` exactly where the beads held and those of the result are more than the limit. All earlier diagrams stay as
/// they are.
pub fn forall(d: &mut Diagrams, f: Ref, v: u32) -> Result<Ref, DdFault>
    requires f { IsRef d.old.store f.0 }
    requires v { v < d.old.store.vars }
    ensures ok { IfOk result (λ r. Adds d.old.store d.new.store (quantified ◌&&◌ v (truth_of d.old.store f.0)) r.0) }
    ensures full { IsErrOf result DdFault.Full → IsTooMany d.old.store (quantified ◌&&◌ v (truth_of d.old.store f.0)) }
    ensures kept { Keeps d.old.store d.new.store }
    ensures capacity { d.new.capacity ≡ d.old.capacity }
{
    quantify(d, true, f, v)
}

/// 1 where `f` is 1 for some value of `v`. Exactly the beads of the result are added.
///
/// # Errors
///
/// As for [`forall`].
pub fn exists(d: &mut Diagrams, f: Ref, v: u32) -> Result<Ref, DdFault>
    requires f { IsRef d.old.store f.0 }
    requires v { v < d.old.store.vars }
    ensures ok { IfOk result (λ r. Adds d.old.store d.new.store (quantified ◌||◌ v (truth_of d.old.store f.0)) r.0) }
    ensures full { IsErrOf result DdFault.Full → IsTooMany d.old.store (quantified ◌||◌ v (truth_of d.old.store f.0)) }
    ensures kept { Keeps d.old.store d.new.store }
    ensures capacity { d.new.capacity ≡ d.old.capacity }
{
    quantify(d, false, f, v)
}

fn join(d: &mut Diagrams, all: bool, f: Ref, g: Ref) -> Result<Ref, DdFault>
    requires f { IsRef d.old.store f.0 }
    requires g { IsRef d.old.store g.0 }
    ensures ok { IfOk result (λ r. Adds d.old.store d.new.store
        (joined_tables (quantifier all) (truth_of d.old.store f.0) (truth_of d.old.store g.0)) r.0) }
    ensures full { IsErrOf result DdFault.Full
        → IsTooMany d.old.store (joined_tables (quantifier all) (truth_of d.old.store f.0)
        (truth_of d.old.store g.0)) }
    ensures kept { Keeps d.old.store d.new.store }
    ensures capacity { d.new.capacity ≡ d.old.capacity }
{
    if all { d.and(f, g) } else { d.or(f, g) }
}

/// A diagram that begins after `v` does not depend on it. Results are cached under the quantifier, so a subgraph shared
/// by several paths is walked once.
#[cycle(quantify)]
fn quantify(d: &mut Diagrams, all: bool, f: Ref, v: u32) -> Result<Ref, DdFault>
    requires f { IsRef d.old.store f.0 }
    requires v { v < d.old.store.vars }
    ensures ok { IfOk result (λ r.
        Adds d.old.store d.new.store (quantified (quantifier all) v (truth_of d.old.store f.0)) r.0) }
    ensures full { IsErrOf result DdFault.Full
        → IsTooMany d.old.store (quantified (quantifier all) v (truth_of d.old.store f.0)) }
    ensures kept { Keeps d.old.store d.new.store }
    ensures capacity { d.new.capacity ≡ d.old.capacity }
{
    truth::tables();
    truth::quantifiers();
    laws::stores();
    laws::growth();
    laws::steps();
    d.is_canonical();
    let View::Node { var, lo, hi } = d.view(f) else {
        return Ok(f);
    };
    if v < var {
        return Ok(f);
    }
    if let Some(r) = d.recall(all, f, v) {
        return Ok(r);
    }
    let r = quantify_node(d, all, f, v, var, lo, hi)?;
    // Without memory the result is not cached and may be computed again.
    let _ = d.keep(all, f, v, r);
    Ok(r)
}

/// At `v` itself the children are joined; above it the node is made anew over the quantified children.
#[cycle(quantify)]
fn quantify_node(
    d: &mut Diagrams,
    all: bool,
    f: Ref,
    v: u32,
    var: u32,
    lo: Ref,
    hi: Ref,
) -> Result<Ref, DdFault>
    requires f { IsRef d.old.store f.0 }
    requires v { v < d.old.store.vars }
    requires node { view_of d.old.store f.0 ≡ seen.Node var lo hi }
    requires no_later { var ≤ v }
    ensures ok { IfOk result (λ r.
        Adds d.old.store d.new.store (quantified (quantifier all) v (truth_of d.old.store f.0)) r.0) }
    ensures full { IsErrOf result DdFault.Full
        → IsTooMany d.old.store (quantified (quantifier all) v (truth_of d.old.store f.0)) }
    ensures kept { Keeps d.old.store d.new.store }
    ensures capacity { d.new.capacity ≡ d.old.capacity }
{
    truth::tables();
    truth::quantifiers();
    laws::stores();
    laws::growth();
    laws::steps();
    d.is_canonical();
    if var == v {
        return join(d, all, lo, hi);
    }
    let first = quantify(d, all, lo, v)?;
    let second = quantify(d, all, hi, v)?;
    d.is_canonical();
    let r = d.make(var, first, second)?;
    d.is_canonical();
    Ok(r)
}
