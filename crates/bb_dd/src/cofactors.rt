//! Cofactors of up to three diagrams at the first variable of any of them, the step that keeps the recursion of `apply`
//! in the order of variables.

ghost use Rattle.std.specs.Prelude.{◌≡◌, min};
ghost use Rattle.bb_uniq.specs.Inside.Nodes.{IsRef, view_of};
ghost use Rattle.bb_uniq.specs.Inside.Cofactors.{top_of, variable_seen, lo_seen, hi_seen};

use bb_uniq::{Ref, Store, View};

/// Leaves come after all variables, so the minimum needs no case for them.
fn variable_of(vars: u32, seen: View) -> u32
    ensures { result ≡ variable_seen vars seen }
{
    match seen {
        View::Leaf(_) => vars,
        View::Node { var, .. } => var,
    }
}

/// A diagram that begins later is its own cofactor.
fn cofactors_at(seen: View, var: u32, r: Ref) -> (Ref, Ref)
    ensures lo { result.0.0 ≡ lo_seen var r.0 seen }
    ensures hi { result.1.0 ≡ hi_seen var r.0 seen }
{
    match seen {
        View::Leaf(_) => (r, r),
        View::Node { var: own, lo, hi } => if own == var { (lo, hi) } else { (r, r) },
    }
}

/// Each pair has the cofactor at 0 first.
#[derive(Clone, Copy)]
pub struct Cofactors {
    pub var: u32,
    pub f: (Ref, Ref),
    pub g: (Ref, Ref),
    pub h: (Ref, Ref),
}

pub fn first_cofactors(store: &Store, f: Ref, g: Ref, h: Ref) -> Cofactors
    requires f { IsRef store.now f.0 }
    requires g { IsRef store.now g.0 }
    requires h { IsRef store.now h.0 }
    ensures var { result.var ≡ min (min (top_of store.now f.0) (top_of store.now g.0)) (top_of store.now h.0) }
    ensures f { (result.f.0.0 ≡ lo_seen result.var f.0 (view_of store.now f.0))
        × (result.f.1.0 ≡ hi_seen result.var f.0 (view_of store.now f.0)) }
    ensures g { (result.g.0.0 ≡ lo_seen result.var g.0 (view_of store.now g.0))
        × (result.g.1.0 ≡ hi_seen result.var g.0 (view_of store.now g.0)) }
    ensures h { (result.h.0.0 ≡ lo_seen result.var h.0 (view_of store.now h.0))
        × (result.h.1.0 ≡ hi_seen result.var h.0 (view_of store.now h.0)) }
{
    let vars = store.vars();
    let at_f = store.view(f);
    let at_g = store.view(g);
    let at_h = store.view(h);
    let var = variable_of(vars, at_f)
        .min(variable_of(vars, at_g))
        .min(variable_of(vars, at_h));
    Cofactors {
        var,
        f: cofactors_at(at_f, var, f),
        g: cofactors_at(at_g, var, g),
        h: cofactors_at(at_h, var, h),
    }
}
