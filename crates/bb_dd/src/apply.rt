//! The one recursion of all operations (Bryant 1986; Knuth TAOCP 4A, 7.1.4): a function of three operands, applied
//! to both cofactors at the first variable. One recursion and one definition serve not, the binary joins and the
//! conditional, so there is one proof. It returns a diagram or `Full` and nothing else: want of memory in the cache
//! only loses a result.

ghost use Rattle.std.specs.Prelude.{◌≡◌, ◌<◌, length, IfOk, IsErrOf, OnErr};
ghost use Rattle.bb_bits.specs.Truth.{truth_at};
ghost use Rattle.bb_uniq.specs.Inside.Nodes.{IsRef, IsBelow, IsStore, IsNew, Gives};
ghost use Rattle.bb_uniq.specs.Inside.Meaning.{Adds, IsTooMany, Keeps, branch, truth_of};
ghost use Rattle.bb_dd.specs.Inside.Operations.{value_of};
ghost use Rattle.bb_dd.specs.Inside.Results.{result_table, AreRight, Leaves};

use crate::cache::{peek, remember};
use crate::call::{Call, key_of};
use crate::cofactors::first_cofactors;
use crate::fault::DdFault;
use crate::key::{Key, Operation, same_keys};
use crate::terminal::terminal;
use bb_bits::truth;
use bb_uniq::{Ref, Store, View, laws};
use lru::LruCache;

pub fn make_node(store: &mut Store, var: u32, lo: Ref, hi: Ref) -> Result<Ref, DdFault>
    requires store { IsStore store.old }
    requires var { var < store.old.vars }
    requires lo { IsBelow store.old var lo.0 }
    requires hi { IsBelow store.old var hi.0 }
    ensures ok { IfOk result (λ r. Gives store.old store.new var lo.0 hi.0 r.0) }
    ensures adds { IfOk result (λ r. Adds store.old store.new (branch store.old var lo.0 hi.0) r.0) }
    ensures full { IsErrOf result DdFault.Full
        → IsNew store.old var lo.0 hi.0 × (length store.old.nodes ≡ store.old.limit) }
    ensures too_many { IsErrOf result DdFault.Full → IsTooMany store.old (branch store.old var lo.0 hi.0) }
    ensures err { OnErr result (store.new ≡ store.old) }
    ensures kept { Keeps store.old store.new }
    ensures store { IsStore store.new }
{
    laws::growth();
    let made = store.make(var, lo, hi)?;
    Ok(made)
}

/// `point` has a bit for each variable, the first first.
pub fn bit_at(store: &Store, f: Ref, point: &[bool]) -> bool
    requires f { IsRef store.now f.0 }
    requires point { length point.now ≡ store.now.vars }
    ensures { result ≡ truth_at (truth_of store.now f.0) point.now }
{
    truth::tables();
    laws::stores();
    laws::growth();
    laws::steps();
    let mut r = f;
    loop {
        match store.view(r) {
            View::Leaf(bit) => return bit,
            View::Node { var, lo, hi } => r = if point[var as usize] { hi } else { lo },
        }
    }
}

/// Ends since both halves are over later variables. Terminal cases come before the cache, which then has no trivial
/// entries.
pub fn apply(store: &mut Store, cache: &mut LruCache<Key, Ref>, call: Call) -> Result<Ref, DdFault>
    requires store { IsStore store.old }
    requires entries { AreRight store.old cache.old.entries }
    requires f { IsRef store.old call.f.0 }
    requires g { IsRef store.old call.g.0 }
    requires h { IsRef store.old call.h.0 }
    ensures ok { IfOk result (λ r.
        Adds store.old store.new (result_table store.old (value_of call.operation) call.f.0 call.g.0 call.h.0) r.0) }
    ensures full { IsErrOf result DdFault.Full
        → IsTooMany store.old (result_table store.old (value_of call.operation) call.f.0 call.g.0 call.h.0) }
    ensures leaves { Leaves store.old store.new cache.old cache.new }
{
    truth::tables();
    laws::stores();
    laws::growth();
    laws::steps();
    same_keys();
    if let Some(r) = terminal(call.operation, call.f, call.g, call.h) {
        return Ok(r);
    }
    let key = key_of(call);
    if let Some(r) = peek(cache, &key) {
        return Ok(r);
    }
    let at = first_cofactors(store, call.f, call.g, call.h);
    let lo = apply(
        store,
        cache,
        Call {
            operation: call.operation,
            f: at.f.0,
            g: at.g.0,
            h: at.h.0,
        },
    )?;
    let hi = apply(
        store,
        cache,
        Call {
            operation: call.operation,
            f: at.f.1,
            g: at.g.1,
            h: at.h.1,
        },
    )?;
    let r = store.make(at.var, lo, hi)?;
    remember(cache, key, r);
    Ok(r)
}

pub fn operate(
    store: &mut Store,
    cache: &mut LruCache<Key, Ref>,
    operation: Operation,
    f: Ref,
    g: Ref,
    h: Ref,
) -> Result<Ref, DdFault>
    requires store { IsStore store.old }
    requires entries { AreRight store.old cache.old.entries }
    requires f { IsRef store.old f.0 }
    requires g { IsRef store.old g.0 }
    requires h { IsRef store.old h.0 }
    ensures ok { IfOk result (λ r.
        Adds store.old store.new (result_table store.old (value_of operation) f.0 g.0 h.0) r.0) }
    ensures full { IsErrOf result DdFault.Full
        → IsTooMany store.old (result_table store.old (value_of operation) f.0 g.0 h.0) }
    ensures leaves { Leaves store.old store.new cache.old cache.new }
{
    apply(store, cache, Call { operation, f, g, h })
}
