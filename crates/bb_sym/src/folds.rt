//! The disjunction of a list, as a left fold, since the definitions that count its beads fold in this order.

ghost use Rattle.std.specs.Prelude.{◌≡◌, ℕ, length, IfOk, OnOk, IsErrOf};
ghost use Rattle.bb_uniq.specs.Inside.Meaning.{Keeps};
ghost use Rattle.bb_sym.specs.Plain.{Function, one_of, table};
ghost use Rattle.bb_sym.specs.Inside.Made.{Makes, AreTooMany, AreRefs, Represents, RepresentFunctions, folded_tables};

use crate::RungFault;
use bb_dd::{Diagrams, Ref};
use bb_uniq::laws;

/// From the left; 0 for an empty list.
pub(crate) fn fold_or(d: &mut Diagrams, fs: &[Ref]) -> Result<Ref, RungFault>
    requires { AreRefs d.old.store fs.now }
    ensures kept { Keeps d.old.store d.new.store }
    ensures result { (f : ℕ → Function) → RepresentFunctions d.old.store f fs.now
        → IfOk result (Represents d.new.store (table d.old.store.vars (one_of f (length fs.now)))) }
    ensures makes { (f : ℕ → Function) → RepresentFunctions d.old.store f fs.now
        → OnOk result (Makes d.old.store d.new.store (folded_tables d.old.store.vars f (length fs.now))) }
    ensures nodes { (f : ℕ → Function) → RepresentFunctions d.old.store f fs.now
        → IsErrOf result RungFault.Nodes → AreTooMany d.old.store (folded_tables d.old.store.vars f (length fs.now)) }
{
    laws::stores();
    let mut any = Ref(0);
    for f in fs {
        any = d.or(any, *f)?;
    }
    Ok(any)
}
