//! Two shapes of gates that dual-rail encoding needs, with their joins in a fixed order, since each join counts as
//! beads.

ghost use Rattle.std.specs.Prelude.{◌≡◌, IfOk, OnOk, IsErrOf};
ghost use Rattle.bb_uniq.specs.Inside.Nodes.{IsRef};
ghost use Rattle.bb_sym.specs.Functions.{sum_table, sum_tables, choice_table, choice_tables};
ghost use Rattle.bb_sym.specs.Inside.Made.{Makes, AreTooMany, Represents, of_refs};

use crate::RungFault;
use bb_dd::{Diagrams, Ref};

pub(crate) fn sum_of_products(
    d: &mut Diagrams,
    a: Ref,
    b: Ref,
    c: Ref,
    e: Ref,
) -> Result<Ref, RungFault>
    requires a { IsRef d.old.store a.0 }
    requires b { IsRef d.old.store b.0 }
    requires c { IsRef d.old.store c.0 }
    requires e { IsRef d.old.store e.0 }
    ensures result { IfOk result (Represents d.new.store (of_refs d.old.store sum_table a b c e)) }
    ensures makes { OnOk result (Makes d.old.store d.new.store (of_refs d.old.store sum_tables a b c e)) }
    ensures nodes { IsErrOf result RungFault.Nodes → AreTooMany d.old.store (of_refs d.old.store sum_tables a b c e) }
{
    let first = d.and(a, b)?;
    let second = d.and(c, e)?;
    let r = d.or(first, second)?;
    Ok(r)
}

/// `t` where `c`, `e` where `not_c`, and 1 where both are 1, whatever the condition.
pub(crate) fn choice(d: &mut Diagrams, c: Ref, not_c: Ref, t: Ref, e: Ref) -> Result<Ref, RungFault>
    requires c { IsRef d.old.store c.0 }
    requires not_c { IsRef d.old.store not_c.0 }
    requires t { IsRef d.old.store t.0 }
    requires e { IsRef d.old.store e.0 }
    ensures result { IfOk result (Represents d.new.store (of_refs d.old.store choice_table c not_c t e)) }
    ensures makes { OnOk result (Makes d.old.store d.new.store (of_refs d.old.store choice_tables c not_c t e)) }
    ensures nodes { IsErrOf result RungFault.Nodes
        → AreTooMany d.old.store (of_refs d.old.store choice_tables c not_c t e) }
{
    let chosen = sum_of_products(d, c, t, not_c, e)?;
    let same = d.and(t, e)?;
    let r = d.or(chosen, same)?;
    Ok(r)
}
