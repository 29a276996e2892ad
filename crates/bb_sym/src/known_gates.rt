//! Gates in three values (0, 1, X), dual-rail: a function for "known to be 1" and one for "known to be 0". The dual
//! rail keeps X out of the BDDs, whose leaves stay 0 and 1.

ghost use Rattle.std.specs.Prelude.{◌<◌, IfOk, OnOk, IsErrOf};
ghost use Rattle.bb_sym.specs.Inside.Made.{Makes, AreTooMany};
ghost use Rattle.bb_sym.specs.Inside.Rails.{rails_of, AreRails, HaveRails, input_rails, input_tables};
ghost use Rattle.bb_sym.specs.Inside.Rails.{and_rails, and_tables, or_rails, or_tables, xor_rails, xor_tables};
ghost use Rattle.bb_sym.specs.Inside.Rails.{mux_rails, mux_tables};

use crate::RungFault;
use crate::sums::{choice, sum_of_products};
use bb_dd::{Diagrams, Ref};

/// `one` and `zero` are never both 1; where both are 0 the value is X.
#[derive(Clone, Copy)]
pub(crate) struct DualRail {
    pub(crate) one: Ref,
    pub(crate) zero: Ref,
}

pub(crate) fn known_input(d: &mut Diagrams, i: u32) -> Result<DualRail, RungFault>
    requires { i < d.old.store.vars }
    ensures rails { IfOk result (HaveRails d.new.store (input_rails d.old.store.vars i)) }
    ensures makes { OnOk result (Makes d.old.store d.new.store (input_tables d.old.store.vars i)) }
    ensures nodes { IsErrOf result RungFault.Nodes → AreTooMany d.old.store (input_tables d.old.store.vars i) }
{
    let one = d.var(i)?;
    let zero = d.not(one)?;
    Ok(DualRail { one, zero })
}

/// A known 0 decides even where the other operand is X.
pub(crate) fn known_and(d: &mut Diagrams, a: DualRail, b: DualRail) -> Result<DualRail, RungFault>
    requires a { AreRails d.old.store a }
    requires b { AreRails d.old.store b }
    ensures rails { IfOk result (HaveRails d.new.store (and_rails (rails_of d.old.store a) (rails_of d.old.store b))) }
    ensures makes { OnOk result (Makes d.old.store d.new.store (and_tables (rails_of d.old.store a)
        (rails_of d.old.store b))) }
    ensures nodes { IsErrOf result RungFault.Nodes
        → AreTooMany d.old.store (and_tables (rails_of d.old.store a) (rails_of d.old.store b)) }
{
    let one = d.and(a.one, b.one)?;
    let zero = d.or(a.zero, b.zero)?;
    Ok(DualRail { one, zero })
}

/// A known 1 decides even where the other operand is X.
pub(crate) fn known_or(d: &mut Diagrams, a: DualRail, b: DualRail) -> Result<DualRail, RungFault>
    requires a { AreRails d.old.store a }
    requires b { AreRails d.old.store b }
    ensures rails { IfOk result (HaveRails d.new.store (or_rails (rails_of d.old.store a) (rails_of d.old.store b))) }
    ensures makes { OnOk result (Makes d.old.store d.new.store (or_tables (rails_of d.old.store a)
        (rails_of d.old.store b))) }
    ensures nodes { IsErrOf result RungFault.Nodes
        → AreTooMany d.old.store (or_tables (rails_of d.old.store a) (rails_of d.old.store b)) }
{
    let zero = d.and(a.zero, b.zero)?;
    let one = d.or(a.one, b.one)?;
    Ok(DualRail { one, zero })
}

/// X where either operand is X.
pub(crate) fn known_xor(d: &mut Diagrams, a: DualRail, b: DualRail) -> Result<DualRail, RungFault>
    requires a { AreRails d.old.store a }
    requires b { AreRails d.old.store b }
    ensures rails { IfOk result (HaveRails d.new.store (xor_rails (rails_of d.old.store a) (rails_of d.old.store b))) }
    ensures makes { OnOk result (Makes d.old.store d.new.store (xor_tables (rails_of d.old.store a)
        (rails_of d.old.store b))) }
    ensures nodes { IsErrOf result RungFault.Nodes
        → AreTooMany d.old.store (xor_tables (rails_of d.old.store a) (rails_of d.old.store b)) }
{
    let one = sum_of_products(d, a.one, b.zero, a.zero, b.one)?;
    let zero = sum_of_products(d, a.one, b.one, a.zero, b.zero)?;
    Ok(DualRail { one, zero })
}

/// Also known where the condition is X but both branches have the same bit.
pub(crate) fn known_mux(
    d: &mut Diagrams,
    c: DualRail,
    t: DualRail,
    e: DualRail,
) -> Result<DualRail, RungFault>
    requires c { AreRails d.old.store c }
    requires t { AreRails d.old.store t }
    requires e { AreRails d.old.store e }
    ensures rails { IfOk result (HaveRails d.new.store (mux_rails (rails_of d.old.store c) (rails_of d.old.store t)
        (rails_of d.old.store e))) }
    ensures makes { OnOk result (Makes d.old.store d.new.store (mux_tables (rails_of d.old.store c)
        (rails_of d.old.store t) (rails_of d.old.store e))) }
    ensures nodes { IsErrOf result RungFault.Nodes
        → AreTooMany d.old.store (mux_tables (rails_of d.old.store c) (rails_of d.old.store t)
        (rails_of d.old.store e)) }
{
    let one = choice(d, c.one, c.zero, t.one, e.one)?;
    let zero = choice(d, c.one, c.zero, t.zero, e.zero)?;
    Ok(DualRail { one, zero })
}
