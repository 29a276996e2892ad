//! A resolvent kept between uses, since its pages of marks take memory. Derived unit clauses need one while that of the
//! conflict is full.

ghost use Rattle.std.specs.Prelude.{◌≡◌, false};
ghost use Rattle.bb_cnf.specs.declared.clauses.Lit.{Lit as Literal};
ghost use Rattle.bb_cnf.specs.Inside.PartialResolvent.{held, AreListed};

use bb_cnf::PartialResolvent;
use std::alloc::Global;
use std::mem;

#[derive(Drop)]
pub(crate) struct Spare {
    resolvent: PartialResolvent,
    ghost empty: { (l : Literal) → held resolvent l ≡ false },
    ghost listed: { AreListed resolvent },
}

impl Spare {
    pub(crate) fn new(alloc: Global) -> Spare {
        Spare {
            resolvent: PartialResolvent::new(alloc),
        }
    }

    /// Leaves a fresh one, so an error on the way loses only room.
    pub(crate) fn lend(&mut self, alloc: Global) -> PartialResolvent
        ensures empty { (l : Literal) → held result l ≡ false }
        ensures listed { AreListed result }
    {
        mem::replace(self, Spare::new(alloc)).resolvent
    }

    pub(crate) fn put_back(&mut self, resolvent: PartialResolvent)
        requires empty { (l : Literal) → held resolvent l ≡ false }
        requires listed { AreListed resolvent }
    {
        *self = Spare { resolvent };
    }
}
