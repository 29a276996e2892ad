//! The resolvent that a chain has come to, for the checker and for a solver that writes chains. Both resolve with this
//! code, so a learned clause is by construction what the checker will make of its chain. Marks answer in constant time
//! whether a literal is in the resolvent; the list beside them is what a drain walks, so that an empty resolvent is had
//! without clearing marks of all variables.

ghost use Rattle.std.specs.Prelude.{◌≡◌, ◌==◌, ◌&&◌, ◌||◌, not, false, ℕ, ◌≤◌, length, OnOk, IfOk, true, Some, None};
ghost use Rattle.bb_cnf.specs.declared.clauses.Lit.{Lit};
ghost use Rattle.bb_cnf.specs.Clauses.{literals_of, same_literal, without_literal, union};
ghost use Rattle.bb_cnf.specs.Chains.{resolvent, resolution};
ghost use Rattle.bb_cnf.specs.Inside.PartialResolvent.{held, AreListed};

use crate::marks::{clear_mark, mark, set_mark};
use crate::{Lit, NoMemory};
use smallvec::SmallVec;
use std::alloc::Global;

/// Each marked literal is on the list `marked`. The list may also have literals that were resolved away, and a literal
/// twice that came back: taking one out of the list would cost a search.
#[derive(Drop)]
pub struct PartialResolvent {
    pub(crate) alloc: Global,
    pub(crate) positive: Vec<Vec<bool>>,
    pub(crate) negated: Vec<Vec<bool>>,
    pub(crate) marked: Vec<Lit>,
}

// A linear search: a resolution walks the clause anyway, to add its literals.
fn has(lits: &[Lit], wanted: Lit) -> bool
    ensures { result ≡ literals_of lits.now wanted }
{
    lits.contains(&wanted)
}

impl PartialResolvent {
    /// The empty set of literals. Pages of marks are made when they are needed.
    pub fn new(alloc: Global) -> PartialResolvent
        ensures empty { (l : Lit) → held result l ≡ false }
        ensures listed { AreListed result }
    {
        PartialResolvent {
            alloc,
            positive: Vec::new(alloc),
            negated: Vec::new(alloc),
            marked: Vec::new(alloc),
        }
    }

    /// Reads one mark, however many literals there are.
    pub fn has(&self, lit: Lit) -> bool
        ensures { result ≡ held self.now lit }
    {
        if lit.neg {
            mark(&self.negated, lit.var)
        } else {
            mark(&self.positive, lit.var)
        }
    }

    /// A superset of the resolvent: literals that were resolved away may still be listed, and one may be listed twice.
    /// Test with `has`.
    pub fn literals(&self) -> &[Lit]
        requires { AreListed self.now }
        ensures { (l : Lit) → held self.now l ≡ true → literals_of result.now l ≡ true }
    {
        &self.marked
    }

    fn put(&mut self, lit: Lit) -> Result<(), NoMemory>
        requires { AreListed self.old }
        ensures held { OnOk result ((l : Lit) → held self.new l ≡ (held self.old l || same_literal lit l)) }
        ensures listed { OnOk result (AreListed self.new) }
    {
        if self.has(lit) {
            return Ok(());
        }
        self.marked.push(lit)?;
        if lit.neg {
            set_mark(self.alloc, &mut self.negated, lit.var)
        } else {
            set_mark(self.alloc, &mut self.positive, lit.var)
        }
    }

    // The list keeps the literal; see the head of the type.
    fn take_out(&mut self, lit: Lit)
        ensures held { (l : Lit) → held self.new l ≡ without_literal (held self.old) lit l }
        ensures marked { self.new.marked.items ≡ self.old.marked.items }
        ensures listed { AreListed self.old → AreListed self.new }
    {
        if lit.neg {
            clear_mark(&mut self.negated, lit.var);
        } else {
            clear_mark(&mut self.positive, lit.var);
        }
    }

    /// Union of sets: what is in the resolvent already is not listed again.
    pub fn put_all(&mut self, lits: &[Lit]) -> Result<(), NoMemory>
        requires { AreListed self.old }
        ensures held { OnOk result ((l : Lit) → held self.new l ≡ union (held self.old) (literals_of lits.now) l) }
        ensures listed { OnOk result (AreListed self.new) }
    {
        for lit in lits {
            self.put(*lit)?;
        }
        Ok(())
    }

    fn put_unless(&mut self, lit: Lit, but: Lit) -> Result<(), NoMemory>
        requires { AreListed self.old }
        ensures held { OnOk result ((l : Lit)
            → held self.new l ≡ (held self.old l || (same_literal lit l && not (same_literal but l)))) }
        ensures listed { OnOk result (AreListed self.new) }
    {
        if lit == but {
            return Ok(());
        }
        self.put(lit)
    }

    fn put_others(&mut self, lits: &[Lit], but: Lit) -> Result<(), NoMemory>
        requires { AreListed self.old }
        ensures held { OnOk result ((l : Lit)
            → held self.new l ≡ union (held self.old) (without_literal (literals_of lits.now) but) l) }
        ensures listed { OnOk result (AreListed self.new) }
    {
        for lit in lits {
            self.put_unless(*lit, but)?;
        }
        Ok(())
    }

    fn replace(&mut self, own: Lit, named: &[Lit], other: Lit) -> Result<(), NoMemory>
        requires { AreListed self.old }
        ensures held { OnOk result ((l : Lit)
            → held self.new l ≡ resolvent (held self.old) (literals_of named.now) own other l) }
        ensures listed { OnOk result (AreListed self.new) }
    {
        self.take_out(own);
        self.put_others(named, other)
    }

    /// False, and nothing changes, where the two do not have the variable with two signs. Where both have it with both
    /// signs, the resolvent loses the positive literal and the clause the negated one.
    pub fn resolve(&mut self, named: &[Lit], var: u32) -> Result<bool, NoMemory>
        requires { AreListed self.old }
        ensures resolved { IfOk result (λ yes.
            yes ≡ true → resolution (held self.old) (literals_of named.now) var ≡ Some (held self.new)) }
        ensures none { IfOk result (λ yes.
            yes ≡ false → resolution (held self.old) (literals_of named.now) var ≡ None) }
        ensures listed { OnOk result (AreListed self.new) }
    {
        let positive = Lit { var, neg: false };
        let negated = Lit { var, neg: true };
        if self.has(positive) && has(named, negated) {
            self.replace(positive, named, negated)?;
            return Ok(true);
        }
        if self.has(negated) && has(named, positive) {
            self.replace(negated, named, positive)?;
            return Ok(true);
        }
        Ok(false)
    }

    // An upper bound on the number of literals, so that `drain` allocates once.
    fn count(&self) -> usize
        ensures { result ≤ length self.now.marked.items }
    {
        let mut count = 0;
        for lit in &self.marked {
            if self.has(*lit) {
                count += 1;
            }
        }
        count
    }

    /// The literals, each once, in no promised order. A literal that is listed twice is taken out at its first place,
    /// so the second gives nothing. The marks stay allocated for the next chain.
    pub fn drain(&mut self, alloc: Global) -> Result<SmallVec<Lit, 4>, NoMemory>
        requires { AreListed self.old }
        ensures given { IfOk result (λ made. (l : Lit) → literals_of made.items l ≡ held self.old l) }
        ensures empty { OnOk result ((l : Lit) → held self.new l ≡ false) }
        ensures listed { OnOk result (AreListed self.new) }
    {
        let mut made = SmallVec::with_capacity(alloc, self.count())?;
        while let Some(lit) = self.marked.pop() {
            if self.has(lit) {
                self.take_out(lit);
                made.push(lit)?;
            }
        }
        Ok(made)
    }
}
