//! Literals and lists of clauses. A clause means a set of literals, so order and repetition in its list do not count;
//! in memory it is the list as it came.

ghost use Rattle.std.specs.Prelude.{◌≡◌, ◌≤◌, ◌↔◌, All, IsTrue, IsSome, IfSome, OnOk, OnErr, map, [], ◌∷◌, ◌++◌};
ghost use Rattle.smallvec.specs.SmallVec.{SmallVec as Items};

use crate::NoMemory;
use smallvec::SmallVec;
use std::marker::Model;

/// Variables count from 1; `neg` is the negation.
#[derive(Clone, Copy, Debug, Default, PartialEq, Eq)]
pub struct Lit {
    pub var: u32,
    pub neg: bool,
}

/// Variables are from 1 to `vars`, an invariant. The numbers of clauses count from 0.
#[derive(Drop)]
pub struct Cnf {
    pub vars: u32,
    pub clauses: Vec<SmallVec<Lit, 4>>,
}

impl Model for Cnf {
    ghost use Rattle.bb_cnf.specs.Clauses.{Formula, HasVariablesWithin, lists_of};

    ghost Value = { Formula };

    ghost view = { λ cnf. record { vars = cnf.vars; clauses = lists_of cnf.clauses.items } };

    ghost invariant = { λ cnf. HasVariablesWithin cnf.vars (lists_of cnf.clauses.items) };
}

impl Cnf {
    ghost use Rattle.bb_cnf.specs.Clauses.{Formula, HasVariablesWithin, lists_of};

    /// None where a variable is out of range. Only this call looks: `push` and `raise_vars` have the range as a
    /// precondition, so that a caller with sound clauses pays nothing for it.
    pub fn new(vars: u32, clauses: Vec<SmallVec<Lit, 4>>) -> Option<Cnf>
        ensures some { IfSome result (λ cnf. cnf ≡ record { vars = vars; clauses = lists_of clauses.items }) }
        ensures exact { IsSome result ↔ HasVariablesWithin vars (lists_of clauses.items) }
    {
        if are_within(&clauses, vars) {
            Some(Cnf { vars, clauses })
        } else {
            None
        }
    }

    /// The new clause has the next number. Numbers of earlier clauses stay, since steps name clauses by number.
    pub fn push(&mut self, clause: SmallVec<Lit, 4>) -> Result<(), NoMemory>
        requires { All (λ l. (1 ≤ l.var) × (l.var ≤ self.old.vars)) clause.items }
        ensures ok { OnOk result (self.new
            ≡ record { vars = self.old.vars; clauses = self.old.clauses ++ clause.items ∷ [] }) }
        ensures err { OnErr result (self.new ≡ self.old) }
    {
        self.clauses.push(clause)?;
        Ok(())
    }

    /// Room for variables of clauses that come later; the clauses stay as they are.
    pub fn raise_vars(&mut self, vars: u32)
        requires { self.old.vars ≤ vars }
        ensures { self.new ≡ record { vars = vars; clauses = self.old.clauses } }
    {
        self.vars = vars;
    }
}

fn is_within(lits: &[Lit], vars: u32) -> bool
    ensures { IsTrue result ↔ All (λ l. (1 ≤ l.var) × (l.var ≤ vars)) lits.now }
{
    lits.iter().all(|lit| 1 <= lit.var && lit.var <= vars)
}

fn are_within(clauses: &[SmallVec<Lit, 4>], vars: u32) -> bool
    ensures { IsTrue result ↔ All (λ clause. All (λ l. (1 ≤ l.var) × (l.var ≤ vars)) clause.items) clauses.now }
{
    clauses
        .iter()
        .all(|clause| is_within(clause.as_slice(), vars))
}
