//! An incremental solver: an iteration of the expansion costs what is new in it. Learned clauses, scores, phases,
//! watches and the trail survive from one search to the next; learned clauses follow from the clauses then given, so
//! they stay sound when more come. No assumptions and no removal of clauses: the expansion needs neither.

ghost use Rattle.std.specs.Prelude.{◌≡◌, ◌≤◌, ◌↔◌, ◌++◌, ◌∷◌, [], All, IfOk, OnOk, OnErr};
ghost use Rattle.bb_cnf.specs.Clauses.{Formula};
ghost use Rattle.bb_cdcl.specs.Inside.Outcomes.{HasModel};
ghost use Rattle.bb_cdcl.specs.Inside.Solved.{IfSolved, IfRefuted, IsSolved};

use crate::NoMemory;
use crate::handing_out::refutation;
use crate::helpers::Helpers;
use crate::resumption::resume;
use crate::search::search;
use crate::start::{model, start};
use crate::state::State;
use bb_cnf::{Cnf, Lit, Refutation, laws};
use smallvec::SmallVec;
use std::alloc::Global;
use std::marker::Model;

/// Clauses to which more may be added, with what searches learned from them.
// `known` is how many of the clauses the last search has taken in.
#[derive(Drop)]
pub struct Solver {
    alloc: Global,
    cnf: Cnf,
    state: State,
    helpers: Helpers,
    known: usize,
}

impl Model for Solver {
    ghost use Rattle.bb_cnf.specs.Clauses.{Formula};

    ghost Value = { Formula };

    ghost use Rattle.bb_cdcl.specs.Inside.Resting.{IsResting};

    ghost view = { λ s. s.cnf };

    ghost invariant = { λ s. IsResting s.known s.cnf s.state };
}

/// A model, bit of variable 1 first, and the solver to go on with; or a refutation and the clauses that it refutes,
/// which end the solver since more clauses change nothing.
#[derive(Drop)]
pub enum Solved {
    Sat(Vec<bool>, Solver),
    Unsat(Cnf, Refutation),
}

impl Solver {
    /// Takes no memory for the clauses until the first search.
    pub fn new(alloc: Global, cnf: Cnf) -> Result<Solver, NoMemory>
        ensures { IfOk result (λ solver. solver ≡ cnf) }
    {
        let state = start(alloc, 0)?;
        let helpers = Helpers::new(alloc, 0, 0)?;
        Ok(Solver {
            alloc,
            cnf,
            state,
            helpers,
            known: 0,
        })
    }

    /// All clauses, also those that no search has taken in yet.
    pub fn cnf(&self) -> &Cnf
        ensures { result.now ≡ self.now }
    {
        &self.cnf
    }

    /// The clause is taken in by the next `solve`, not here, so pushing many costs no backtracking between them.
    pub fn push(&mut self, clause: SmallVec<Lit, 4>) -> Result<(), NoMemory>
        requires { All (λ l. (1 ≤ l.var) × (l.var ≤ self.old.vars)) clause.items }
        ensures ok { OnOk result (self.new
            ≡ record { vars = self.old.vars; clauses = self.old.clauses ++ clause.items ∷ [] }) }
        ensures err { OnErr result (self.new ≡ self.old) }
    {
        self.cnf.push(clause)?;
        Ok(())
    }

    /// Never lowers the number, and takes no memory until the next `solve`.
    pub fn raise_vars(&mut self, vars: u32)
        requires { self.old.vars ≤ vars }
        ensures { self.new ≡ record { vars = vars; clauses = self.old.clauses } }
    {
        self.cnf.raise_vars(vars);
    }

    /// Continues from what earlier searches learned.
    pub fn solve(self) -> Result<Solved, NoMemory>
        ensures sat { IfOk result (λ solved. IfSolved solved self) }
        ensures unsat { IfOk result (λ solved. IfRefuted solved self) }
        ensures exact { IfOk result (λ solved. IsSolved solved ↔ HasModel self) }
    {
        laws::refutations();
        let Solver {
            alloc,
            cnf,
            mut state,
            mut helpers,
            known,
        } = self;
        resume(&cnf.clauses, known, cnf.vars, &mut state, &mut helpers)?;
        let known = cnf.clauses.len();
        if search(alloc, &cnf.clauses, &mut state, &mut helpers)? {
            let bits = model(alloc, &state.trail.values)?;
            let solver = Solver {
                alloc,
                cnf,
                state,
                helpers,
                known,
            };
            Ok(Solved::Sat(bits, solver))
        } else {
            let refutation = refutation(alloc, &cnf.clauses, state)?;
            Ok(Solved::Unsat(cnf, refutation))
        }
    }
}
