//! The sample set and its incremental solver. The clauses of a sample are pushed after the others, so an iteration
//! builds those of its own samples only, and the solver keeps what it learned.

ghost use Rattle.std.specs.Prelude.{◌≡◌, ◌+◌, ◌<◌, ◌^◌, ◌++◌, ◌∷◌, [], length, map, vec_items, IfOk, OnOk};
ghost use Rattle.bb_cnf.specs.Clauses.{HasVariablesWithin, lists_of};
ghost use Rattle.bb_net.specs.Completions.{table_bits, HaveSmallTables};
ghost use Rattle.bb_net.specs.Kinds.{representatives};
ghost use Rattle.bb_expand.specs.Expansions.{expansion};

use crate::laws::expansions_and_tables;
use crate::rows::table_starts;
use crate::vectors::push_vector;
use bb_bits::NoMemory;
use bb_cdcl::Solver;
use bb_cnf::{Cnf, Lit};
use bb_net::Pair;
use smallvec::SmallVec;
use std::alloc::Global;

/// `distinguishing` are the required samples in order, a sublist of `vectors`. The solver has the clauses of all
/// `vectors`, in their order.
#[derive(Drop)]
pub(crate) struct SampleSet {
    pub(crate) vectors: Vec<Vec<bool>>,
    pub(crate) distinguishing: Vec<Vec<bool>>,
    pub(crate) solver: Solver,
}

// The first `bits` variables are the table bits.
pub(crate) fn no_samples(alloc: Global, pair: &Pair, bits: u32) -> Result<SampleSet, NoMemory>
    requires bits { bits ≡ table_bits (representatives pair.now.kinds pair.now.imp.boxes) }
    ensures none { IfOk result (λ new. new.vectors.items ≡ []) }
    ensures distinguishing { IfOk result (λ new. new.distinguishing.items ≡ []) }
    ensures cnf { IfOk result (λ new. new.solver ≡ expansion pair.now.spec pair.now.imp pair.now.kinds []) }
{
    let _ = pair;
    let cnf = Cnf {
        vars: bits,
        clauses: Vec::new(alloc),
    };
    let solver = Solver::new(alloc, cnf)?;
    Ok(SampleSet {
        vectors: Vec::new(alloc),
        distinguishing: Vec::new(alloc),
        solver,
    })
}

fn push_all(solver: &mut Solver, clauses: Vec<SmallVec<Lit, 4>>) -> Result<(), NoMemory>
    requires within { HasVariablesWithin solver.old.vars (lists_of clauses.items) }
    ensures pushed { OnOk result (solver.new
        ≡ record { vars = solver.old.vars; clauses = solver.old.clauses ++ lists_of clauses.items }) }
{
    for clause in clauses {
        solver.push(clause)?;
    }
    Ok(())
}

// A sample needs a variable for each cell of the implementation, and its clauses come last.
pub(crate) fn with_vector(
    alloc: Global,
    pair: &Pair,
    samples: SampleSet,
    x: &[bool],
) -> Result<SampleSet, NoMemory>
    requires small { HaveSmallTables (representatives pair.now.kinds pair.now.imp.boxes) }
    requires inputs { length x.now ≡ pair.now.imp.inputs }
    requires expands { samples.solver
        ≡ expansion pair.now.spec pair.now.imp pair.now.kinds (map vec_items samples.vectors.items) }
    requires fits { samples.solver.vars + length pair.now.imp.cells < 2 ^ 32 }
    ensures vectors { IfOk result (λ new.
        map vec_items new.vectors.items ≡ map vec_items samples.vectors.items ++ x.now ∷ []) }
    ensures distinguishing { IfOk result (λ new. new.distinguishing.items ≡ samples.distinguishing.items) }
    ensures cnf { IfOk result (λ new. new.solver
        ≡ expansion pair.now.spec pair.now.imp pair.now.kinds (map vec_items samples.vectors.items ++ x.now ∷ [])) }
{
    expansions_and_tables();
    let SampleSet {
        mut vectors,
        distinguishing,
        mut solver,
    } = samples;
    let vars = solver.cnf().vars;
    let starts = table_starts(alloc, pair)?;
    let mut values = vec![in alloc; false; pair.spec().cells().len()]?;
    let mut clauses = Vec::new(alloc);
    push_vector(&mut clauses, vars, pair, &starts, x, &mut values)?;
    solver.raise_vars(vars + pair.imp().cells().len() as u32);
    push_all(&mut solver, clauses)?;
    vectors.push(Vec::from_slice(alloc, x)?)?;
    Ok(SampleSet {
        vectors,
        distinguishing,
        solver,
    })
}
