//! Clause numbers while given clauses still come. Learned clauses are numbered after all given ones, so their numbers
//! grow with each given clause; steps keep the numbers of their time and the count of given clauses then, and are
//! renumbered once, when they are handed out.

ghost use Rattle.std.specs.Prelude.{ℕ, ◌≡◌, ◌<◌, ◌≤◌, ◌^◌, All, IfOk, map};
ghost use Rattle.bb_cnf.specs.Lines.{step_numbers};
ghost use Rattle.bb_cdcl.specs.Laws.Numbers.{moved_number, moved_pair};
ghost use Rattle.bb_cdcl.specs.Inside.Dates.{AreBelow, numbers_after};

use crate::NoMemory;
use bb_cnf::Step;
use std::alloc::Global;

/// `given` is the number of given clauses when the step was made.
#[derive(Drop)]
pub(crate) struct DatedStep {
    pub(crate) given: usize,
    pub(crate) step: Step,
}

pub(crate) fn moved(number: u64, given: usize, more: usize) -> u64
    requires { moved_number given more number < 2 ^ 64 }
    ensures { result ≡ moved_number given more number }
{
    if number < given as u64 {
        number
    } else {
        number + more as u64
    }
}

fn moved_pairs(
    alloc: Global,
    pairs: &[(u64, u32)],
    given: usize,
    more: usize,
) -> Result<Vec<(u64, u32)>, NoMemory>
    requires { All (λ pair. moved_number given more pair.0 < 2 ^ 64) pairs.now }
    ensures { IfOk result (λ all. all.items ≡ map (moved_pair given more) pairs.now) }
{
    let mut all = Vec::with_capacity(alloc, pairs.len())?;
    for pair in pairs {
        let number = moved(pair.0, given, more);
        all.push((number, pair.1))?;
    }
    Ok(all)
}

// A step that is up to date is moved out and not copied.
fn step_of(alloc: Global, dated: DatedStep, given: usize) -> Result<Step, NoMemory>
    requires early { dated.given ≤ given }
    requires short { AreBelow (2 ^ 64) (numbers_after given dated) }
    ensures { IfOk result (λ step. step_numbers step ≡ numbers_after given dated) }
{
    let more = given - dated.given;
    if more == 0 {
        return Ok(dated.step);
    }
    let first = moved(dated.step.first, dated.given, more);
    let rest = moved_pairs(alloc, &dated.step.rest, dated.given, more)?;
    Ok(Step { first, rest })
}

pub(crate) fn steps_of(
    alloc: Global,
    dated: Vec<DatedStep>,
    given: usize,
) -> Result<Vec<Step>, NoMemory>
    requires early { All (λ d. d.given ≤ given) dated.items }
    requires short { All (λ d. AreBelow (2 ^ 64) (numbers_after given d)) dated.items }
    ensures { IfOk result (λ steps. map step_numbers steps.items ≡ map (numbers_after given) dated.items) }
{
    let mut steps = Vec::with_capacity(alloc, dated.len())?;
    for one in dated {
        let step = step_of(alloc, one, given)?;
        steps.push(step)?;
    }
    Ok(steps)
}
