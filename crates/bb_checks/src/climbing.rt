//! Runs the requested checks in order: ternary simulation of patterns first, then the checks by BDDs (Bryant, 1986),
//! from unknown boxes to choices of their outputs, and the expansion to clauses last. Each finds every error that the
//! one before it finds, and more, and only the last two can give tables; so the weaker ones come first.

ghost use Rattle.std.specs.Prelude.{◌≡◌, [], ◌∷◌, ◌++◌, if◌then◌else◌, Some, IfOk, OnOk, IsErrOf};
ghost use Rattle.bb_input.specs.InputFunctions.{input_functions};
ghost use Rattle.bb_nest.specs.Answers.{IsInputAnswer};
ghost use Rattle.bb_options.specs.declared.rung.Rung.TheVariants as rungs;
ghost use Rattle.bb_options.specs.Rungs.{AreBounds, requested_rungs, is_requested};
ghost use Rattle.bb_checks.specs.Inside.Specification.{IsKnown};
ghost use Rattle.bb_checks.specs.Rungs.{AreTooMany, IsClimb, MayHit, MayReport, ends, reported};

use crate::line::{CheckResult, Evidence, Line, Proof};
use crate::specification::{Specification, known_after, known_before, reports_nodes};
use crate::verdict::{is_error, is_repair};
use bb_bits::NoMemory;
use bb_expand::{ExpandFault, Expanded, expand};
use bb_input::{InputAnswer, input};
use bb_nest::{nest, singles_answer_the_same};
use bb_net::Pair;
use bb_options::{Options, Rung};
use bb_sym::{Found, RungFault, local, output, symbolic};
use bb_tern::laws::patterns_are_vectors;
use bb_tern::{patterns, simulate};
use std::alloc::Global;

fn ternary(alloc: Global, pair: &Pair, options: &Options) -> Result<CheckResult, NoMemory>
    requires bounds { AreBounds options.now }
    ensures check_result { IfOk result (MayHit pair.now options.now) }
{
    patterns_are_vectors();
    let tried = patterns(alloc, pair.imp().inputs(), options.patterns, options.seed)?;
    match simulate(alloc, pair, &tried)? {
        Some(hit) => Ok(CheckResult::Error(Evidence::Vector(Found {
            output: Some(hit.output),
            input: hit.pattern,
        }))),
        None => Ok(CheckResult::Nothing),
    }
}

// `Nodes` is a result of the check and no error of the call: the next check may still decide.
fn check_result(answer: Result<Option<Found>, RungFault>) -> Result<CheckResult, NoMemory>
    ensures check_result { IfOk result (λ check_result. reported answer ≡ Some check_result) }
{
    match answer {
        Ok(Some(found)) => Ok(CheckResult::Error(Evidence::Vector(found))),
        Ok(None) => Ok(CheckResult::Nothing),
        Err(RungFault::Nodes) => Ok(CheckResult::Nodes),
        Err(RungFault::NoMemory) => Err(NoMemory),
    }
}

fn symbolic_reports(alloc: Global, pair: &Pair, options: &Options) -> Result<CheckResult, NoMemory>
    requires bounds { AreBounds options.now }
    ensures check_result { IfOk result (MayReport pair.now options.now rungs.Symbolic) }
{
    check_result(symbolic(alloc, pair, options.nodes, options.cache))
}

fn local_reports(alloc: Global, pair: &Pair, options: &Options) -> Result<CheckResult, NoMemory>
    requires bounds { AreBounds options.now }
    ensures check_result { IfOk result (MayReport pair.now options.now rungs.Local) }
{
    check_result(local(alloc, pair, options.nodes, options.cache))
}

fn output_reports(alloc: Global, pair: &Pair, options: &Options) -> Result<CheckResult, NoMemory>
    requires bounds { AreBounds options.now }
    ensures check_result { IfOk result (MayReport pair.now options.now rungs.Output) }
{
    check_result(output(alloc, pair, options.nodes, options.cache))
}

// With at most one box the answer of `input`, with several that of `nest`, where the boxes may be nested. A law says
// that with one box both answer the same, so the relation of the report has no case by the number of boxes.
fn chosen(alloc: Global, pair: &Pair, options: &Options) -> Result<InputAnswer, RungFault>
    requires bounds { AreBounds options.now }
    ensures answer { IfOk result (IsInputAnswer pair.now.spec pair.now.imp pair.now.kinds) }
    ensures nodes { IsErrOf result RungFault.Nodes
        → AreTooMany options.now (input_functions pair.now.spec pair.now.imp) }
    ensures within { AreTooMany options.now (input_functions pair.now.spec pair.now.imp) → OnOk result ⊥ }
{
    singles_answer_the_same();
    if pair.imp().boxes().len() > 1 {
        return nest(alloc, pair, options.nodes, options.cache);
    }
    input(alloc, pair, options.nodes, options.cache)
}

fn input_reports(alloc: Global, pair: &Pair, options: &Options) -> Result<CheckResult, NoMemory>
    requires bounds { AreBounds options.now }
    ensures check_result { IfOk result (MayReport pair.now options.now rungs.Input) }
{
    match chosen(alloc, pair, options) {
        Ok(InputAnswer::Error) => Ok(CheckResult::Error(Evidence::NoChoices)),
        Ok(InputAnswer::Clear) => Ok(CheckResult::Nothing),
        Ok(InputAnswer::Repair(tables)) => Ok(CheckResult::Repair(tables)),
        Err(RungFault::Nodes) => Ok(CheckResult::Nodes),
        Err(RungFault::NoMemory) => Err(NoMemory),
    }
}

fn expand_reports(alloc: Global, pair: &Pair, options: &Options) -> Result<CheckResult, NoMemory>
    requires bounds { AreBounds options.now }
    ensures check_result { IfOk result (MayReport pair.now options.now rungs.Expand) }
{
    match expand(alloc, pair, options.clauses) {
        Ok(
            Expanded::Error {
                vectors,
                cnf,
                refutation,
            },
        ) => Ok(CheckResult::Error(Evidence::Refutation(Proof {
            vectors,
            cnf,
            refutation,
        }))),
        Ok(Expanded::Repair(tables)) => Ok(CheckResult::Repair(tables)),
        Err(ExpandFault::Clauses) => Ok(CheckResult::Clauses),
        Err(ExpandFault::Wide) => Ok(CheckResult::Wide),
        Err(ExpandFault::NoMemory) => Err(NoMemory),
    }
}

fn say(alloc: Global, pair: &Pair, options: &Options, rung: Rung) -> Result<CheckResult, NoMemory>
    requires bounds { AreBounds options.now }
    ensures check_result { IfOk result (MayReport pair.now options.now rung) }
{
    match rung {
        Rung::Ternary => ternary(alloc, pair, options),
        Rung::Symbolic => symbolic_reports(alloc, pair, options),
        Rung::Local => local_reports(alloc, pair, options),
        Rung::Output => output_reports(alloc, pair, options),
        Rung::Input => input_reports(alloc, pair, options),
        Rung::Expand => expand_reports(alloc, pair, options),
    }
}

// Skips a check by BDDs whose result `Nodes` is known beforehand: the specification's cells alone exceed its bound.
fn say_next(
    alloc: Global,
    pair: &Pair,
    options: &Options,
    rung: Rung,
    known: &mut Specification,
) -> Result<CheckResult, NoMemory>
    requires bounds { AreBounds options.now }
    requires known { IsKnown pair.now options.now known.old }
    ensures known { OnOk result (IsKnown pair.now options.now known.new) }
    ensures check_result { IfOk result (MayReport pair.now options.now rung) }
{
    *known = known_before(alloc, pair, options, rung, *known)?;
    if reports_nodes(*known, rung) {
        return Ok(CheckResult::Nodes);
    }
    let check_result = say(alloc, pair, options, rung)?;
    *known = known_after(*known, &check_result);
    Ok(check_result)
}

fn is_requested(options: &Options, rung: Rung) -> bool
    ensures requested { result ≡ is_requested options.now rung }
{
    options.from.rank() <= rung.rank() && rung.rank() <= options.to.rank()
}

fn push_requested(options: &Options, rung: Rung, list: &mut Vec<Rung>) -> Result<(), NoMemory>
    ensures pushed { OnOk result (list.new.items
        ≡ list.old.items ++ (if is_requested options.now rung then rung ∷ [] else [])) }
{
    if is_requested(options, rung) {
        list.push(rung)?;
    }
    Ok(())
}

fn requested(alloc: Global, options: &Options) -> Result<Vec<Rung>, NoMemory>
    ensures requested { IfOk result (λ list. list.items ≡ requested_rungs options.now) }
{
    let mut list = Vec::new(alloc);
    push_requested(options, Rung::Ternary, &mut list)?;
    push_requested(options, Rung::Symbolic, &mut list)?;
    push_requested(options, Rung::Local, &mut list)?;
    push_requested(options, Rung::Output, &mut list)?;
    push_requested(options, Rung::Input, &mut list)?;
    push_requested(options, Rung::Expand, &mut list)?;
    Ok(list)
}

// Tables end the run even with `all`: no error can come after them, and no second tables are wanted.
fn ends(options: &Options, line: &Line) -> bool
    ensures ends { result ≡ ends options.now line.now }
{
    is_repair(line) || (is_error(line) && !options.all)
}

/// The results in the order of the checks. The run ends after the first check that gives tables, and after the first
/// error unless `all` is set.
pub fn climb(alloc: Global, pair: &Pair, options: &Options) -> Result<Vec<Line>, NoMemory>
    requires bounds { AreBounds options.now }
    ensures lines { IfOk result (λ lines. IsClimb pair.now options.now lines.items) }
{
    let rungs = requested(alloc, options)?;
    let mut lines = Vec::new(alloc);
    let mut known = Specification::Unknown;
    for rung in &rungs {
        let check_result = say_next(alloc, pair, options, *rung, &mut known)?;
        let line = Line {
            rung: *rung,
            check_result,
        };
        let last = ends(options, &line);
        lines.push(line)?;
        if last {
            return Ok(lines);
        }
    }
    Ok(lines)
}
