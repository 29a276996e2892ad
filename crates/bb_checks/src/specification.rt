//! Whether the specification's cells alone exceed the bound on nodes. Each check by BDDs builds them anew, with the
//! inputs in the same order in all four, and variables on which nothing depends leave as many beads; so one count
//! serves all. It is made once, after the first check that says `nodes` and only if another by BDDs follows: before the
//! first check most pairs would pay for it in vain.

ghost use Rattle.std.specs.Prelude.{◌≡◌, true, IfOk};
ghost use Rattle.bb_net.specs.Pairs.{NetPair};
ghost use Rattle.bb_options.specs.declared.options.Options.{Options};
ghost use Rattle.bb_options.specs.Rungs.{AreBounds};
ghost use Rattle.bb_checks.specs.Rungs.{MayReport};
ghost use Rattle.bb_checks.specs.declared.line.CheckResult.TheVariants as reports;
ghost use Rattle.bb_checks.specs.Inside.Specification.{IsKnown, is_by_diagrams};

use crate::line::CheckResult;
use bb_bits::NoMemory;
use bb_net::Pair;
use bb_options::{Options, Rung};
use bb_sym::specification_exceeds;
use std::alloc::Global;

/// Only ever moves down this list, from `Unknown` to one of the last two.
#[derive(Clone, Copy)]
pub(crate) enum Specification {
    /// No check by BDDs has said `nodes`.
    Unknown,
    /// One has, so a count may pay.
    Suspected,
    /// The specification alone is within the bound.
    Fits,
    /// It is not, so every check by BDDs would say `nodes`.
    Exceeds,
}

fn is_by_diagrams(rung: Rung) -> bool
    ensures diagrams { result ≡ is_by_diagrams rung }
{
    match rung {
        Rung::Symbolic | Rung::Local | Rung::Output | Rung::Input => true,
        Rung::Ternary | Rung::Expand => false,
    }
}

fn measure(alloc: Global, pair: &Pair, options: &Options) -> Result<Specification, NoMemory>
    requires bounds { AreBounds options.now }
    ensures known { IfOk result (IsKnown pair.now options.now) }
{
    bb_sym::laws::specification_counts();
    bb_input::specification_counts();
    if specification_exceeds(alloc, pair, options.nodes, options.cache)? {
        return Ok(Specification::Exceeds);
    }
    Ok(Specification::Fits)
}

/// Counts at the last moment, when it is sure that another check by BDDs follows.
pub(crate) fn known_before(
    alloc: Global,
    pair: &Pair,
    options: &Options,
    rung: Rung,
    known: Specification,
) -> Result<Specification, NoMemory>
    requires bounds { AreBounds options.now }
    requires known { IsKnown pair.now options.now known }
    ensures known { IfOk result (IsKnown pair.now options.now) }
{
    if matches!(known, Specification::Suspected) && is_by_diagrams(rung) {
        return measure(alloc, pair, options);
    }
    Ok(known)
}

/// True only where `Nodes` is a right result of the check without running it.
pub(crate) fn reports_nodes(known: Specification, rung: Rung) -> bool
    ensures nodes { result ≡ true → (p : NetPair) (o : Options) → IsKnown p o known → MayReport p o rung reports.Nodes }
{
    matches!(known, Specification::Exceeds) && is_by_diagrams(rung)
}

/// The count itself is left to `known_before`: this check may be the last.
pub(crate) fn known_after(known: Specification, check_result: &CheckResult) -> Specification
    ensures known { (p : NetPair) (o : Options) → IsKnown p o known → IsKnown p o result }
{
    if matches!(known, Specification::Unknown) && matches!(check_result, CheckResult::Nodes) {
        return Specification::Suspected;
    }
    known
}
