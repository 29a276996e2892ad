//! `run` over files and a sink that never fail. Such files count their reads and keep no list of them, since a caller
//! over any files is promised that the count rises; what they hold is known, so the clauses here speak of that alone.
//! The sink keeps nothing, so a clause on the report says only that there is one.

ghost use Rattle.std.specs.Prelude.{◌≡◌, ◌≢◌, ◌<◌, ◌≤◌, ◌⊎◌, ℕ, List, None, Some, map, string_bytes};
ghost use Rattle.bb_cnf.specs.Clauses.{Formula};
ghost use Rattle.bb_cnf.specs.declared.clauses.Lit.{Lit};
ghost use Rattle.bb_outside.specs.Inside.QuietFiles.{holds_of, reads_of};
ghost use Rattle.bb_args.specs.Requests.{MadePair, requested_made_pair, requested_refutation};
ghost use Rattle.bb_ladder.specs.Answers.{IsVerdict, MayAnswer};
ghost use Rattle.bb_ladder.specs.CallRefusals.{IsCallRefusal};
ghost use Rattle.bb_ladder.specs.Calls.{called};
ghost use Rattle.bb_ladder.specs.ContractForms.{OfRefutations, OfTexts, OfWholeRefutations, OfWholeTexts};
ghost use Rattle.bb_ladder.specs.Refutations.{AreRead, FailsAt, Refutes, ReportsWhether};
ghost use Rattle.bb_verdict.specs.InvariantAnswers.{AreDecidedWith, AreLeftOpenWith, AreRefutedWith};
ghost use Rattle.bb_verdict.specs.InvariantAnswers.{AreShownWith, IsFinishedWith, IsOpenReportWith};
ghost use Rattle.bb_verdict.specs.TextPairs.{AreStayingOpen, DoFit};
ghost use Rattle.bb_ladder.specs.Sources.{Held, MayHaveFailed, TextSource};

use crate::running::run;
use bb_outside::{QuietFiles, QuietSink};
use std::alloc::Global;

/// [`run`] for a caller who has the texts in memory and wants the status alone. Nothing outside can fail, so statuses 4
/// and 6 do not come, and no failure is counted (`calm`). Each status means what it means in [`run`]; the report is
/// made and not kept.
pub fn run_quietly(
    alloc: Global,
    words: &[String],
    files: &mut QuietFiles,
    out: &mut QuietSink,
) -> u8
    ensures status { result ≤ 5 }

    // Neither a file nor the sink is blamed, and no read may have failed, which is a premise of some clauses.
    ensures calm { (from : TextSource) → MayHaveFailed from (reads_of files.old) (reads_of files.new) → ⊥ }
    ensures given { result ≢ 4 }
    ensures taken { result ≢ 6 }

    // The status is that of some possible report, unless memory runs out.
    ensures whole { result < 5
        → (text : List ℕ) × MayAnswer (called words.now holds_of reads_of files.old files.new) result text }

    // Statuses 0, 1 and 3 come only of texts in which nothing is at fault and that fit.
    ensures fit { IsVerdict result → OfTexts (called words.now holds_of reads_of files.old files.new) DoFit }

    // Tables exist with which every output and every next state is equal at every vector; with a care output or an
    // invariant, at every vector at which it is 1. So the two behave alike for ever, whatever events come; with an
    // invariant, from each state in which it is 1 whatever the inputs are.
    ensures repairable { result ≡ 0
        → OfTexts (called words.now holds_of reads_of files.old files.new) (λ requested spec imp.
        (text : List ℕ) × IsFinishedWith requested spec imp text) }

    // No contents of the boxes make every output and every next state equal at every such vector, and a report shows
    // how.
    ensures error { result ≡ 1 → OfTexts (called words.now holds_of reads_of files.old files.new) AreRefutedWith }
    ensures shown { result ≡ 1 → OfTexts (called words.now holds_of reads_of files.old files.new) (λ requested spec imp.
        (text : List ℕ) × AreShownWith requested spec imp text) }

    // An open answer means that each requested check leaves the question open; where it stays open with each, the
    // answer is open, and where one decides and no invariant is in doubt, it is not.
    ensures left_open { result ≡ 3 → OfTexts (called words.now holds_of reads_of files.old files.new) AreLeftOpenWith }
    ensures open_report { result ≡ 3
        → OfTexts (called words.now holds_of reads_of files.old files.new) (λ requested spec imp.
        (text : List ℕ) × IsOpenReportWith requested spec imp text) }
    ensures stays_open { OfWholeTexts (called words.now holds_of reads_of files.old files.new) (λ requested spec imp.
        AreStayingOpen requested spec imp → (result ≡ 3) ⊎ (result ≡ 5)) }
    ensures decided { OfWholeTexts (called words.now holds_of reads_of files.old files.new) (λ requested spec imp.
        AreDecidedWith requested spec imp → ((result ≡ 0) ⊎ (result ≡ 1)) ⊎ (result ≡ 5)) }

    // With `--rup` the status says whether each addition follows.
    ensures refuted_yes { result ≡ 0 → OfRefutations (called words.now holds_of reads_of files.old files.new) Refutes }
    ensures refuted_no { result ≡ 1
        → OfRefutations (called words.now holds_of reads_of files.old files.new) (λ first second.
        (n : ℕ) × FailsAt first second n) }
    ensures refuted { OfWholeRefutations (called words.now holds_of reads_of files.old files.new) (λ first second.
        (formula : Formula) (adds : List (List Lit)) → AreRead first second formula adds
        → ReportsWhether formula adds result ⊎ (result ≡ 5)) }
    ensures open_compares { result ≡ 3 → requested_refutation (map string_bytes words.now) ≡ None }

    // Status 2 comes only where the call is refused, and then it comes.
    ensures refused { result ≡ 2
        → (line : List ℕ) × IsCallRefusal (called words.now holds_of reads_of files.old files.new) Held line }
    ensures stays_refused { (line : List ℕ)
        → IsCallRefusal (called words.now holds_of reads_of files.old files.new) Held line
        → (result ≡ 2) ⊎ (result ≡ 5) }

    // For a made pair no file is read.
    ensures reads_nothing { (m : MadePair) → requested_made_pair (map string_bytes words.now) ≡ Some m
        → reads_of files.new ≡ reads_of files.old }

    // What the files hold stays.
    ensures kept { (n : List ℕ) → holds_of files.new n ≡ holds_of files.old n }
{
    run(alloc, words, files, out)
}
