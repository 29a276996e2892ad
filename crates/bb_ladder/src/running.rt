//! The top call. The report is made whole before its first byte is written, so an error in between leaves no half
//! report. Where bytes come from (held by files, or given by this call's reads) and what is requested are two
//! definitions that do not know of each other, so each clause on texts holds for both; how files are read is a third
//! (`OfFiles`). A call is a value (`Call`), and each clause has one of six forms over it. Where files say nothing, the
//! clauses speak of some two texts within the limit; on bytes, wherever they came from, see `judge_pair`.

ghost use Rattle.std.specs.Prelude.{◌≡◌, ◌≤◌, ◌<◌, ◌⊎◌, ℕ, List, None, Some, codes, length, map, take, string_bytes};
ghost use Rattle.std.specs.Prelude.{IfOk};
ghost use Rattle.std.specs.Io.KnownBytes.{Appends, Keeps};
ghost use Rattle.bb_outside.specs.Counts.{CountsWhere, FileRead, Rose, next_count};
ghost use Rattle.bb_cnf.specs.Clauses.{Formula};
ghost use Rattle.bb_cnf.specs.declared.clauses.Lit.{Lit};
ghost use Rattle.bb_args.specs.Requests.{MadePair, requested_made_pair, requested_refutation};
ghost use Rattle.bb_frontend.specs.declared.limit.TheConstants.{READ_LIMIT};
ghost use Rattle.bb_ladder.specs.Answers.{AfterSpec, IsVerdict, MayAnswer, OfFiles};
ghost use Rattle.bb_ladder.specs.CallRefusals.{AreReadsKnown, IsCallRefusal};
ghost use Rattle.bb_ladder.specs.Calls.{called};
ghost use Rattle.bb_ladder.specs.ContractForms.{OfRefutations, OfTexts, OfWholeRefutations, OfWholeTexts, Reports};
ghost use Rattle.bb_ladder.specs.ContractForms.{Writes};
ghost use Rattle.bb_ladder.specs.GivenTexts.{HaveGiven};
ghost use Rattle.bb_ladder.specs.Refutations.{AreRead, FailsAt, Refutes, ReportsWhether, no_line};
ghost use Rattle.bb_verdict.specs.InvariantAnswers.{AreDecidedWith, AreLeftOpenWith, AreRefutedWith};
ghost use Rattle.bb_verdict.specs.InvariantAnswers.{AreShownWith, IsFinishedWith, IsOpenReportWith};
ghost use Rattle.bb_verdict.specs.TextPairs.{AreStayingOpen, DoFit};
ghost use Rattle.bb_ladder.specs.Sources.{MayHaveFailed, TextSource};
ghost use Rattle.bb_ladder.specs.Inside.Tasks.{IsBounded, judged_by};

use crate::call_laws::{answered_have_given, answers_speak_of_texts, calls_are_refused};
use crate::making::judge_made;
use crate::refuting::{judge_refutation, refutations_are_answered};
use crate::words::{Job, PairRequest, Task, job_of};
use bb_args::{WordsFault, words_request_once};
use bb_bits::NoMemory;
use bb_frontend::READ_LIMIT;
use bb_outside::{FileFault, Files, Sink, put_all};
use bb_verdict::invariant_laws::answers_to_texts_are_meant;
use bb_verdict::{Answer, judge_pair, say};
use std::alloc::Global;

fn judge(alloc: Global, first: &[u8], second: &[u8], task: &Task) -> Result<Answer, NoMemory>
    requires first { length first.now < READ_LIMIT }
    requires second { length second.now < READ_LIMIT }
    requires bounds { IsBounded task.now }
    ensures answer { IfOk result (λ answer. judged_by task.now first.now second.now answer.status answer.report.items) }
{
    match task {
        Task::Comparison(requested) => judge_pair(alloc, first, second, requested),
        Task::Refutation => judge_refutation(alloc, first, second),
    }
}

// One byte more than a text may have is read, so that `toolong` is seen without the length of the file.
fn read_imp<F: Files>(
    alloc: Global,
    spec: &[u8],
    pair_request: &PairRequest<'_>,
    files: &mut F,
) -> Result<Answer, NoMemory>
    requires short { length spec.now < READ_LIMIT }
    requires bounds { IsBounded pair_request.now.task }
    ensures answer { IfOk result (λ answer. AfterSpec (judged_by pair_request.now.task)
        (F.holds files.old pair_request.now.imp.now) pair_request.now.imp.now (F.reads files.old)
        (F.reads files.new) spec.now answer.status answer.report.items) }
    ensures never_falls { (F.reads files.old).faults ≤ (F.reads files.new).faults }
    ensures kept { (n : List ℕ) → F.holds files.new n ≡ F.holds files.old n }
{
    match files.read(alloc, pair_request.imp, READ_LIMIT) {
        Err(FileFault::Failed) => say(alloc, 4, "unread impl\n"),
        Err(FileFault::NoMemory) => Err(NoMemory),
        Ok(text) if text.len() as u64 == READ_LIMIT => say(alloc, 2, "refused impl toolong\n"),
        Ok(text) => judge(alloc, spec, &text, &pair_request.task),
    }
}

// A specification that is too long is refused before the second file is read.
fn read_spec<F: Files>(
    alloc: Global,
    pair_request: &PairRequest<'_>,
    files: &mut F,
) -> Result<Answer, NoMemory>
    requires bounds { IsBounded pair_request.now.task }
    ensures answer { IfOk result (λ answer.
        OfFiles (judged_by pair_request.now.task) (F.holds files.old) pair_request.now.spec.now pair_request.now.imp.now
        (F.reads files.old) (F.reads files.new) answer.status answer.report.items) }
    ensures never_falls { (F.reads files.old).faults ≤ (F.reads files.new).faults }
    ensures kept { (n : List ℕ) → F.holds files.new n ≡ F.holds files.old n }
{
    match files.read(alloc, pair_request.spec, READ_LIMIT) {
        Err(FileFault::Failed) => say(alloc, 4, "unread spec\n"),
        Err(FileFault::NoMemory) => Err(NoMemory),
        Ok(text) if text.len() as u64 == READ_LIMIT => say(alloc, 2, "refused spec toolong\n"),
        Ok(text) => read_imp(alloc, &text, pair_request, files),
    }
}

fn answer<F: Files>(alloc: Global, words: &[String], files: &mut F) -> Result<Answer, NoMemory>
    ensures answer { IfOk result (λ answer. MayAnswer (called words.now F.holds F.reads files.old files.new)
        answer.status answer.report.items) }
    ensures never_falls { (F.reads files.old).faults ≤ (F.reads files.new).faults }
    ensures kept { (n : List ℕ) → F.holds files.new n ≡ F.holds files.old n }
    ensures reads_nothing { (m : MadePair) → requested_made_pair (map string_bytes words.now) ≡ Some m
        → F.reads files.new ≡ F.reads files.old }
{
    words_request_once();
    match job_of(alloc, words) {
        Ok(Job::Files(pair_request)) => read_spec(alloc, &pair_request, files),
        Ok(Job::Made { n, fill, options }) => judge_made(alloc, n, fill, &options),
        Err(WordsFault::Usage) => say(alloc, 2, "refused usage\n"),
        Err(WordsFault::NoMemory) => Err(NoMemory),
    }
}

/// Compares an implementation with a specification, given or made, or checks clause additions against a formula, and
/// writes a report. The result is a status:
///
/// - 0: the report is written and ends with tables and `verdict repairable`, after which the filled implementation
///   comes where it is requested, or is `rup yes`;
/// - 1: the report is written and ends with `verdict error`, or is `rup no` and a number;
/// - 2: the report is the line of a refusal;
/// - 3: the report is written and ends with `verdict open`, by the checks or by an invariant that is not kept or that
///   it takes too much to find out about;
/// - 4: a file could not be read, and the report says which;
/// - 5: nothing is written, as where memory runs out;
/// - 6: the sink failed, and a prefix of a report is written.
///
/// The first word is the program's name. The specification is read first and the implementation after it, each by one
/// read; for a made pair nothing is read, and two lines come before its report. Clauses on texts hold of what the files
/// hold, where they say it, and of the bytes that the two reads gave, where the reads are listed.
pub fn run<F: Files, K: Sink>(alloc: Global, words: &[String], files: &mut F, out: &mut K) -> u8
    ensures status { result ≤ 6 }

    // What is written is a whole report, nothing, or a prefix of a report.
    ensures whole { result < 5
        → Writes K.written out.old out.new (MayAnswer (called words.now F.holds F.reads files.old files.new) result) }
    ensures silent { result ≡ 5 → Keeps (K.written out.old) (K.written out.new) }
    ensures prefix { result ≡ 6 → (status : ℕ) × (text : List ℕ) × (n : ℕ) × (n < length text)
        × Appends (K.written out.old) (K.written out.new) (take n text)
        × MayAnswer (called words.now F.holds F.reads files.old files.new) status text }

    // Statuses 0, 1 and 3 come only of texts in which nothing is at fault and that fit.
    ensures fit { IsVerdict result → OfTexts (called words.now F.holds F.reads files.old files.new) DoFit }

    // The design is reported as repairable only with tables whose contents make every output and every next state equal
    // at every vector; with a care output or an invariant, at every vector at which it is 1. So the two behave alike
    // for ever: from the same states, whatever events come, the implementation with these contents gives the outputs of
    // the specification at each event, but for the care output, and has its states after it; with a care output as long
    // as it is 1. An invariant is kept by each event, so with one this holds for ever from each state in which it is 1
    // whatever the inputs are; the line that says so comes before those of the checks. And where the filled
    // implementation is requested, after the verdict comes a line that says why there is none, or `fill` and a text
    // that finishes the design: it reads as a design without boxes that is equivalent to the specification at every
    // such vector, and to the implementation, its boxes filled as the tables say, at every vector, and that runs as the
    // specification does. As an implementation it has no fault and it fits, whether its top is named or not.
    ensures repairable { result ≡ 0
        → Reports K.written out.old out.new (called words.now F.holds F.reads files.old files.new) IsFinishedWith }

    // An error is reported only where the two can be compared and no contents of the boxes make every output and every
    // next state equal at every such vector, and only where each event keeps the invariant, if one is requested.
    ensures error { result ≡ 1 → OfTexts (called words.now F.holds F.reads files.old files.new) AreRefutedWith }

    // And the report shows how: after the line of a check that finds it at a vector come the output that is wrong
    // there, where one is named, and the vector, at which the two designs differ whatever the boxes contain; and after
    // the line of the expansion, where a proof is requested, vectors at one of which they differ with each contents.
    ensures shown { result ≡ 1
        → Reports K.written out.old out.new (called words.now F.holds F.reads files.old files.new) AreShownWith }

    // The question is left open only where, for each pair of the texts, each requested check finds neither an error nor
    // tables, would need more nodes or may need more clauses than its bound, or would need tables that are too large;
    // or where an event breaks the invariant, or too much is needed to find out. The report has a line for each check,
    // or shows the event.
    ensures left_open { result ≡ 3 → OfTexts (called words.now F.holds F.reads files.old files.new) AreLeftOpenWith }
    ensures open_report { result ≡ 3
        → Reports K.written out.old out.new (called words.now F.holds F.reads files.old files.new) IsOpenReportWith }

    // Where the texts are within the limit, no read of them may have failed, a requested check decides a pair of the
    // texts, and the invariant, if one is requested, is not in doubt, the answer is an error or tables, unless memory
    // runs out.
    ensures decided { OfWholeTexts (called words.now F.holds F.reads files.old files.new) (λ requested spec imp.
        AreDecidedWith requested spec imp → (Rose (K.faults out.old) (K.faults out.new) → ⊥)
        → ((result ≡ 0) ⊎ (result ≡ 1)) ⊎ (result ≡ 5)) }

    // And where the question stays open with each requested check, whatever the solver does, that is the answer.
    ensures stays_open { OfWholeTexts (called words.now F.holds F.reads files.old files.new) (λ requested spec imp.
        AreStayingOpen requested spec imp → (Rose (K.faults out.old) (K.faults out.new) → ⊥)
        → (result ≡ 3) ⊎ (result ≡ 5)) }

    // With `--rup` status 0 says that each addition follows, and so no assignment makes all clauses of the first text
    // true.
    ensures refuted_yes { result ≡ 0
        → OfRefutations (called words.now F.holds F.reads files.old files.new) (λ first second.
        Appends (K.written out.old) (K.written out.new) (codes "rup yes\n") × Refutes first second) }

    // Status 1 names the first addition that does not.
    ensures refuted_no { result ≡ 1
        → OfRefutations (called words.now F.holds F.reads files.old files.new) (λ first second.
        (n : ℕ) × Appends (K.written out.old) (K.written out.new) (no_line n) × FailsAt first second n) }

    // Where both texts are read without fault and no read of them may have failed, one of the two comes, by whether the
    // additions succeed, unless memory runs out.
    ensures refuted { OfWholeRefutations (called words.now F.holds F.reads files.old files.new) (λ first second.
        (formula : Formula) (adds : List (List Lit)) → AreRead first second formula adds
        → (Rose (K.faults out.old) (K.faults out.new) → ⊥)
        → ReportsWhether formula adds result ⊎ (result ≡ 5)) }

    // A question is left open only of a comparison.
    ensures open_compares { result ≡ 3 → requested_refutation (map string_bytes words.now) ≡ None }

    // Status 2 names the first thing for which the call is refused: its words, the length of a file, or what is wrong
    // with the two texts.
    ensures refused { result ≡ 2 → (from : TextSource)
        → AreReadsKnown (called words.now F.holds F.reads files.old files.new) from
        → Writes K.written out.old out.new (IsCallRefusal (called words.now F.holds F.reads files.old files.new)
        from) }

    // And where the call is to be refused and no read may have failed, that is the answer, unless memory runs out.
    ensures stays_refused { (from : TextSource) (line : List ℕ)
        → IsCallRefusal (called words.now F.holds F.reads files.old files.new) from line
        → (MayHaveFailed from (F.reads files.old) (F.reads files.new) → ⊥)
        → (Rose (K.faults out.old) (K.faults out.new) → ⊥)
        → ((result ≡ 2) × Appends (K.written out.old) (K.written out.new) line) ⊎ (result ≡ 5) }

    // Where the reads are listed, those of this call gave the texts of which statuses 0, 1 and 3 speak, and as much as
    // a refusal rests on.
    ensures given { (earlier : List FileRead) → (F.reads files.old).reported ≡ Some earlier
        → HaveGiven (called words.now F.holds F.reads files.old files.new) result }

    // For a made pair no file is read, and none is blamed.
    ensures reads_nothing { (m : MadePair) → requested_made_pair (map string_bytes words.now) ≡ Some m
        → (F.reads files.new ≡ F.reads files.old) × (result ≡ 4 → ⊥) }

    // The files' contents stay. One failed read was counted where a file is blamed, and none with a lower status; one
    // failed write was counted exactly where the sink is blamed.
    ensures kept { (n : List ℕ) → F.holds files.new n ≡ F.holds files.old n }
    ensures unread { result ≡ 4 → (F.reads files.new).faults ≡ next_count (F.reads files.old).faults }
    ensures readable { result < 4 → (F.reads files.new).faults ≡ (F.reads files.old).faults }
    ensures failed { CountsWhere (result ≡ 6) (K.faults out.old) (K.faults out.new) }
    ensures reads_never_fall { (F.reads files.old).faults ≤ (F.reads files.new).faults }
    ensures faults_never_fall { K.faults out.old ≤ K.faults out.new }
{
    words_request_once();
    answers_to_texts_are_meant();
    answers_speak_of_texts();
    refutations_are_answered();
    calls_are_refused();
    answered_have_given();
    let Ok(answer) = answer(alloc, words, files) else {
        return 5;
    };
    match put_all(out, &answer.report) {
        Ok(()) => answer.status,
        Err(_) => 6,
    }
}
