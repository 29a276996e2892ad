//! Laws of calls. A refusal is stated in both directions and of the whole call: the line is that of the first thing for
//! which the call is refused, words and lengths of files included, and where there is such a thing, the line comes or
//! memory ran out. So it is a relation between words, files and a line, beside the one between two texts. Each function
//! has a law as its contract and does nothing.

ghost use Rattle.bb_ladder.specs.Answers.{AnswersSpeakOfTexts};
ghost use Rattle.bb_ladder.specs.CallRefusals.{CallRefusalsAreOne, RefusalsAreReported, RefusedCallsAreReported};
ghost use Rattle.bb_ladder.specs.GivenTexts.{AnsweredHaveGiven};

use crate::refuting::refutations_are_answered;
use bb_args::words_request_once;
use bb_verdict::invariant_laws::answers_to_texts_are_meant;
use bb_verdict::text_laws::refusals_are_one;

/// The meaning of each status, also where the sink took only a prefix of the report.
pub fn answers_speak_of_texts()
    ensures { AnswersSpeakOfTexts }
{
    words_request_once();
    answers_to_texts_are_meant();
}

/// A call has at most one first refusal. Status 2 reports it, and it is reported unless a read may have failed.
pub fn calls_are_refused()
    ensures once { CallRefusalsAreOne }
    ensures refusals { RefusalsAreReported }
    ensures refused { RefusedCallsAreReported }
{
    words_request_once();
    refusals_are_one();
    answers_to_texts_are_meant();
    refutations_are_answered();
}

/// Where files keep a list of reads, those of the call gave the texts of its answer, so no clause on given bytes is
/// empty.
pub fn answered_have_given()
    ensures { AnsweredHaveGiven }
{
    words_request_once();
}
