//! Laws of requests. Most of them are examples in general form (two plain words are two files, order is free), by which
//! a reader can test the definition of command lines against his expectation. Each function has a law as its contract
//! and does nothing.

ghost use Rattle.bb_args.specs.Laws.{AllAreFilesAfter, CareNamesAreRequested, FewWordsRequestNothing, FillIsRequested};
ghost use Rattle.bb_args.specs.Laws.{InvariantNamesAreRequested};
ghost use Rattle.bb_args.specs.Laws.{MadePairsAreWithin, OrderIsFree, PlainWordsAreFiles, RequestsAreWithin};
ghost use Rattle.bb_args.specs.Laws.{SomeWordsAreRefused, ValuesMayBeJoined, WidthsRequestPairs, WordsRequestAtMostOne};

/// Every request is within the bounds of the options.
pub fn requests_are_within()
    ensures { RequestsAreWithin }
{}

/// So is every made pair.
pub fn made_pairs_are_within()
    ensures { MadePairsAreWithin }
{}

/// Two words that are not empty and do not begin with a minus sign name two files, and request nothing else.
pub fn plain_words_are_files()
    ensures { PlainWordsAreFiles }
{}

/// `--make` and a number from 1 to 256 request a made pair of this width, and nothing else.
pub fn widths_request_pairs()
    ensures { WidthsRequestPairs }
{}

/// After two files `--name value` and `--name=value` mean the same.
pub fn values_may_be_joined()
    ensures { ValuesMayBeJoined }
{}

/// After two files `--care` and a printable name request equivalence where this output is 1; a name that is not
/// printable is refused.
pub fn care_names_are_requested()
    ensures { CareNamesAreRequested }
{}

/// After two files `--invariant` and a printable name request equivalence where this output is 1, if it is an
/// invariant.
pub fn invariant_names_are_requested()
    ensures { InvariantNamesAreRequested }
{}

/// After two files `--fill` requests the filled implementation.
pub fn fill_is_requested()
    ensures { FillIsRequested }
{}

/// No words, or one plain word, make no request.
pub fn few_words_request_nothing()
    ensures { FewWordsRequestNothing }
{}

/// No words make two of these requests: a comparison of files, a made pair, a refutation. So the order in which the
/// code tries them does not matter.
pub fn words_request_once()
    ensures { WordsRequestAtMostOne }
{}

/// After two files a third one, an option or flag given twice, a value on a flag, and an unknown name are refused.
pub fn some_words_are_refused()
    ensures { SomeWordsAreRefused }
{}

/// After `--` two words are two files, also where they begin with a minus sign.
pub fn all_are_files_after()
    ensures { AllAreFilesAfter }
{}

/// Flags and options may come in any order, before, between and after the files.
pub fn order_is_free()
    ensures { OrderIsFree }
{}
