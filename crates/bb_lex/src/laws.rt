//! Laws of cuts, tokens and numbers. The definitions are relations on a whole text, so that there is one cut, that it
//! exists or fails, and that reading from the start finds it are facts of their own; no code runs here.

ghost use Rattle.bb_lex.specs.Laws.{CutsAreOne, TokensAreOne, BadPlacesAreOne, BadLinesAreOne, CutOrBad, NotBoth};
ghost use Rattle.bb_lex.specs.Laws.{TokensOrBadLine, NotTokensAndBadLine, TokensAreInText, TokensRise, LowBitsSpell};
ghost use Rattle.bb_lex.specs.Laws.{EndsAtFirstPlace, TokensEndPastTheirPlaces, TokensAreFew, NamesArePrintable};
ghost use Rattle.bb_lex.specs.Laws.{SizedTokensSayBits, SizedBitsAreOne, SizedBitsFit, PlainValuesFit};
ghost use Rattle.bb_lex.specs.Laws.{ReadBitsAreMeant, ReadPiecesAreLongest, LongestPiecesAreRead};
ghost use Rattle.bb_lex.specs.Laws.{NoneIsReadWhereNoneBegins};

/// The longest piece at each place leaves no choice.
pub fn cuts_are_one()
    ensures { CutsAreOne }
{}

/// So a verdict on a text is one on its tokens, whichever program cut them.
pub fn tokens_are_one()
    ensures { TokensAreOne }
{}

/// A text that goes wrong does so at one place, after the longest pieces before it.
pub fn bad_places_are_one()
    ensures { BadPlacesAreOne }
{}

/// So a refusal names one line, for every lexer of the same pieces.
pub fn bad_lines_are_one()
    ensures { BadLinesAreOne }
{}

/// With `not_both`: a text is cut to its end exactly if it goes wrong nowhere.
pub fn cut_or_bad()
    ensures { CutOrBad }
{}

/// The two cases of `cut_or_bad` exclude each other.
pub fn not_both()
    ensures { NotBoth }
{}

/// With `not_tokens_and_bad_line`: a text has tokens exactly if it goes wrong on no line.
pub fn tokens_or_bad_line()
    ensures { TokensOrBadLine }
{}

/// The two cases of `tokens_or_bad_line` exclude each other.
pub fn not_tokens_and_bad_line()
    ensures { NotTokensAndBadLine }
{}

/// What the calls on a token ask of it, for each token of a text.
pub fn tokens_are_in_text()
    ensures { TokensAreInText }
{}

/// Tokens come in text order, and their lines do not fall.
pub fn tokens_rise()
    ensures { TokensRise }
{}

/// So a value that is cut to its size is the value modulo that power of 2.
pub fn low_bits_spell()
    ensures { LowBitsSpell }
{}

/// For block comments and attributes: they end at the first `*/` or `*)`, and not at a later one.
pub fn ends_at_first_place()
    ensures { EndsAtFirstPlace }
{}

/// A token's end bounds the number of tokens up to it, so that a reader can count tokens in 32 bits.
pub fn tokens_end_past_their_places()
    ensures { TokensEndPastTheirPlaces }
{}

/// A token has a byte at least, so a bound on bytes bounds tokens.
pub fn tokens_are_few()
    ensures { TokensAreFew }
{}

/// So a report can print names as they are. The same of reserved words.
pub fn names_are_printable()
    ensures { NamesArePrintable }
{}

/// With `sized_bits_are_one`: the relation of a sized number and its bits is a function.
pub fn sized_tokens_say_bits()
    ensures { SizedTokensSayBits }
{}

/// A sized number has one way only to be a size, a letter and digits.
pub fn sized_bits_are_one()
    ensures { SizedBitsAreOne }
{}

/// From 1 to 128 bits, as its size says, so a sized number is never empty.
pub fn sized_bits_fit()
    ensures { SizedBitsFit }
{}

/// So it has one value, whether it is read as signed or as unsigned.
pub fn plain_values_fit()
    ensures { PlainValuesFit }
{}

/// Reading a piece from the start is a helper of the code; this law and the next two tie it to the cut of the whole
/// text, so that a text that is printed can be shown to read.
pub fn read_pieces_are_longest()
    ensures { ReadPiecesAreLongest }
{}

/// The converse of `read_pieces_are_longest`: no piece is missed.
pub fn longest_pieces_are_read()
    ensures { LongestPiecesAreRead }
{}

/// So a text is refused only where its cut ends.
pub fn none_is_read_where_none_begins()
    ensures { NoneIsReadWhereNoneBegins }
{}

/// The definition says the bits of a number by its parts; reading its bytes from the start agrees with it.
pub fn read_bits_are_meant()
    ensures { ReadBitsAreMeant }
{}
