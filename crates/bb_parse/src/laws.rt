//! Laws of sources. They follow from the definitions and from the laws of tokens; the functions run no code, and a
//! crate above takes a law by calling its function.

ghost use Rattle.bb_parse.specs.Laws.{SourcesAreOne, FaultsAreOne, SourceOrFault, NotSourceAndFault, TextsReadOnce};
ghost use Rattle.bb_parse.specs.Laws.{SourcesAreShort, TextsAreLong, SourcesAreFormed, SourcesAreRead, FaultsAreRead};

use bb_lex::laws;

/// The grammar is unambiguous: tokens mean at most one source.
pub fn sources_are_one()
    ensures { SourcesAreOne }
{
    laws::read_bits_are_meant();
}

/// So a refusal names one fault and one line, for every parser.
pub fn faults_are_one()
    ensures { FaultsAreOne }
{
    laws::read_bits_are_meant();
}

/// Only of the tokens of a text: a token means its symbol by a relation on the text's bytes, and an arbitrary list of
/// tokens may mean none.
pub fn source_or_fault()
    ensures { SourceOrFault }
{
    laws::read_bits_are_meant();
    laws::tokens_are_in_text();
}

/// So a refusal excludes that the text has a meaning.
pub fn not_source_and_fault()
    ensures { NotSourceAndFault }
{
    laws::read_bits_are_meant();
}

/// Lets definitions above speak of the source of a text, with no word on how it is parsed.
pub fn texts_read_once()
    ensures { TextsReadOnce }
{
    laws::read_bits_are_meant();
    laws::tokens_are_one();
}

/// Sizes of sources bound counters of 32 bits in the crates above.
pub fn sources_are_short()
    ensures { SourcesAreShort }
{}

/// So a bound on the bytes of a text bounds every count over its syntax.
pub fn texts_are_long()
    ensures { TextsAreLong }
{
    laws::tokens_are_few();
}

/// What later stages need of a text's syntax, so that they need not know that it was read.
pub fn sources_are_formed()
    ensures { SourcesAreFormed }
{
    laws::names_are_printable();
    laws::sized_bits_fit();
    laws::plain_values_fit();
    laws::tokens_are_in_text();
}

/// The function on lists that the code computes agrees with the relation; so a text that the program prints can be
/// shown to read.
pub fn sources_are_read()
    ensures { SourcesAreRead }
{
    laws::read_bits_are_meant();
    laws::tokens_are_in_text();
}

/// As `sources_are_read`, for texts with a fault.
pub fn faults_are_read()
    ensures { FaultsAreRead }
{
    laws::read_bits_are_meant();
    laws::tokens_are_in_text();
}
