//! Laws of the filled module as a design. Each function has a law as its contract and does nothing. The design is never
//! refused by these laws, so the program has no branch for a filled text that is refused.

ghost use Rattle.bb_readback.specs.Laws.{FilledDesignsAreNamedTheSame, FilledDesignsAreCounted, FilledDesignsAreSound};
ghost use Rattle.bb_readback.specs.Laws.{FilledDesignsHaveBits};
ghost use Rattle.bb_readback.specs.Laws.{FilledModulesAreSound, FilledModulesAreTops, FilledTextsAreRead};

use bb_design::laws::{laws_of_designs, sound_bits_are_there};
use bb_expr::laws::net_names_differ;
use bb_fill::{
    lines_have_bits, lines_read_what_is_driven, nets_are_driven_once, registers_take_bits,
    words_are_apart, words_are_nets, words_are_of_netlist,
};
use bb_lex::laws as lex_laws;

/// The filled text reads as one module, line by line. Names are printed as escaped identifiers (IEEE 1364-2005, 3.7.1),
/// so no name can be taken for a keyword or end early.
pub fn filled_texts_are_read()
    ensures { FilledTextsAreRead }
{
    lex_laws::read_pieces_are_longest();
}

/// The filled module breaks no rule on names, widths and roles.
pub fn filled_modules_are_sound()
    ensures { FilledModulesAreSound }
{
    nets_are_driven_once();
    words_are_nets();
    words_are_of_netlist();
    words_are_apart();
}

/// It is the top of its text, whether named or not.
pub fn filled_modules_are_tops()
    ensures { FilledModulesAreTops }
{}

/// Its design is sound and has no box: lines read only what is driven before them, so there is no loop.
pub fn filled_designs_are_sound()
    ensures { FilledDesignsAreSound }
{
    nets_are_driven_once();
    words_are_nets();
    words_are_of_netlist();
    words_are_apart();
    lines_read_what_is_driven();
    net_names_differ();
    laws_of_designs();
}

/// Its sizes are those that were counted before the text was printed, so the bounds that were tested then hold of the
/// design.
pub fn filled_designs_are_counted()
    ensures { FilledDesignsAreCounted }
{
    nets_are_driven_once();
    words_are_nets();
    words_are_of_netlist();
    words_are_apart();
    net_names_differ();
    filled_modules_are_sound();
    filled_designs_are_named_the_same();
    sound_bits_are_there();
}

/// Ports and registers have the texts of the netlist, so the filled design fits where the implementation does.
pub fn filled_designs_are_named_the_same()
    ensures { FilledDesignsAreNamedTheSame }
{
    filled_modules_are_sound();
    sound_bits_are_there();
    net_names_differ();
    laws_of_designs();
}

/// At every vector each world of the design has the bits of the netlist with the tables.
pub fn filled_designs_have_bits()
    ensures { FilledDesignsHaveBits }
{
    laws_of_designs();
    filled_modules_are_sound();
    filled_designs_are_named_the_same();
    lines_have_bits();
    registers_take_bits();
    nets_are_driven_once();
}
