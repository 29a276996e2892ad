//! Laws of the filled text. They speak of bits for all words that meet the lines, which is what crates above need to
//! show that a design has them. Each function has a law as its contract and does nothing.

ghost use Rattle.bb_fill.specs.Laws.{AnswersAreOne, AnswersExist, LinesAreFew, LinesCanBeMet, LinesHaveBits};
ghost use Rattle.bb_fill.specs.Laws.{LinesReadWhatIsDriven, NetsAreDrivenOnce, RegistersTakeBits, TextsAreShort};
ghost use Rattle.bb_fill.specs.Laws.{TreesChoose, WordsAreApart, WordsAreNets, WordsAreOfNetlist};

use bb_bits::{number_doubles, number_is_below};
use bb_net::{value_exists, value_is_unique};

/// The root of a tree has the bit of the row whose number the pins spell, the first pin most significant.
pub fn trees_choose()
    ensures { TreesChoose }
{
    number_doubles();
    number_is_below();
}

/// Each netlist has an answer: a text, a clash, or too large.
pub fn answers_exist()
    ensures { AnswersExist }
{}

/// There is at most one answer, so it is a function of netlist and tables.
pub fn answers_are_one()
    ensures { AnswersAreOne }
{}

/// No net has the name of another, of a port or of a register.
pub fn words_are_apart()
    ensures { WordsAreApart }
{}

/// If the lines are met at a vector, the words have the bits of the netlist with these tables.
pub fn lines_have_bits()
    ensures { LinesHaveBits }
{
    trees_choose();
    value_is_unique();
}

/// Next states too: each register takes the bit of the netlist.
pub fn registers_take_bits()
    ensures { RegistersTakeBits }
{
    lines_have_bits();
}

/// At each vector some bits meet the lines, so the law before is not empty.
pub fn lines_can_be_met()
    ensures { LinesCanBeMet }
{
    trees_choose();
    value_exists();
}

/// Each net is driven once, and there are as many nets as were counted.
pub fn nets_are_driven_once()
    ensures { NetsAreDrivenOnce }
{}

/// No line has a word that nothing drives.
pub fn words_are_nets()
    ensures { WordsAreNets }
{}

/// Words have numbers of 64 bits then, and no two of them the same name.
pub fn words_are_of_netlist()
    ensures { WordsAreOfNetlist }
{
    words_are_nets();
}

/// A line reads only numbers, inputs, registers and what earlier lines drive: so no loop but through a register.
pub fn lines_read_what_is_driven()
    ensures { LinesReadWhatIsDriven }
{}

/// So the number of nets is bounded by the cells and the boxes of the netlist, whatever its tables.
pub fn lines_are_few()
    ensures { LinesAreFew }
{}

/// And so is the number of bytes, by the nets and the longest name.
pub fn texts_are_short()
    ensures { TextsAreShort }
{
    words_are_nets();
}
