//! Which bits of a design are read.
//!
//! Clocks are taken from register bits and not from the text. None is missed: the grammar leaves no register without a
//! bit, and each bit is stored to at one place, as second drivers are refused before.

ghost use Rattle.std.specs.Prelude.{map, IfOk};
ghost use Rattle.bb_names.specs.Inside.Checked.{syntax};
ghost use Rattle.bb_design.specs.Hierarchy.{Design};
ghost use Rattle.bb_elab.specs.Inside.DrivenNumbers.{AreReads};
ghost use Rattle.bb_elab.specs.Inside.Stages.{IsReadable};

use crate::reading::read_bits;
use bb_bits::NoMemory;
use bb_blast::Stored;
use bb_blast::laws::laws_of_modules;
use bb_design::laws::laws_of_designs;
use bb_implements::list_laws::{laws_of_cells, lists_are_loose};
use bb_names::Checked;
use bb_net::Loose;
use std::alloc::Global;

/// In net order.
pub(crate) fn bits_read(
    alloc: Global,
    checked: &Checked,
    list: &Loose,
    stored: &[Stored],
    bits: usize,
) -> Result<Vec<bool>, NoMemory>
    requires design { (d : Design) × IsReadable (map syntax checked.now) d list.now stored.now bits }
    ensures reads { IfOk result (λ read.
        (d : Design) → IsReadable (map syntax checked.now) d list.now stored.now bits → AreReads d read.items) }
{
    laws_of_designs();
    laws_of_cells();
    laws_of_modules();
    lists_are_loose();
    // Gives the proof that what was checked comes from a text.
    let _modules = checked.modules();
    read_bits(alloc, list, stored, 2 + list.input_count(), bits as u32)
}
