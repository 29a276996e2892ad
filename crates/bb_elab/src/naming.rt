//! Names of several bits at once. They are made only where the design has no other fault, or for the one bit that is
//! reported.

ghost use Rattle.std.specs.Prelude.{◌≡◌, ◌<◌, List, All, length, map, IfOk};
ghost use Rattle.bb_ast.specs.Syntax.{PlainModule};
ghost use Rattle.bb_names.specs.Inside.Checked.{syntax};
ghost use Rattle.bb_design.specs.Hierarchy.{Design};
ghost use Rattle.bb_design.specs.NetBits.{Bit, net_order, top_inputs, top_outputs};
ghost use Rattle.bb_elab.specs.Inside.DrivenNumbers.{AreBitsAt};
ghost use Rattle.bb_elab.specs.Inside.Stages.{IsElaborated};
ghost use Rattle.bb_design.specs.Texts.{bit_text, pin_text};

use crate::elaboration::Elaborated;
use crate::texts::{bit_name, pin_name};
use bb_bits::{Name, NoMemory};
use bb_blast::{ModuleTemplate, template_of};
use bb_names::Checked;
use std::alloc::Global;

pub(crate) fn bit_names(
    alloc: Global,
    checked: &Checked,
    elaborated: &Elaborated,
    numbers: &[u32],
) -> Result<Vec<Name>, NoMemory>
    requires design { (d : Design) × IsElaborated (map syntax checked.now) d elaborated.now
        × All (λ n. n < length (net_order d)) numbers.now }
    ensures names { IfOk result (λ names. (d : Design) → IsElaborated (map syntax checked.now) d elaborated.now
        → (bits : List Bit) → AreBitsAt d numbers.now bits → names.items ≡ map (bit_text d) bits) }
{
    let mut names = Vec::with_capacity(alloc, numbers.len())?;
    for number in numbers {
        let name = bit_name(
            alloc,
            checked,
            &elaborated.placed,
            &elaborated.templates,
            *number,
        )?;
        names.push(name)?;
    }
    Ok(names)
}

pub(crate) fn pin_names(
    alloc: Global,
    checked: &Checked,
    elaborated: &Elaborated,
    numbers: &[u32],
) -> Result<Vec<Name>, NoMemory>
    requires design { (d : Design) × IsElaborated (map syntax checked.now) d elaborated.now
        × All (λ n. n < length (net_order d)) numbers.now }
    ensures names { IfOk result (λ names. (d : Design) → IsElaborated (map syntax checked.now) d elaborated.now
        → (bits : List Bit) → AreBitsAt d numbers.now bits → names.items ≡ map (pin_text d) bits) }
{
    let mut names = Vec::with_capacity(alloc, numbers.len())?;
    for number in numbers {
        let name = pin_name(
            alloc,
            checked,
            &elaborated.placed,
            &elaborated.templates,
            *number,
        )?;
        names.push(name)?;
    }
    Ok(names)
}

/// Its bits are the first in net order.
pub(crate) fn top_template(elaborated: &Elaborated) -> &ModuleTemplate
    requires design { (text : List PlainModule) × (d : Design) × IsElaborated text d elaborated.now }
    ensures inputs { (text : List PlainModule) (d : Design) → IsElaborated text d elaborated.now
        → AreBitsAt d result.now.inputs.items (top_inputs d) }
    ensures outputs { (text : List PlainModule) (d : Design) → IsElaborated text d elaborated.now
        → AreBitsAt d result.now.outputs.items (top_outputs d) }
{
    template_of(&elaborated.templates, &elaborated.placed[0])
}
