//! The names of the bits of the top's ports; a design is refused where two inputs or two outputs have the same, which
//! escaped names can spell.

ghost use Rattle.std.specs.Prelude.{◌≡◌, ◌⊎◌, map, IfOk, IfErr};
ghost use Rattle.bb_names.specs.Inside.Checked.{syntax};
ghost use Rattle.bb_design.specs.declared.fault.ElabFault.TheVariants.{NoMemory as out_of_memory};
ghost use Rattle.bb_design.specs.Hierarchy.{Design};
ghost use Rattle.bb_design.specs.Refusals.{PortTexts, IsAbsentInDesign, input_texts, output_texts};
ghost use Rattle.bb_design.specs.Laws.CauseLaws.{ReportsCause};
ghost use Rattle.bb_elab.specs.Inside.Stages.{IsElaborated};

use crate::elaboration::Elaborated;
use crate::naming::{bit_names, top_template};
use crate::repeats::first_repeat;
use bb_bits::{Name, NoMemory};
use bb_design::ElabFault;
use bb_names::Checked;
use std::alloc::Global;

/// Each in net order.
#[derive(Debug, Drop)]
pub(crate) struct PortNames {
    pub ins: Vec<Name>,
    pub outs: Vec<Name>,
}

// They may repeat here.
fn port_names(
    alloc: Global,
    checked: &Checked,
    elaborated: &Elaborated,
) -> Result<PortNames, NoMemory>
    requires design { (d : Design) × IsElaborated (map syntax checked.now) d elaborated.now }
    ensures ins { IfOk result (λ ports.
        (d : Design) → IsElaborated (map syntax checked.now) d elaborated.now → ports.ins.items ≡ input_texts d) }
    ensures outs { IfOk result (λ ports.
        (d : Design) → IsElaborated (map syntax checked.now) d elaborated.now → ports.outs.items ≡ output_texts d) }
{
    let top = top_template(elaborated);
    Ok(PortNames {
        ins: bit_names(alloc, checked, elaborated, &top.inputs)?,
        outs: bit_names(alloc, checked, elaborated, &top.outputs)?,
    })
}

/// Inputs are looked at before outputs; an input and an output may have one name.
pub(crate) fn ports_apart(
    alloc: Global,
    checked: &Checked,
    elaborated: &Elaborated,
) -> Result<PortNames, ElabFault>
    requires design { (d : Design) × IsElaborated (map syntax checked.now) d elaborated.now }
    ensures ins { IfOk result (λ ports.
        (d : Design) → IsElaborated (map syntax checked.now) d elaborated.now → ports.ins.items ≡ input_texts d) }
    ensures outs { IfOk result (λ ports.
        (d : Design) → IsElaborated (map syntax checked.now) d elaborated.now → ports.outs.items ≡ output_texts d) }
    ensures apart { IfOk result (λ ports.
        (d : Design) → IsElaborated (map syntax checked.now) d elaborated.now → IsAbsentInDesign d PortTexts) }
    ensures fault { IfErr result (λ fault. (fault ≡ out_of_memory)
        ⊎ ((d : Design) → IsElaborated (map syntax checked.now) d elaborated.now → ReportsCause d PortTexts fault)) }
{
    let ports = port_names(alloc, checked, elaborated)?;
    if let Some(name) = first_repeat(alloc, &ports.ins)? {
        return Err(ElabFault::PortTwice { name });
    }
    match first_repeat(alloc, &ports.outs)? {
        Some(name) => Err(ElabFault::PortTwice { name }),
        None => Ok(ports),
    }
}
