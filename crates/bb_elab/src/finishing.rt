//! The flat netlist of a design whose cells are levelized, or the first names that clash.
//!
//! Names are joined here, last of all: each is made once and looked up once for repeats, and a design with another
//! fault needs none of them. Names in a text are printable, so paths are too, which a flat netlist keeps.

ghost use Rattle.std.specs.Prelude.{◌≡◌, ◌⊎◌, map, IfOk, IfErr};
ghost use Rattle.bb_names.specs.Inside.Checked.{syntax};
ghost use Rattle.bb_design.specs.declared.fault.ElabFault.TheVariants.{NoMemory};
ghost use Rattle.bb_design.specs.Hierarchy.{Design};
ghost use Rattle.bb_design.specs.Refusals.{IsRefusalOf, IsSoundDesign};
ghost use Rattle.bb_elab.specs.Inside.Stages.{IsElaborated, AreLevelized};
ghost use Rattle.bb_implements.specs.Implements.{Implements};

use crate::box_names::{box_names, boxes_apart};
use crate::elaboration::Elaborated;
use crate::levelizing::Levelized;
use crate::port_names::ports_apart;
use crate::register_names::{named_registers, registers_apart};
use bb_design::ElabFault;
use bb_design::laws::laws_of_designs;
use bb_implements::list_laws::{implementing_nets_are_flat, implementing_nets_are_printable};
use bb_names::Checked;
use bb_net::Flat;
use std::alloc::Global;

/// Repeats are refused in this order: boxes, registers, ports.
pub(crate) fn finish(
    alloc: Global,
    checked: &Checked,
    elaborated: &Elaborated,
    levelized: Levelized,
) -> Result<Flat, ElabFault>
    requires design { (d : Design) × IsElaborated (map syntax checked.now) d elaborated.now
        × AreLevelized d levelized.list levelized.ordered.net levelized.ordered.boxes.items }
    ensures occurs { IfOk result (λ flat. (d : Design) → IsElaborated (map syntax checked.now) d elaborated.now
        → AreLevelized d levelized.list levelized.ordered.net levelized.ordered.boxes.items
        → Implements d flat × IsSoundDesign d) }
    ensures fault { IfErr result (λ fault. (fault ≡ NoMemory)
        ⊎ ((d : Design) → IsElaborated (map syntax checked.now) d elaborated.now
        → AreLevelized d levelized.list levelized.ordered.net levelized.ordered.boxes.items
        → IsRefusalOf d fault)) }
{
    laws_of_designs();
    implementing_nets_are_flat();
    implementing_nets_are_printable();
    let boxed = boxes_apart(alloc, checked, elaborated)?;
    let texts = registers_apart(alloc, checked, elaborated)?;
    let ports = ports_apart(alloc, checked, elaborated)?;
    let Levelized { list, ordered } = levelized;
    let regs = named_registers(alloc, checked, elaborated, &list, texts)?;
    let boxes = box_names(alloc, checked, elaborated, &boxed, &ordered.boxes)?;
    Ok(Flat::of(ordered.net, ports.ins, regs, ports.outs, boxes))
}
