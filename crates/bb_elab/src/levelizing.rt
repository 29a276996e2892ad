//! Levelizes the cells of a design; it is refused where a read bit has no driver, or else where bits are on a
//! combinational loop.
//!
//! Both are looked for on the list of cells and not on the text, since it has every dependence, through operators,
//! buffers and boxes.

ghost use Rattle.std.specs.Prelude.{◌≡◌, ◌⊎◌, map, IfOk, IfErr, OnOk};
ghost use Rattle.bb_names.specs.Inside.Checked.{syntax};
ghost use Rattle.bb_design.specs.declared.fault.ElabFault.TheVariants.{NoMemory};
ghost use Rattle.bb_design.specs.Hierarchy.{Design};
ghost use Rattle.bb_design.specs.Refusals.{AreDriven, IsAcyclic, NoDriver, Cycle, IsRefusalOf};
ghost use Rattle.bb_design.specs.Laws.CauseLaws.{ReportsCause};
ghost use Rattle.bb_net.specs.Netlists.{IsNetlist};
ghost use Rattle.bb_net.specs.Orders.{IsOrderOf};
ghost use Rattle.bb_elab.specs.Inside.Stages.{IsElaborated, IsListed, AreLevelized};

use crate::elaboration::Elaborated;
use crate::reads::bits_read;
use crate::texts::bit_name;
use crate::undriven::first_undriven;
use bb_blast::list_cells;
use bb_design::ElabFault;
use bb_design::laws::laws_of_designs;
use bb_implements::list_laws::lists_are_loose;
use bb_implements::loop_laws::{least_walks_are_first_loops, lists_without_walks};
use bb_names::Checked;
use bb_net::{Loose, NetFault, Ordered, order, order_has_no_walk};
use std::alloc::Global;

/// The list stays beside its order, as the clocks of registers are found on it.
#[derive(Debug, Drop)]
pub(crate) struct Levelized {
    pub list: Loose,
    pub ordered: Ordered,
}

fn drive_all(
    alloc: Global,
    checked: &Checked,
    elaborated: &Elaborated,
    list: &Loose,
) -> Result<(), ElabFault>
    requires design { (d : Design) × IsElaborated (map syntax checked.now) d elaborated.now × IsListed d list.now }
    ensures driven { OnOk result ((d : Design) → IsElaborated (map syntax checked.now) d elaborated.now
        → IsListed d list.now → AreDriven d) }
    ensures fault { IfErr result (λ fault. (fault ≡ NoMemory)
        ⊎ ((d : Design) → IsElaborated (map syntax checked.now) d elaborated.now → IsListed d list.now
        → ReportsCause d NoDriver fault)) }
{
    let counts = elaborated.counts.as_slice();
    let read = bits_read(alloc, checked, list, &elaborated.stored, counts.len())?;
    match first_undriven(counts, &read) {
        Some(number) => Err(ElabFault::Undriven {
            name: bit_name(
                alloc,
                checked,
                &elaborated.placed,
                &elaborated.templates,
                number as u32,
            )?,
        }),
        None => Ok(()),
    }
}

// The places of the bits of nets come after the two constants and the inputs, so the place on a loop gives the number
// of its bit.
fn put_in_order(
    alloc: Global,
    checked: &Checked,
    elaborated: &Elaborated,
    list: &Loose,
) -> Result<Ordered, ElabFault>
    requires design { (d : Design) × IsElaborated (map syntax checked.now) d elaborated.now × IsListed d list.now }
    ensures netlist { IfOk result (λ o. IsNetlist o.net) }
    ensures ordered { IfOk result (λ o. IsOrderOf list.now o.net o.boxes.items) }
    ensures acyclic { IfOk result (λ o.
        (d : Design) → IsElaborated (map syntax checked.now) d elaborated.now → IsListed d list.now → IsAcyclic d) }
    ensures fault { IfErr result (λ fault. (fault ≡ NoMemory)
        ⊎ ((d : Design) → IsElaborated (map syntax checked.now) d elaborated.now → IsListed d list.now
        → ReportsCause d Cycle fault)) }
{
    lists_are_loose();
    match order(list) {
        Ok(ordered) => {
            // Gives the proof the invariant of the netlist.
            let _inputs = ordered.net.inputs();
            order_has_no_walk();
            lists_without_walks();
            Ok(ordered)
        }
        Err(NetFault::Loop { place }) => {
            least_walks_are_first_loops();
            Err(ElabFault::Loop {
                name: bit_name(
                    alloc,
                    checked,
                    &elaborated.placed,
                    &elaborated.templates,
                    place - 2 - list.input_count(),
                )?,
            })
        }
        Err(NetFault::NoMemory) => Err(ElabFault::NoMemory),
    }
}

pub(crate) fn arrange(
    alloc: Global,
    checked: &Checked,
    elaborated: &Elaborated,
) -> Result<Levelized, ElabFault>
    requires design { (d : Design) × IsElaborated (map syntax checked.now) d elaborated.now }
    ensures levelized { IfOk result (λ a. (d : Design) → IsElaborated (map syntax checked.now) d elaborated.now
        → AreLevelized d a.list a.ordered.net a.ordered.boxes.items) }
    ensures fault { IfErr result (λ fault. (fault ≡ NoMemory)
        ⊎ ((d : Design) → IsElaborated (map syntax checked.now) d elaborated.now → IsRefusalOf d fault)) }
{
    laws_of_designs();
    let list = list_cells(
        alloc,
        &elaborated.placed,
        &elaborated.templates,
        &elaborated.stored,
    )?;
    drive_all(alloc, checked, elaborated, &list)?;
    let ordered = put_in_order(alloc, checked, elaborated, &list)?;
    Ok(Levelized { list, ordered })
}
