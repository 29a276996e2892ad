//! Outputs that are known and wrong in 0-1-X simulation, over the inputs. An output that is X is passed over: contents
//! that make it right cannot be excluded.

ghost use Rattle.std.specs.Prelude.{◌≡◌, ◌<◌, length, IfOk, OnOk, IsErrOf};
ghost use Rattle.std.specs.List.{flat_map};
ghost use Rattle.bb_uniq.specs.Inside.Nodes.{IsRef};
ghost use Rattle.bb_uniq.specs.Inside.Meaning.{truth_of};
ghost use Rattle.bb_sym.specs.Functions.{mismatch, mismatches};
ghost use Rattle.bb_sym.specs.Plain.{output_numbers};
ghost use Rattle.bb_sym.specs.Inside.Made.{Makes, AreTooMany, Represents, RepresentAll, RepresentFirst};
ghost use Rattle.bb_sym.specs.Inside.Rails.{rails_of, AreRails, HaveKnown, known_functions, known_wrong_table};
ghost use Rattle.bb_sym.specs.Inside.Rails.{known_wrong_tables};

use crate::RungFault;
use crate::cells::{make_variables, net_cells};
use crate::known_cells::known_cells;
use crate::known_gates::DualRail;
use crate::sums::sum_of_products;
use bb_dd::{Diagrams, Ref};
use bb_net::Pair;
use std::alloc::Global;

/// The specification has plain BDDs, since it has no X.
#[derive(Drop)]
pub(crate) struct InputCells {
    pub(crate) spec: Vec<Ref>,
    pub(crate) imp: Vec<DualRail>,
}

/// Variables first, so that each is made whether or not a cell reads it.
pub(crate) fn input_cells(
    alloc: Global,
    d: &mut Diagrams,
    pair: &Pair,
) -> Result<InputCells, RungFault>
    requires vars { pair.now.imp.inputs ≡ d.old.store.vars }
    ensures cells { IfOk result (λ made.
        HaveKnown d.new.store pair.now.spec pair.now.imp made.spec.items made.imp.items) }
    ensures makes { OnOk result (Makes d.old.store d.new.store (known_functions pair.now.spec pair.now.imp)) }
    ensures nodes { IsErrOf result RungFault.Nodes
        → AreTooMany d.old.store (known_functions pair.now.spec pair.now.imp) }
{
    let spec_net = pair.spec();
    let imp_net = pair.imp();
    let inputs = imp_net.inputs();
    let _ = make_variables(alloc, d, inputs)?;
    let spec = net_cells(alloc, d, spec_net, 0, &[])?;
    let imp = known_cells(alloc, d, imp_net)?;
    Ok(InputCells { spec, imp })
}

pub(crate) fn known_wrong_outputs(
    alloc: Global,
    d: &mut Diagrams,
    pair: &Pair,
    made: &InputCells,
) -> Result<Vec<Ref>, RungFault>
    requires made { HaveKnown d.old.store pair.now.spec pair.now.imp made.now.spec.items made.now.imp.items }
    ensures refs { IfOk result (λ refs.
        RepresentFirst d.new.store (mismatch pair.now.spec pair.now.imp) (length pair.now.imp.outs) refs.items) }
    ensures makes { OnOk result (Makes d.old.store d.new.store (flat_map (mismatches pair.now.spec pair.now.imp)
        (output_numbers pair.now.imp))) }
    ensures nodes { IsErrOf result RungFault.Nodes
        → AreTooMany d.old.store (flat_map (mismatches pair.now.spec pair.now.imp) (output_numbers pair.now.imp)) }
{
    let count = pair.imp().outs().len();
    let mut refs = Vec::with_capacity(alloc, count)?;
    for j in 0..count {
        let r = known_wrong_output(d, pair, made, j)?;
        refs.push(r)?;
    }
    Ok(refs)
}

fn known_wrong_output(
    d: &mut Diagrams,
    pair: &Pair,
    made: &InputCells,
    j: usize,
) -> Result<Ref, RungFault>
    requires made { HaveKnown d.old.store pair.now.spec pair.now.imp made.now.spec.items made.now.imp.items }
    requires j { j < length pair.now.imp.outs }
    ensures result { IfOk result (Represents d.new.store (mismatch pair.now.spec pair.now.imp j)) }
    ensures makes { OnOk result (Makes d.old.store d.new.store (mismatches pair.now.spec pair.now.imp j)) }
    ensures nodes { IsErrOf result RungFault.Nodes → AreTooMany d.old.store (mismatches pair.now.spec pair.now.imp j) }
{
    let at = pair.spec().outs()[j] as usize;
    let given = pair.imp().outs()[j] as usize;
    let wanted = made.spec[at];
    let known = made.imp[given];
    wrong_where_known(d, known, wanted)
}

/// Known to be 1 and not wanted, or known to be 0 and wanted; X is never wrong.
fn wrong_where_known(d: &mut Diagrams, known: DualRail, wanted: Ref) -> Result<Ref, RungFault>
    requires known { AreRails d.old.store known }
    requires wanted { IsRef d.old.store wanted.0 }
    ensures result { IfOk result (Represents d.new.store (known_wrong_table (rails_of d.old.store known)
        (truth_of d.old.store wanted.0))) }
    ensures makes { OnOk result (Makes d.old.store d.new.store (known_wrong_tables (rails_of d.old.store known)
        (truth_of d.old.store wanted.0))) }
    ensures nodes { IsErrOf result RungFault.Nodes
        → AreTooMany d.old.store (known_wrong_tables (rails_of d.old.store known) (truth_of d.old.store wanted.0)) }
{
    let unwanted = d.not(wanted)?;
    let r = sum_of_products(d, known.one, unwanted, known.zero, wanted)?;
    Ok(r)
}
