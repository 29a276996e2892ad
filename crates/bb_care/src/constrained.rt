//! Guards each output of both netlists with the care cell by an And.
//!
//! Both sides need it: with one on the implementation's side alone, an output that is 1 in the specification would be
//! wrong wherever the care cell is 0.

ghost use Rattle.std.specs.Prelude.{◌≡◌, ◌+◌, ◌-◌, ◌<◌, ◌≤◌, ◌^◌, [], ◌++◌, All, length, map, nat_lt, if◌then◌else◌};
ghost use Rattle.std.specs.Prelude.{IfOk, OnOk};
ghost use Rattle.std.specs.List.{range_with_len};
ghost use Rattle.bb_subst.specs.Embeddings.{renumbered};
ghost use Rattle.bb_net.specs.declared.cell.Cell.TheVariants.{And};
ghost use Rattle.bb_net.specs.Netlists.{Netlist, reads_of};
ghost use Rattle.bb_care.specs.Constrained.{copy_place, guarded, with_copies};

use crate::outputs::with_outs;
use bb_bits::NoMemory;
use bb_net::{Cell, Net};
use std::alloc::Global;

/// Both netlists with guarded outputs, in the order of the outputs that they guard.
#[derive(Debug, Drop)]
pub struct ConstrainedNets {
    pub spec: Net,
    pub imp: Net,
}

// `first` is the place of the first cell that is copied, `after` that of its copy. The cells before are constants and
// inputs, which both netlists share.
fn copy_place(first: u32, after: u32, k: u32) -> u32
    requires room { after + k < 2 ^ 32 }
    ensures place { result ≡ if nat_lt k first then k else after + (k - first) }
{
    if k < first { k } else { after + (k - first) }
}

fn copied(first: u32, after: u32, cell: Cell) -> Cell
    requires room { All (λ k. after + k < 2 ^ 32) (reads_of [] cell) }
    ensures cell { result ≡ renumbered (λ k. if nat_lt k first then k else after + (k - first)) cell }
{
    match cell {
        Cell::Const(b) => Cell::Const(b),
        Cell::Input(i) => Cell::Input(i),
        Cell::Not(a) => Cell::Not(copy_place(first, after, a)),
        Cell::And(a, b) => Cell::And(copy_place(first, after, a), copy_place(first, after, b)),
        Cell::Or(a, b) => Cell::Or(copy_place(first, after, a), copy_place(first, after, b)),
        Cell::Xor(a, b) => Cell::Xor(copy_place(first, after, a), copy_place(first, after, b)),
        Cell::Mux(c, t, e) => Cell::Mux(
            copy_place(first, after, c),
            copy_place(first, after, t),
            copy_place(first, after, e),
        ),
        Cell::BoxOut(b, p) => Cell::BoxOut(b, p),
    }
}

// All cells are copied and not only those on which the care cell depends: which these are would be one more definition
// to believe, and bounds that count cells would depend on it. The price is that cells count which no output needs.
fn add_copies(spec: &Net, imp: &mut Net) -> Result<(), NoMemory>
    requires no_box { spec.now.boxes ≡ [] }
    requires inputs { spec.now.inputs ≡ imp.old.inputs }
    requires room { length imp.old.cells + length spec.now.cells < 2 ^ 32 }
    ensures copies { OnOk result (imp.new ≡ with_copies spec.now imp.old) }
{
    let first = spec.inputs() + 2;
    let after = imp.cells().len() as u32;
    for k in first as usize..spec.cells().len() {
        imp.push(copied(first, after, spec.cells()[k]))?;
    }
    Ok(())
}

fn add_ands(net: &mut Net, outs: &[u32], care: u32) -> Result<(), NoMemory>
    requires outs { All (λ out. out < length net.old.cells) outs.now }
    requires care { care < length net.old.cells }
    requires room { length net.old.cells + length outs.now < 2 ^ 32 }
    ensures ands { OnOk result (net.new
        ≡ record net.old { cells = net.old.cells ++ map (λ out. And out care) outs.now }) }
{
    for out in outs {
        net.push(Cell::And(*out, care))?;
    }
    Ok(())
}

fn add_outs(net: &mut Net, first: u32, count: u32) -> Result<(), NoMemory>
    requires there { first + count ≤ length net.old.cells }
    requires room { first + count < 2 ^ 32 }
    ensures outs { OnOk result (net.new ≡ record net.old { outs = net.old.outs ++ range_with_len first count }) }
{
    for j in 0..count {
        net.add_out(first + j)?;
    }
    Ok(())
}

// `outs` may differ from the outputs that the netlist has, which are dropped.
fn guarded(alloc: Global, care: u32, outs: &[u32], net: Net) -> Result<Net, NoMemory>
    requires outs { All (λ out. out < length net.cells) outs.now }
    requires care { care < length net.cells }
    requires room { length net.cells + length outs.now < 2 ^ 32 }
    ensures guarded { IfOk result (λ new. new ≡ guarded care outs.now net) }
{
    let first = net.cells().len() as u32;
    let mut new = with_outs(alloc, net, &[])?;
    add_ands(&mut new, outs, care)?;
    add_outs(&mut new, first, outs.len() as u32)?;
    Ok(new)
}

/// `care` is the place of a cell of the specification; in the implementation its copy guards the outputs. `outs` are
/// the places of the specification's outputs; those of the implementation are its own.
pub fn constrained_nets(
    alloc: Global,
    spec: Net,
    outs: &[u32],
    care: u32,
    mut imp: Net,
) -> Result<ConstrainedNets, NoMemory>
    requires no_box { spec.boxes ≡ [] }
    requires inputs { spec.inputs ≡ imp.inputs }
    requires outs { All (λ out. out < length spec.cells) outs.now }
    requires care { care < length spec.cells }
    requires spec_room { length spec.cells + length outs.now < 2 ^ 32 }
    requires imp_room { length imp.cells + length spec.cells + length imp.outs < 2 ^ 32 }
    ensures spec { IfOk result (λ both. both.spec ≡ guarded care outs.now spec) }
    ensures imp { IfOk result (λ both. both.imp ≡ guarded (copy_place spec imp care) imp.outs (with_copies spec imp)) }
{
    let imp_outs = imp.outs().to_vec(alloc)?;
    let copy = copy_place(spec.inputs() + 2, imp.cells().len() as u32, care);
    add_copies(&spec, &mut imp)?;
    let spec = guarded(alloc, care, outs, spec)?;
    let imp = guarded(alloc, copy, &imp_outs, imp)?;
    Ok(ConstrainedNets { spec, imp })
}
