//! The registers of a flat netlist: names, edges and clocks. A design is refused where two have one name, which escaped
//! names can spell.

ghost use Rattle.std.specs.Prelude.{◌≡◌, ◌⊎◌, ◌+◌, ◌<◌, ◌^◌, ℕ, List, All, length, map, IfOk, IfErr};
ghost use Rattle.std.specs.List.{AllZip};
ghost use Rattle.bb_names.specs.Inside.Checked.{syntax};
ghost use Rattle.bb_net.specs.Netlists.{Netlist};
ghost use Rattle.bb_design.specs.declared.fault.ElabFault.TheVariants.{NoMemory as out_of_memory};
ghost use Rattle.bb_elab.specs.Inside.CopyEnds.{AreEnds};
ghost use Rattle.bb_design.specs.Hierarchy.{Design};
ghost use Rattle.bb_design.specs.Inside.Allowed.{IsBounded};
ghost use Rattle.bb_design.specs.NetBits.{top_inputs};
ghost use Rattle.bb_blast.specs.Inside.Placements.{IsStoredAt, AreStored};
ghost use Rattle.bb_design.specs.Refusals.{RegisterTexts, AreDrivenOnce, IsAbsentInDesign, register_texts};
ghost use Rattle.bb_design.specs.Laws.CauseLaws.{ReportsCause};
ghost use Rattle.bb_design.specs.Registers.{RegisterBit, registers, cut_bits};
ghost use Rattle.bb_elab.specs.Inside.Stages.{IsElaborated, AreLevelized};
ghost use Rattle.bb_implements.specs.Implements.{IsRegister};
ghost use Rattle.bb_design.specs.Texts.{bit_text};

use crate::clocks::clock_input;
use crate::copy_ends::no_ends;
use crate::elaboration::Elaborated;
use crate::naming::{bit_names, top_template};
use crate::repeats::first_repeat;
use bb_bits::{Name, NoMemory};
use bb_blast::Stored;
use bb_design::ElabFault;
use bb_implements::list_laws::{laws_of_cells, lists_are_loose};
use bb_names::Checked;
use bb_net::{Loose, Reg};
use std::alloc::Global;

fn stored_numbers(alloc: Global, stored: &[Stored]) -> Result<Vec<u32>, NoMemory>
    ensures numbers { IfOk result (λ numbers. numbers.items ≡ map (λ x. x.bit) stored.now) }
{
    let mut numbers = Vec::with_capacity(alloc, stored.len())?;
    for register in stored {
        numbers.push(register.bit)?;
    }
    Ok(numbers)
}

/// In net order; no two of them are the same.
pub(crate) fn registers_apart(
    alloc: Global,
    checked: &Checked,
    elaborated: &Elaborated,
) -> Result<Vec<Name>, ElabFault>
    requires design { (d : Design) × IsElaborated (map syntax checked.now) d elaborated.now }
    ensures texts { IfOk result (λ texts.
        (d : Design) → IsElaborated (map syntax checked.now) d elaborated.now → texts.items ≡ register_texts d) }
    ensures apart { IfOk result (λ texts.
        (d : Design) → IsElaborated (map syntax checked.now) d elaborated.now → IsAbsentInDesign d RegisterTexts) }
    ensures fault { IfErr result (λ fault. (fault ≡ out_of_memory)
        ⊎ ((d : Design) → IsElaborated (map syntax checked.now) d elaborated.now
        → ReportsCause d RegisterTexts fault)) }
{
    let numbers = stored_numbers(alloc, &elaborated.stored)?;
    let texts = bit_names(alloc, checked, elaborated, &numbers)?;
    match first_repeat(alloc, &texts)? {
        Some(name) => Err(ElabFault::RegTwice { name }),
        None => Ok(texts),
    }
}

// `first` is the place of the first bit of a net; the inputs of the top are those below `limit`.
fn register(
    list: &Loose,
    ends: &mut [Option<u32>],
    first: u32,
    limit: u32,
    stored: &Stored,
    text: Name,
) -> Reg
    requires fits { first + stored.now.clock < 2 ^ 32 }
    requires ends { AreEnds list.now ends.old }
    ensures ends { AreEnds list.now ends.new }
    ensures register { (d : Design) (net : Netlist) (numbers : List ℕ) → IsBounded d → AreDrivenOnce d
        → AreLevelized d list.now net numbers → first ≡ 2 + length (cut_bits d) → limit ≡ length (top_inputs d)
        → (r : RegisterBit) → IsStoredAt d stored.now r → text ≡ bit_text d r.bit → IsRegister d r result }
{
    laws_of_cells();
    Reg {
        text,
        falling: stored.falling,
        clock: clock_input(list, ends, first, stored.clock, limit),
    }
}

// All share one list of noted ends, so a chain of assignments on which many clocks hang is followed once.
fn registers(
    alloc: Global,
    list: &Loose,
    first: u32,
    limit: u32,
    stored: &[Stored],
    texts: Vec<Name>,
) -> Result<Vec<Reg>, NoMemory>
    requires long { length texts.items ≡ length stored.now }
    requires fits { All (λ x. first + x.clock < 2 ^ 32) stored.now }
    ensures registers { IfOk result (λ regs. (d : Design) (net : Netlist) (numbers : List ℕ) → IsBounded d
        → AreDrivenOnce d → AreLevelized d list.now net numbers → first ≡ 2 + length (cut_bits d)
        → limit ≡ length (top_inputs d) → AreStored d stored.now → texts.items ≡ register_texts d
        → AllZip (IsRegister d) (registers d) regs.items) }
{
    let mut ends = no_ends(alloc, list)?;
    let mut regs = Vec::with_capacity(alloc, stored.len())?;
    for text in texts {
        let register = register(list, &mut ends, first, limit, &stored[regs.len()], text);
        regs.push(register)?;
    }
    Ok(regs)
}

/// `texts` has one name for each register bit, in net order.
pub(crate) fn named_registers(
    alloc: Global,
    checked: &Checked,
    elaborated: &Elaborated,
    list: &Loose,
    texts: Vec<Name>,
) -> Result<Vec<Reg>, NoMemory>
    requires design { (d : Design) × (net : Netlist) × (numbers : List ℕ)
        × IsElaborated (map syntax checked.now) d elaborated.now × AreLevelized d list.now net numbers
        × (texts.items ≡ register_texts d) }
    ensures registers { IfOk result (λ regs. (d : Design) (net : Netlist) (numbers : List ℕ)
        → IsElaborated (map syntax checked.now) d elaborated.now → AreLevelized d list.now net numbers
        → texts.items ≡ register_texts d → AllZip (IsRegister d) (registers d) regs.items) }
{
    laws_of_cells();
    lists_are_loose();
    let top = top_template(elaborated);
    let limit = top.inputs.len() as u32;
    let first = 2 + list.input_count();
    registers(alloc, list, first, limit, &elaborated.stored, texts)
}
