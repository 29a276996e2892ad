//! The line of a refusal: `refused`, the side, and the fault in words. Each fault has its own word, so a script says
//! them apart by the third word of the line.

ghost use Rattle.std.specs.Prelude.{◌≡◌, ◌++◌, OnOk};
ghost use Rattle.bb_frontend.specs.declared.refusal.Refusal.{Refusal};
ghost use Rattle.bb_frontend.specs.RefusalLines.{pair_words, refusal_line};
ghost use Rattle.bb_frontend.specs.Refusals.{refusal};
ghost use Rattle.bb_frontend.specs.SideWords.{fault_words};

use crate::refusal::Refusal;
use crate::side_fault::SideFault;
use crate::side_words::{push_side_fault, push_with_name};
use bb_bits::NoMemory;
use bb_match::MatchFault;

fn push_pair_fault(text: &mut Vec<u8>, fault: &MatchFault) -> Result<(), NoMemory>
    ensures words { OnOk result (text.new.items ≡ text.old.items ++ pair_words fault.now) }
{
    match fault {
        MatchFault::SpecBox { name } => push_with_name(text, "specbox", name),
        MatchFault::NoCare { name } => push_with_name(text, "care", name),
        MatchFault::PortDiffers { name } => push_with_name(text, "port", name),
        MatchFault::RegDiffers { name } => push_with_name(text, "register", name),
        MatchFault::ClockNotInput { name } => push_with_name(text, "clockinput", name),
        MatchFault::ClockDiffers { name } => push_with_name(text, "clock", name),
        MatchFault::TooManyPins => text.extend_from_slice(b"pins"),
        MatchFault::NoMemory => Err(NoMemory),
    }
}

fn push_side_refusal(text: &mut Vec<u8>, side: &str, fault: &SideFault) -> Result<(), NoMemory>
    ensures line { OnOk result (text.new.items ≡ text.old.items ++ refusal side.now (fault_words fault.now)) }
{
    text.extend_from_slice(b"refused ")?;
    text.extend_from_slice(side.as_bytes())?;
    text.extend_from_slice(b" ")?;
    push_side_fault(text, fault)?;
    text.extend_from_slice(b"\n")?;
    Ok(())
}

fn push_pair_refusal(text: &mut Vec<u8>, fault: &MatchFault) -> Result<(), NoMemory>
    ensures line { OnOk result (text.new.items ≡ text.old.items ++ refusal_line (Refusal.Pair fault.now)) }
{
    text.extend_from_slice(b"refused pair ")?;
    push_pair_fault(text, fault)?;
    text.extend_from_slice(b"\n")?;
    Ok(())
}

/// There is no line for lack of memory, which is an error of the call.
pub fn push_refusal(text: &mut Vec<u8>, refusal: &Refusal) -> Result<(), NoMemory>
    ensures line { OnOk result (text.new.items ≡ text.old.items ++ refusal_line refusal.now) }
    ensures memory { OnOk result (refusal.now ≡ Refusal.NoMemory → ⊥) }
{
    match refusal {
        Refusal::Spec(fault) => push_side_refusal(text, "spec", fault),
        Refusal::Imp(fault) => push_side_refusal(text, "impl", fault),
        Refusal::Pair(fault) => push_pair_refusal(text, fault),
        Refusal::NoMemory => Err(NoMemory),
    }
}
