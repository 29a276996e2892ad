//! The words of a fault. Each is one word with the line and the name that the fault has, in this order, so that a
//! script finds them by blanks.

ghost use Rattle.std.specs.Prelude.{◌≡◌, ◌++◌, IfOk};
ghost use Rattle.bb_frontend.specs.declared.side_fault.SideFault.{SideFault};
ghost use Rattle.bb_frontend.specs.Refusals.{at_line};
ghost use Rattle.bb_frontend.specs.SideWords.{design_words, fault_words, name_words, with_name};

use crate::side_fault::SideFault;
use bb_bits::{Name, NoMemory};
use bb_design::ElabFault;
use bb_names::NameFault;
use itoa::Buffer;

// Written as `WORD line N`; lines count from 1.
pub fn push_at_line(text: &mut Vec<u8>, word: &str, line: u32) -> Result<(), NoMemory>
    ensures { IfOk result (λ done. text.new.items ≡ text.old.items ++ at_line word.now line) }
{
    text.extend_from_slice(word.as_bytes())?;
    text.extend_from_slice(b" line ")?;
    let mut buffer = Buffer::new();
    text.extend_from_slice(buffer.format(line).as_bytes())?;
    Ok(())
}

pub(crate) fn push_with_name(text: &mut Vec<u8>, word: &str, name: &Name) -> Result<(), NoMemory>
    ensures { IfOk result (λ done. text.new.items ≡ text.old.items ++ with_name word.now name.now) }
{
    text.extend_from_slice(word.as_bytes())?;
    text.extend_from_slice(b" ")?;
    text.extend_from_slice(name.bytes())?;
    Ok(())
}

fn push_named_at(text: &mut Vec<u8>, word: &str, line: u32, name: &Name) -> Result<(), NoMemory>
    ensures { IfOk result (λ done. text.new.items ≡ text.old.items ++ with_name (at_line word.now line) name.now) }
{
    push_at_line(text, word, line)?;
    text.extend_from_slice(b" ")?;
    text.extend_from_slice(name.bytes())?;
    Ok(())
}

fn push_name_fault(text: &mut Vec<u8>, fault: &NameFault) -> Result<(), NoMemory>
    ensures words { IfOk result (λ done. text.new.items ≡ text.old.items ++ name_words fault.now) }
    ensures memory { IfOk result (λ done. fault.now ≡ NameFault.NoMemory → ⊥) }
{
    match fault {
        NameFault::Twice { line, name } => push_named_at(text, "twice", *line, name),
        NameFault::Unknown { line, name } => push_named_at(text, "unknown", *line, name),
        NameFault::Select { line, name } => push_named_at(text, "select", *line, name),
        NameFault::Width { line, name } => push_named_at(text, "width", *line, name),
        NameFault::Role { line, name } => push_named_at(text, "role", *line, name),
        NameFault::NoMemory => Err(NoMemory),
    }
}

fn push_design_fault(text: &mut Vec<u8>, fault: &ElabFault) -> Result<(), NoMemory>
    ensures words { IfOk result (λ done. text.new.items ≡ text.old.items ++ design_words fault.now) }
    ensures memory { IfOk result (λ done. fault.now ≡ ElabFault.NoMemory → ⊥) }
{
    match fault {
        ElabFault::NoTop => text.extend_from_slice(b"notop"),
        ElabFault::Recursive { name } => push_with_name(text, "recursive", name),
        ElabFault::TooDeep { name } => push_with_name(text, "toodeep", name),
        ElabFault::TooLarge => text.extend_from_slice(b"toolarge"),
        ElabFault::DrivenTwice { name } => push_with_name(text, "driventwice", name),
        ElabFault::Undriven { name } => push_with_name(text, "undriven", name),
        ElabFault::Loop { name } => push_with_name(text, "loop", name),
        ElabFault::BoxTwice { name } => push_with_name(text, "boxtwice", name),
        ElabFault::RegTwice { name } => push_with_name(text, "regtwice", name),
        ElabFault::PortTwice { name } => push_with_name(text, "porttwice", name),
        ElabFault::NoMemory => Err(NoMemory),
    }
}

/// Lack of memory has no words: it is an error of the call.
pub fn push_side_fault(text: &mut Vec<u8>, fault: &SideFault) -> Result<(), NoMemory>
    ensures words { IfOk result (λ done. text.new.items ≡ text.old.items ++ fault_words fault.now) }
    ensures memory { IfOk result (λ done. fault.now ≡ SideFault.NoMemory → ⊥) }
{
    match fault {
        SideFault::Token { line } => push_at_line(text, "token", *line),
        SideFault::Statement { line } => push_at_line(text, "statement", *line),
        SideFault::Deep { line } => push_at_line(text, "deep", *line),
        SideFault::Unended => text.extend_from_slice(b"unended"),
        SideFault::Named(fault) => push_name_fault(text, fault),
        SideFault::Elaborated(fault) => push_design_fault(text, fault),
        SideFault::NoMemory => Err(NoMemory),
    }
}
