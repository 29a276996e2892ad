//! Bits as text, in list order. Vectors and table columns share this code, so the digits of a report mean the same
//! everywhere.

ghost use Rattle.std.specs.Prelude.{◌≡◌, ◌++◌, OnOk};
ghost use Rattle.std.specs.List.{flat_map};
ghost use Rattle.bb_checks.specs.TableLines.{printed_bit};

use bb_bits::NoMemory;

pub(crate) fn push_bit(text: &mut Vec<u8>, bit: bool) -> Result<(), NoMemory>
    ensures text { OnOk result (text.new.items ≡ text.old.items ++ printed_bit bit) }
{
    text.extend_from_slice(if bit { b"1" } else { b"0" })?;
    Ok(())
}

/// In list order: for a vector the first input first, for a table column row 0 first.
pub(crate) fn push_bits(text: &mut Vec<u8>, bits: &[bool]) -> Result<(), NoMemory>
    ensures text { OnOk result (text.new.items ≡ text.old.items ++ flat_map printed_bit bits.now) }
{
    for bit in bits {
        push_bit(text, *bit)?;
    }
    Ok(())
}
