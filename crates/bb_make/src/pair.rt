//! The two texts of a made pair. The box is the stage in the middle, so that carries reach it from below and leave it
//! upwards. That the texts read and fit is tested at sixteen widths from 1 to 256 and not proved, so a caller needs a
//! case for a refusal.

ghost use Rattle.std.specs.Prelude.{◌≡◌, ◌≤◌, ◌<◌, length, IfOk};
ghost use Rattle.bb_make.specs.Adders.{made_imp, made_spec};

use crate::adder::{push_adder, push_hole};
use bb_bits::NoMemory;
use std::alloc::Global;

fn spec(alloc: Global, n: u32) -> Result<Vec<u8>, NoMemory>
    ensures text { IfOk result (λ text. text.items ≡ made_spec n) }
{
    let mut text = Vec::new(alloc);
    push_adder(&mut text, None, n)?;
    Ok(text)
}

fn imp(alloc: Global, n: u32) -> Result<Vec<u8>, NoMemory>
    ensures text { IfOk result (λ text. text.items ≡ made_imp n) }
{
    let mut text = Vec::new(alloc);
    push_adder(&mut text, Some(n / 2), n)?;
    push_hole(&mut text)?;
    Ok(text)
}

/// The specification and the implementation: an adder of `n` bits with its carry in and out, and the same adder in
/// which stage n / 2 is a box, `hole`. The top module of both is `add`; each text has less than 65,536 bytes.
///
/// # Errors
///
/// Only `NoMemory`.
pub fn texts(alloc: Global, n: u32) -> Result<(Vec<u8>, Vec<u8>), NoMemory>
    requires width { (1 ≤ n) × (n ≤ 256) }
    ensures spec { IfOk result (λ made. made.0.items ≡ made_spec n) }
    ensures imp { IfOk result (λ made. made.1.items ≡ made_imp n) }
    ensures short { IfOk result (λ made. (length made.0.items < 65536) × (length made.1.items < 65536)) }
{
    let spec = spec(alloc, n)?;
    let imp = imp(alloc, n)?;
    Ok((spec, imp))
}
