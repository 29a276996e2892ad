//! Values as short texts, so that a table of cases is one text.

use std::alloc::{AllocError, Global};

/// Empty where there are fewer words.
pub(crate) fn word(text: &str, place: usize) -> &str {
    for (i, word) in text.split_whitespace().enumerate() {
        if i == place {
            return word;
        }
    }
    ""
}

/// 0 where the word is no number.
pub(crate) fn number(text: &str, place: usize) -> u32 {
    match word(text, place).parse::<u32>() {
        Ok(number) => number,
        Err(_) => 0,
    }
}

pub(crate) fn bits(alloc: Global, digits: &str) -> Result<Vec<bool>, AllocError> {
    let mut bits = Vec::new(alloc);
    for digit in digits.as_bytes() {
        bits.push(*digit == b'1')?;
    }
    Ok(bits)
}

pub(crate) fn digits(alloc: Global, bits: &[bool]) -> Result<String, AllocError> {
    let mut digits = String::new(alloc);
    for bit in bits {
        digits.push(if *bit { '1' } else { '0' })?;
    }
    Ok(digits)
}

/// The second half is empty where there is no arrow.
pub(crate) fn halves(row: &str) -> (&str, &str) {
    row.split_once(" => ").unwrap_or((row, ""))
}
