//! Reads and writes of lists at places that may not exist. Places in watch lists are not proved to be in range; a read
//! of 0 or a lost write is a wrong hint, which costs time and no answer, where an index out of range would be an error.

/// 0 where the place does not exist.
#[inline]
pub fn read(numbers: &[u32], place: u32) -> u32 {
    match numbers.get(place as usize) {
        Some(number) => *number,
        None => 0,
    }
}

/// Nothing happens where the place does not exist.
#[inline]
pub fn write(numbers: &mut [u32], place: u32, number: u32) {
    if (place as usize) < numbers.len() {
        numbers[place as usize] = number;
    }
}
