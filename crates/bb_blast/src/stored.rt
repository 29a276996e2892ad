//! Register bits by numbers: names are made of them only once a design has no other fault.

/// `bit` and `clock` are numbers in net order; the next state is taken at the falling or the rising edge of the clock.
#[derive(Clone, Copy, Debug)]
pub struct Stored {
    pub bit: u32,
    pub clock: u32,
    pub falling: bool,
}
