//! The patterns of a simulation: corner patterns (all 0, all 1, a single 1, a single 0), then pseudo-random ones from a
//! 64-bit xorshift register (Marsaglia 2003, shifts 13, 7 and 17). The seed fixes them, so a report is a function of
//! the texts.

ghost use Rattle.std.specs.Prelude.{◌≡◌, ◌+◌, ◌*◌, ◌≤◌, ◌<◌, ℕ, Bool, true, false, not, List, [], ◌∷◌, ◌++◌, length};
ghost use Rattle.std.specs.Prelude.{map, replicate, vec_items, IfOk, OnOk};
ghost use Rattle.std.specs.List.{range_with_len};
ghost use Rattle.bb_tern.specs.Patterns.{next_state, state_after, drawn_bit, drawn_pattern, one_against_all, patterns};

use bb_bits::NoMemory;
use std::alloc::Global;

/// All 0; all 1; each input alone 1, in order; each alone 0; then `drawn` ones, bit by bit in the order of the inputs,
/// from a register that begins as `seed`. A seed of 0 draws zeros only.
pub fn patterns(
    alloc: Global,
    inputs: u32,
    drawn: u32,
    seed: u64,
) -> Result<Vec<Vec<bool>>, NoMemory>
    requires inputs { inputs ≤ 2048 }
    requires drawn { drawn ≤ 4096 }
    ensures ok { IfOk result (λ all. map vec_items all.items ≡ patterns inputs drawn seed) }
{
    let mut all = Vec::with_capacity(alloc, 2 + 2 * inputs as usize + drawn as usize)?;
    all.push(constant(alloc, inputs, false)?)?;
    all.push(constant(alloc, inputs, true)?)?;
    push_alone(alloc, &mut all, inputs, true)?;
    push_alone(alloc, &mut all, inputs, false)?;
    push_drawn(alloc, &mut all, inputs, drawn, seed)?;
    Ok(all)
}

fn push_alone(
    alloc: Global,
    all: &mut Vec<Vec<bool>>,
    inputs: u32,
    bit: bool,
) -> Result<(), NoMemory>
    ensures ok { OnOk result (map vec_items all.new.items
        ≡ map vec_items all.old.items ++ map (one_against_all inputs bit (not bit)) (range_with_len 0 inputs)) }
{
    for i in 0..inputs {
        all.push(one_alone(alloc, inputs, i, bit)?)?;
    }
    Ok(())
}

// The register runs on over all patterns.
fn push_drawn(
    alloc: Global,
    all: &mut Vec<Vec<bool>>,
    inputs: u32,
    drawn: u32,
    seed: u64,
) -> Result<(), NoMemory>
    ensures ok { OnOk result (map vec_items all.new.items
        ≡ map vec_items all.old.items ++ map (drawn_pattern inputs seed) (range_with_len 0 drawn)) }
{
    let mut state = seed;
    for _ in 0..drawn {
        all.push(draw(alloc, inputs, &mut state)?)?;
    }
    Ok(())
}

fn constant(alloc: Global, inputs: u32, bit: bool) -> Result<Vec<bool>, NoMemory>
    ensures ok { IfOk result (λ pattern. pattern.items ≡ replicate inputs bit) }
{
    vec![in alloc; bit; inputs as usize]
}

fn one_alone(alloc: Global, inputs: u32, i: u32, bit: bool) -> Result<Vec<bool>, NoMemory>
    requires { i < inputs }
    ensures ok { IfOk result (λ pattern. pattern.items ≡ one_against_all inputs bit (not bit) i) }
{
    let mut pattern = constant(alloc, inputs, !bit)?;
    pattern[i as usize] = bit;
    Ok(pattern)
}

// The highest bit of a state is drawn.
const HIGHEST: u64 = 1 << 63;

fn next(state: u64) -> u64
    ensures { result ≡ next_state state }
{
    let mut s = state;
    s ^= s << 13;
    s ^= s >> 7;
    s ^= s << 17;
    s
}

fn draw(alloc: Global, inputs: u32, state: &mut u64) -> Result<Vec<bool>, NoMemory>
    ensures ok { IfOk result (λ pattern. (seed n : ℕ) → state.old ≡ state_after seed n
        → pattern.items ≡ map (drawn_bit seed) (range_with_len n inputs)) }
    ensures state { IfOk result (λ pattern.
        (seed n : ℕ) → state.old ≡ state_after seed n → state.new ≡ state_after seed (n + inputs)) }
{
    let mut pattern = Vec::with_capacity(alloc, inputs as usize)?;
    for _ in 0..inputs {
        *state = next(*state);
        pattern.push(*state >= HIGHEST)?;
    }
    Ok(pattern)
}
