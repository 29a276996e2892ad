//! Which input pins see earlier pins: those with the same Ref. A store holds each function once, so equality of
//! functions costs a comparison of numbers.

ghost use Rattle.std.specs.Prelude.{◌≡◌, ◌≤◌, ◌<◌, ℕ, true, false, length, All, IfOk};
ghost use Rattle.bb_net.specs.Pairs.{pin_count};
ghost use Rattle.bb_sym.specs.Inside.Made.{ref_at};
ghost use Rattle.bb_nest.specs.Inside.Readers.{IsReader, HasReader, HasNoReader, AreReaders, AllSeeRefs, SomeMissesRef};

use bb_bits::NoMemory;
use bb_dd::Ref;
use bb_net::BoxPins;
use std::alloc::Global;

/// `ins.len()` where no pin has it.
fn reader(ins: &[Ref], r: Ref) -> usize
    ensures most { result ≤ length ins.now }
    ensures found { result < length ins.now → IsReader ins.now r result }
    ensures none { length ins.now ≤ result → HasNoReader ins.now r }
{
    let mut p = 0;
    while p < ins.len() && ins[p] != r {
        p += 1;
    }
    p
}

fn sees_all(ins: &[Ref], refs: &[Ref]) -> bool
    ensures yes { result ≡ true → All (HasReader ins.now) refs.now }
    ensures no { result ≡ false → (q : ℕ) × (q < length refs.now) × HasNoReader ins.now (ref_at refs.now q) }
{
    for r in refs {
        if reader(ins, *r) == ins.len() {
            return false;
        }
    }
    true
}

/// Each of `refs` has to be at some pin.
pub(crate) fn readers(alloc: Global, ins: &[Ref], refs: &[Ref]) -> Result<Vec<usize>, NoMemory>
    requires seen { All (HasReader ins.now) refs.now }
    ensures readers { IfOk result (λ readers. AreReaders ins.now refs.now readers.items) }
{
    let mut readers = Vec::with_capacity(alloc, refs.len())?;
    for r in refs {
        readers.push(reader(ins, *r))?;
    }
    Ok(readers)
}

/// `refs` has the cells at all pins, in the order of the boxes.
pub(crate) fn see_earlier(boxes: &[BoxPins], refs: &[Ref]) -> bool
    requires count { length refs.now ≡ pin_count boxes.now }
    ensures yes { result ≡ true → AllSeeRefs boxes.now refs.now }
    ensures no { result ≡ false → SomeMissesRef boxes.now refs.now }
{
    let mut start = 0;
    for pins in boxes {
        let ins = pins.ins().len();
        if !sees_all(&refs[start..start + ins], &refs[..start]) {
            return false;
        }
        start += ins + pins.outs().len();
    }
    true
}
