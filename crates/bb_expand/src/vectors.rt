//! The clauses of one sample: implementation cells with constant inputs, then unit clauses for the outputs. The
//! specification is simulated and not encoded, since its inputs are known at a sample.

ghost use Rattle.std.specs.Prelude.{◌≡◌, ◌+◌, ◌*◌, ◌^◌, ◌<◌, ◌∷◌, ◌++◌, [], ℕ, All, length, slice_index, map, OnOk};
ghost use Rattle.std.specs.List.{range_with_len};
ghost use Rattle.bb_cnf.specs.Clauses.{lists_of};
ghost use Rattle.bb_net.specs.Completions.{table_bits, HaveSmallTables};
ghost use Rattle.bb_net.specs.Kinds.{representatives};
ghost use Rattle.bb_net.specs.Values.{bit_of};
ghost use Rattle.bb_expand.specs.Inside.TableStarts.{AreStarts};
ghost use Rattle.bb_expand.specs.Expansions.{having, vector_clauses};

use crate::cells::push_cells;
use crate::clauses::{having, push};
use bb_bits::NoMemory;
use bb_cnf::Lit;
use bb_net::Pair;
use smallvec::SmallVec;

fn push_outputs(
    clauses: &mut Vec<SmallVec<Lit, 4>>,
    base: u32,
    outs: &[u32],
    wanted: &[u32],
    bits: &[bool],
) -> Result<(), NoMemory>
    requires fits { All (λ place. base + place + 1 < 2 ^ 32) outs.now }
    requires count { length wanted.now ≡ length outs.now }
    requires there { All (λ place. place < length bits.now) wanted.now }
    ensures { OnOk result (lists_of clauses.new.items
        ≡ lists_of clauses.old.items
        ++ map
        (λ j. having (base + slice_index outs.now j + 1) (bit_of bits.now (slice_index wanted.now j)) ∷ [])
        (range_with_len 0 (length outs.now))) }
{
    for (j, place) in outs.iter().enumerate() {
        push(
            clauses,
            &[having(base + *place + 1, bits[wanted[j] as usize])],
        )?;
    }
    Ok(())
}

// `x` is sample number `v`. `bits` is scratch for the specification's cells.
pub(crate) fn push_vector(
    clauses: &mut Vec<SmallVec<Lit, 4>>,
    base: u32,
    pair: &Pair,
    starts: &[u32],
    x: &[bool],
    bits: &mut [bool],
) -> Result<(), NoMemory>
    requires fits { base + length pair.now.imp.cells < 2 ^ 32 }
    requires small { HaveSmallTables (representatives pair.now.kinds pair.now.imp.boxes) }
    requires starts { AreStarts starts.now (representatives pair.now.kinds pair.now.imp.boxes) }
    requires inputs { length x.now ≡ pair.now.imp.inputs }
    requires room { length bits.old ≡ length pair.now.spec.cells }
    ensures pushed { (v : ℕ)
        → base ≡ table_bits (representatives pair.now.kinds pair.now.imp.boxes) + v * length pair.now.imp.cells
        → OnOk result (lists_of clauses.new.items
        ≡ lists_of clauses.old.items ++ vector_clauses pair.now.spec pair.now.imp pair.now.kinds v x.now) }
    ensures room { OnOk result (length bits.new ≡ length pair.now.spec.cells) }
{
    let (spec, imp) = (pair.spec(), pair.imp());
    spec.value(x, &[], bits);
    push_cells(clauses, base, imp, pair.kinds(), starts, x)?;
    push_outputs(clauses, base, imp.outs(), spec.outs(), bits)
}
