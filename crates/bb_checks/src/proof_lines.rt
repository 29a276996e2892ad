//! The lines of a proof: the vectors of an expansion, its clauses, and the steps that refute them. The vectors come
//! first, since the clauses are those of the pair at these vectors and can be made from them.

ghost use Rattle.std.specs.Prelude.{◌≡◌, ◌++◌, OnOk, map, vec_items};
ghost use Rattle.std.specs.List.{flat_map};
ghost use Rattle.bb_checks.specs.Reports.{vector_line, proof_text};

use crate::bits::push_bits;
use crate::line::Proof;
use bb_bits::NoMemory;
use bb_cnf::print;

// Without inputs there is no blank after the word, so no line ends with one.
fn push_vector(text: &mut Vec<u8>, vector: &[bool]) -> Result<(), NoMemory>
    ensures text { OnOk result (text.new.items ≡ text.old.items ++ vector_line vector.now) }
{
    text.extend_from_slice(b"vector")?;
    if !vector.is_empty() {
        text.extend_from_slice(b" ")?;
        push_bits(text, vector)?;
    }
    text.extend_from_slice(b"\n")?;
    Ok(())
}

fn push_vectors(text: &mut Vec<u8>, vectors: &[Vec<bool>]) -> Result<(), NoMemory>
    ensures text { OnOk result (text.new.items ≡ text.old.items ++ flat_map vector_line (map vec_items vectors.now)) }
{
    for vector in vectors {
        push_vector(text, vector)?;
    }
    Ok(())
}

pub(crate) fn push_proof(text: &mut Vec<u8>, proof: &Proof) -> Result<(), NoMemory>
    ensures text { OnOk result (text.new.items ≡ text.old.items ++ proof_text proof.now) }
{
    push_vectors(text, &proof.vectors)?;
    print(&proof.cnf, &proof.refutation, text)?;
    Ok(())
}
