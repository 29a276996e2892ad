//! Prints clauses and refutations as lines. All or nothing: where memory ends within a proof, the text is cut back to
//! what it was, so that no caller can take half a proof for a whole one.

ghost use Rattle.std.specs.Prelude.{◌≡◌, ◌++◌, ◌+◌, ◌<◌, ◌≤◌, ◌^◌, decimal, flat_map, length, OnOk, OnErr};
ghost use Rattle.bb_cnf.specs.Clauses.{lists_of};
ghost use Rattle.bb_cnf.specs.Lines.{literal_text, clause_line, pair_text, step_line, clause_lines, step_lines};
ghost use Rattle.bb_cnf.specs.Lines.{proof_lines};
ghost use Rattle.bb_cnf.specs.Inside.Printed.{IsKept};

use crate::{Cnf, Lit, NoMemory, Refutation, Step};
use itoa::Buffer;
use smallvec::SmallVec;

fn put_text(into: &mut Vec<u8>, text: &[u8]) -> Result<(), NoMemory>
    ensures ok { OnOk result (into.new.items ≡ into.old.items ++ text.now) }
    ensures err { OnErr result (IsKept into.old.items into.new.items) }
{
    into.extend_from_slice(text)
}

fn put_number(into: &mut Vec<u8>, number: u64) -> Result<(), NoMemory>
    ensures ok { OnOk result (into.new.items ≡ into.old.items ++ decimal number) }
    ensures err { OnErr result (IsKept into.old.items into.new.items) }
{
    let mut buffer = Buffer::new();
    put_text(into, buffer.format(number).as_bytes())
}

fn put_literal(into: &mut Vec<u8>, lit: Lit) -> Result<(), NoMemory>
    ensures ok { OnOk result (into.new.items ≡ into.old.items ++ literal_text lit) }
    ensures err { OnErr result (IsKept into.old.items into.new.items) }
{
    if lit.neg {
        put_text(into, b" -")?;
    } else {
        put_text(into, b" ")?;
    }
    put_number(into, lit.var as u64)
}

fn put_pair(into: &mut Vec<u8>, pair: (u64, u32)) -> Result<(), NoMemory>
    ensures ok { OnOk result (into.new.items ≡ into.old.items ++ pair_text pair) }
    ensures err { OnErr result (IsKept into.old.items into.new.items) }
{
    put_text(into, b" ")?;
    put_number(into, pair.0)?;
    put_text(into, b"/")?;
    put_number(into, pair.1 as u64)
}

fn put_literals(into: &mut Vec<u8>, lits: &[Lit]) -> Result<(), NoMemory>
    ensures ok { OnOk result (into.new.items ≡ into.old.items ++ flat_map literal_text lits.now) }
    ensures err { OnErr result (IsKept into.old.items into.new.items) }
{
    for lit in lits {
        put_literal(into, *lit)?;
    }
    Ok(())
}

fn put_pairs(into: &mut Vec<u8>, pairs: &[(u64, u32)]) -> Result<(), NoMemory>
    ensures ok { OnOk result (into.new.items ≡ into.old.items ++ flat_map pair_text pairs.now) }
    ensures err { OnErr result (IsKept into.old.items into.new.items) }
{
    for pair in pairs {
        put_pair(into, *pair)?;
    }
    Ok(())
}

fn put_clause(into: &mut Vec<u8>, number: u64, lits: &[Lit]) -> Result<(), NoMemory>
    ensures ok { OnOk result (into.new.items ≡ into.old.items ++ clause_line number lits.now) }
    ensures err { OnErr result (IsKept into.old.items into.new.items) }
{
    put_text(into, b"clause ")?;
    put_number(into, number)?;
    put_literals(into, lits)?;
    put_text(into, b"\n")
}

fn put_step(into: &mut Vec<u8>, number: u64, step: &Step) -> Result<(), NoMemory>
    ensures ok { OnOk result (into.new.items ≡ into.old.items ++ step_line number step.now) }
    ensures err { OnErr result (IsKept into.old.items into.new.items) }
{
    put_text(into, b"step ")?;
    put_number(into, number)?;
    put_text(into, b" ")?;
    put_number(into, step.first)?;
    put_pairs(into, &step.rest)?;
    put_text(into, b"\n")
}

fn put_clauses(into: &mut Vec<u8>, clauses: &[SmallVec<Lit, 4>]) -> Result<(), NoMemory>
    ensures ok { OnOk result (into.new.items ≡ into.old.items ++ clause_lines 0 (lists_of clauses.now)) }
    ensures err { OnErr result (IsKept into.old.items into.new.items) }
{
    for (place, clause) in clauses.iter().enumerate() {
        put_clause(into, place as u64, clause.as_slice())?;
    }
    Ok(())
}

fn put_steps(into: &mut Vec<u8>, first: u64, steps: &[Step]) -> Result<(), NoMemory>
    requires { first + length steps.now < 2 ^ 64 }
    ensures ok { OnOk result (into.new.items ≡ into.old.items ++ step_lines first steps.now) }
    ensures err { OnErr result (IsKept into.old.items into.new.items) }
{
    for (place, step) in steps.iter().enumerate() {
        put_step(into, first + place as u64, step)?;
    }
    Ok(())
}

fn put_lines(
    into: &mut Vec<u8>,
    clauses: &[SmallVec<Lit, 4>],
    steps: &[Step],
) -> Result<(), NoMemory>
    ensures ok { OnOk result (into.new.items ≡ into.old.items ++ proof_lines (lists_of clauses.now) steps.now) }
    ensures err { OnErr result (IsKept into.old.items into.new.items) }
{
    put_clauses(into, clauses)?;
    put_steps(into, clauses.len() as u64, steps)
}

/// The lines of the clauses, then those of the steps, in the order of their numbers. After an error the text is as
/// before.
pub fn print(cnf: &Cnf, refutation: &Refutation, into: &mut Vec<u8>) -> Result<(), NoMemory>
    ensures ok { OnOk result (into.new.items
        ≡ into.old.items ++ proof_lines cnf.now.clauses refutation.now.steps.items) }
    ensures err { OnErr result (into.new.items ≡ into.old.items) }
{
    let before = into.len();
    let answer = put_lines(into, &cnf.clauses, &refutation.steps);
    if answer.is_err() {
        into.truncate(before);
    }
    answer
}
