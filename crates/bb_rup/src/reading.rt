//! Reads formulas and additions clause by clause. What a text says is defined as a function of its words, fault or
//! clauses, and a law gives the table of its faults; a reader compares both with the format, and the code is proved
//! against the function. Deletions are read and passed over: what follows from fewer clauses follows from more, so a
//! deleted clause may still be used.

ghost use Rattle.std.specs.Prelude.{◌≡◌, ◌⊎◌, ◌≤◌, List, [], ◌∷◌, ◌++◌, length, Some, None, Ok, Err, IfSome, IfOk};
ghost use Rattle.std.specs.Prelude.{IfErr, OnOk};
ghost use Rattle.bb_cnf.specs.declared.clauses.Lit.{Lit};
ghost use Rattle.bb_cnf.specs.Clauses.{HasVariablesWithin, lists_of};
ghost use Rattle.bb_rup.specs.declared.fault.RupFault.TheVariants.{Header as HeaderFault, NoMemory};
ghost use Rattle.bb_rup.specs.TextWords.{words_of};
ghost use Rattle.bb_rup.specs.Dimacs.{is_end, is_mark, header_of, first_line, clauses_of, dimacs_of, additions_of};
ghost use Rattle.bb_rup.specs.Inside.Ahead.{seen, words_at, words_with, IsCounted, literals_to_end, prepended};
ghost use Rattle.bb_rup.specs.Inside.Ahead.{header_seen, IsFaultOf};

use crate::fault::RupFault;
use crate::numerals::{literal, size};
use crate::words::{Found, Place, Word, start, word_at};
use bb_cnf::{Cnf, Lit};
use smallvec::SmallVec;
use std::alloc::Global;

#[derive(Clone, Copy)]
struct Header<'a> {
    vars: u32,
    clauses: u32,
    after: Place<'a>,
}

fn is_end(word: Word<'_>) -> bool
    ensures { result ≡ is_end (seen word.entry) }
{
    word.bytes == b"0".as_slice()
}

// `d` is a mark only where a clause would begin.
fn is_mark(word: Word<'_>) -> bool
    ensures { result ≡ is_mark (seen word.entry) }
{
    word.bytes == b"d".as_slice()
}

fn header_from(first: Found<'_>) -> Option<Header<'_>>
    requires { IsCounted first.after }
    ensures header { header_of (words_with first.entry) ≡ header_seen result }
    ensures counted { IfSome result (λ header. IsCounted header.after) }
{
    let cnf = word_at(first.after)?;
    let vars = word_at(cnf.after)?;
    let clauses = word_at(vars.after)?;
    if first.word.bytes != b"p".as_slice() || cnf.word.bytes != b"cnf".as_slice() {
        return None;
    }
    Some(Header {
        vars: size(vars.word.bytes)?,
        clauses: size(clauses.word.bytes)?,
        after: clauses.after,
    })
}

// The first four words, wherever the lines end. Nothing else is looked at where they are no header.
fn text_header(text: &[u8]) -> Result<Header<'_>, RupFault>
    requires { length text.now ≤ 33554432 }
    ensures ok { IfOk result (λ header. header_of (words_of text.now) ≡ header_seen (Some header)) }
    ensures counted { IfOk result (λ header. IsCounted header.after) }
    ensures err { IfErr result (λ fault. (header_of (words_of text.now) ≡ None)
        × (fault ≡ HeaderFault (first_line (words_of text.now)))) }
{
    let Some(first) = word_at(start(text)) else {
        return Err(RupFault::Header { line: 1 });
    };
    match header_from(first) {
        Some(header) => Ok(header),
        None => Err(RupFault::Header {
            line: first.word.line,
        }),
    }
}

// Appends the literals from `first` to the end of the clause, which `first` may be.
fn literals<'a>(
    first: Found<'a>,
    vars: u32,
    into: &mut SmallVec<Lit, 4>,
) -> Result<Place<'a>, RupFault>
    requires { IsCounted first.after }
    ensures ok { IfOk result (λ place. literals_to_end vars into.old.items (words_with first.entry)
        ≡ Ok (into.new.items, words_at place)) }
    ensures counted { IfOk result (λ place. IsCounted place) }
    ensures left { IfOk result (λ place. length place.rest.now ≤ length first.entry.after.rest.now) }
    ensures err { IfErr result (λ fault.
        IsFaultOf (literals_to_end vars into.old.items (words_with first.entry)) fault) }
{
    let mut found = first;
    'words: loop {
        if is_end(found.word) {
            return Ok(found.after);
        }
        into.push(literal(found.word, vars)?)?;
        let Some(next) = word_at(found.after) else {
            return Err(RupFault::Unclosed);
        };
        found = next;
    }
}

// The literals of a deletion are checked as those of a clause, so its faults are reported too.
fn deletion<'a>(alloc: Global, mark: Found<'a>, vars: u32) -> Result<Place<'a>, RupFault>
    requires { IsCounted mark.after }
    ensures ok { IfOk result (λ place. (lits : List Lit)
        × (literals_to_end vars [] (words_at mark.entry.after) ≡ Ok (lits, words_at place))) }
    ensures counted { IfOk result (λ place. IsCounted place) }
    ensures left { IfOk result (λ place. length place.rest.now ≤ length mark.entry.after.rest.now) }
    ensures err { IfErr result (λ fault. IsFaultOf (literals_to_end vars [] (words_at mark.entry.after)) fault) }
{
    let mut lits = SmallVec::new(alloc);
    let Some(first) = word_at(mark.after) else {
        return Err(RupFault::Unclosed);
    };
    literals(first, vars, &mut lits)
}

fn clause<'a>(
    alloc: Global,
    first: Found<'a>,
    vars: u32,
    into: &mut Vec<SmallVec<Lit, 4>>,
) -> Result<Place<'a>, RupFault>
    requires { IsCounted first.after }
    ensures ok { IfOk result (λ place. (lits : List Lit)
        × (literals_to_end vars [] (words_with first.entry) ≡ Ok (lits, words_at place))
        × (lists_of into.new.items ≡ lists_of into.old.items ++ lits ∷ [])) }
    ensures counted { IfOk result (λ place. IsCounted place) }
    ensures left { IfOk result (λ place. length place.rest.now ≤ length first.entry.after.rest.now) }
    ensures err { IfErr result (λ fault. IsFaultOf (literals_to_end vars [] (words_with first.entry)) fault) }
{
    let mut lits = SmallVec::new(alloc);
    let place = literals(first, vars, &mut lits)?;
    into.push(lits)?;
    Ok(place)
}

fn entry<'a>(
    alloc: Global,
    first: Found<'a>,
    deletions: bool,
    vars: u32,
    into: &mut Vec<SmallVec<Lit, 4>>,
) -> Result<Place<'a>, RupFault>
    requires { IsCounted first.after }
    ensures ok { IfOk result (λ place. prepended (lists_of into.old.items) (clauses_of deletions vars
        (words_with first.entry))
        ≡ prepended (lists_of into.new.items) (clauses_of deletions vars (words_at place))) }
    ensures counted { IfOk result (λ place. IsCounted place) }
    ensures left { IfOk result (λ place. length place.rest.now ≤ length first.entry.after.rest.now) }
    ensures err { IfErr result (λ fault. IsFaultOf (clauses_of deletions vars (words_with first.entry)) fault) }
{
    if deletions && is_mark(first.word) {
        deletion(alloc, first, vars)
    } else {
        clause(alloc, first, vars, into)
    }
}

fn read_clauses(
    alloc: Global,
    start: Place<'_>,
    deletions: bool,
    vars: u32,
    into: &mut Vec<SmallVec<Lit, 4>>,
) -> Result<(), RupFault>
    requires { IsCounted start }
    ensures ok { OnOk result (prepended (lists_of into.old.items) (clauses_of deletions vars (words_at start.entry))
        ≡ Ok (lists_of into.new.items)) }
    ensures err { IfErr result (λ fault. IsFaultOf (clauses_of deletions vars (words_at start.entry)) fault) }
{
    let mut place = start;
    while let Some(first) = word_at(place) {
        place = entry(alloc, first, deletions, vars, into)?;
    }
    Ok(())
}

/// The first fault in the text is reported, then `Unclosed`, then `Count`.
pub fn dimacs(alloc: Global, text: &[u8]) -> Result<Cnf, RupFault>
    requires { length text.now ≤ 33554432 }
    ensures ok { IfOk result (λ cnf. dimacs_of text.now ≡ Ok cnf) }
    ensures fault { IfErr result (λ fault. (fault ≡ NoMemory) ⊎ (dimacs_of text.now ≡ Err fault)) }
{
    let header = text_header(text)?;
    let mut clauses = Vec::new(alloc);
    read_clauses(alloc, header.after, false, header.vars, &mut clauses)?;
    if clauses.len() != header.clauses as usize {
        return Err(RupFault::Count);
    }
    match Cnf::new(header.vars, clauses) {
        Some(cnf) => Ok(cnf),
        None => unreachable!(),
    }
}

/// Deletions are read and left out. Proofs have no header, so `vars` comes from the formula.
pub fn additions(alloc: Global, text: &[u8], vars: u32) -> Result<Vec<SmallVec<Lit, 4>>, RupFault>
    requires { length text.now ≤ 33554432 }
    ensures ok { IfOk result (λ adds. additions_of text.now vars ≡ Ok (lists_of adds.items)) }
    ensures fault { IfErr result (λ fault. (fault ≡ NoMemory) ⊎ (additions_of text.now vars ≡ Err fault)) }

    // The preconditions of `rup`.
    ensures within { IfOk result (λ adds. HasVariablesWithin vars (lists_of adds.items)) }
    ensures few { IfOk result (λ adds. length adds.items ≤ length text.now) }
{
    let mut adds = Vec::new(alloc);
    read_clauses(alloc, start(text), true, vars, &mut adds)?;
    Ok(adds)
}
