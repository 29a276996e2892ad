//! The trail and the assignment. The list of values is redundant, but a look-up in the trail would take its length.
//! Reasons are clause numbers, moved in one walk when given clauses come.

ghost use Rattle.std.specs.Prelude.{ℕ, ◌≡◌, ◌+◌, ◌-◌, ◌^◌, ◌<◌, ◌≤◌, ◌++◌, ◌∷◌, [], length, take, map, not, None, Some};
ghost use Rattle.std.specs.Prelude.{All, IfSome, OnOk, List};
ghost use Rattle.bb_cdcl.specs.declared.trail.Entry.{Entry as TrailEntry};
ghost use Rattle.bb_cdcl.specs.Laws.Numbers.{moved_number};
ghost use Rattle.bb_cdcl.specs.Inside.Trails.{value_at, AreNew, AreValues, HasRoom, opposite, moved_entry};

use crate::NoMemory;
use crate::heuristics::Heuristic;
use crate::numbers::moved;
use bb_cnf::Lit;

/// `reason` is the number of the clause that implies it; none for a decision.
#[derive(Clone, Copy, Debug)]
pub(crate) struct Entry {
    pub(crate) lit: Lit,
    pub(crate) reason: Option<usize>,
}

/// `entries` in order of assignment. `values[v]` is the bit of variable `v`; place 0 is unused.
#[derive(Drop)]
pub(crate) struct Trail {
    pub(crate) entries: Vec<Entry>,
    pub(crate) values: Vec<Option<bool>>,
}

pub(crate) fn negation(lit: Lit) -> Lit
    ensures { result ≡ opposite lit }
{
    Lit {
        var: lit.var,
        neg: !lit.neg,
    }
}

pub(crate) fn assign(trail: &mut Trail, lit: Lit, reason: Option<usize>) -> Result<(), NoMemory>
    requires in_range { lit.var < length trail.old.values.items }
    requires free { value_at trail.old.values.items lit.var ≡ None }
    requires values { AreValues trail.old.entries.items trail.old.values.items }
    requires room { HasRoom trail.old.entries.items trail.old.values.items }
    ensures entries { OnOk result (trail.new.entries.items
        ≡ trail.old.entries.items ++ record { lit = lit; reason = reason } ∷ []) }
    ensures values { OnOk result (AreValues trail.new.entries.items trail.new.values.items) }
    ensures room { OnOk result (HasRoom trail.new.entries.items trail.new.values.items) }
    ensures within { length trail.old.entries.items < length trail.old.values.items }
    ensures same { OnOk result (length trail.new.values.items ≡ length trail.old.values.items) }
{
    trail.entries.push(Entry { lit, reason })?;
    trail.values[lit.var as usize] = Some(!lit.neg);
    Ok(())
}

// The heuristic notes the literal here, since it chooses among unassigned variables and reuses their last bits.
fn pop(trail: &mut Trail, heuristic: &mut Heuristic)
    requires some { 0 < length trail.old.entries.items }
    requires new { AreNew trail.old.entries.items }
    requires values { AreValues trail.old.entries.items trail.old.values.items }
    requires room { HasRoom trail.old.entries.items trail.old.values.items }
    ensures entries { trail.new.entries.items ≡ take (length trail.old.entries.items - 1) trail.old.entries.items }
    ensures values { AreValues trail.new.entries.items trail.new.values.items }
    ensures room { HasRoom trail.new.entries.items trail.new.values.items }
    ensures same { length trail.new.values.items ≡ length trail.old.values.items }
{
    if let Some(last) = trail.entries.pop() {
        trail.values[last.lit.var as usize] = None;
        heuristic.taken_back(last.lit, last.reason.is_none());
    }
}

/// `place` entries remain.
pub(crate) fn pop_to(trail: &mut Trail, heuristic: &mut Heuristic, place: usize)
    requires within { place ≤ length trail.old.entries.items }
    requires new { AreNew trail.old.entries.items }
    requires values { AreValues trail.old.entries.items trail.old.values.items }
    requires room { HasRoom trail.old.entries.items trail.old.values.items }
    ensures entries { trail.new.entries.items ≡ take place trail.old.entries.items }
    ensures values { AreValues trail.new.entries.items trail.new.values.items }
    ensures room { HasRoom trail.new.entries.items trail.new.values.items }
    ensures same { length trail.new.values.items ≡ length trail.old.values.items }
{
    while trail.entries.len() > place {
        pop(trail, heuristic);
    }
}

pub(crate) fn widen(trail: &mut Trail, vars: u32) -> Result<(), NoMemory>
    requires values { AreValues trail.old.entries.items trail.old.values.items }
    requires room { HasRoom trail.old.entries.items trail.old.values.items }
    requires few { length trail.old.values.items ≤ vars + 1 }
    ensures entries { trail.new.entries.items ≡ trail.old.entries.items }
    ensures values { OnOk result (AreValues trail.new.entries.items trail.new.values.items) }
    ensures room { OnOk result (HasRoom trail.new.entries.items trail.new.values.items) }
    ensures all { OnOk result (length trail.new.values.items ≡ vars + 1) }
{
    while trail.values.len() <= vars as usize {
        trail.values.push(None)?;
    }
    Ok(())
}

fn moved_reason(entry: Entry, given: usize, more: usize) -> Entry
    requires { IfSome entry.reason (λ number. moved_number given more number < 2 ^ 64) }
    ensures { result ≡ moved_entry given more entry }
{
    match entry.reason {
        Some(number) => Entry {
            lit: entry.lit,
            reason: Some(moved(number as u64, given, more) as usize),
        },
        None => entry,
    }
}

pub(crate) fn move_reasons(trail: &mut Trail, given: usize, more: usize)
    requires { All (λ (e : TrailEntry). IfSome e.reason (λ number. moved_number given more number < 2 ^ 64))
        trail.old.entries.items }
    ensures entries { trail.new.entries.items ≡ map (moved_entry given more) trail.old.entries.items }
    ensures values { trail.new.values ≡ trail.old.values }
{
    for place in 0..trail.entries.len() {
        let entry = trail.entries[place];
        trail.entries[place] = moved_reason(entry, given, more);
    }
}
