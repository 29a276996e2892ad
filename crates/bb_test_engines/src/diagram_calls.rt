//! Calls on BDDs as words, and their results as words, so that a test is a table with a call in each row. A call first
//! tests whether its operands exist, which is the premise of every operation; so the tables owe no proof of it.

ghost use Rattle.std.specs.Prelude.{◌≡◌, ◌<◌, true, IfOk};
ghost use Rattle.bb_uniq.specs.Inside.Nodes.{IsRef};

use crate::words::{bits, digits, halves, number, word};
use bb_dd::{DdFault, Diagrams};
use bb_uniq::{Ref, View};
use std::alloc::{AllocError, Global};
use std::process::Abort;
use std::test::Fail;

/// Expected in some rows: a table may show what happens without room.
#[derive(Clone, Copy, Debug)]
pub(crate) enum CallFault {
    Full,
    /// An operand does not exist, or the cache has no room for a result.
    Missing,
    /// The cache has no such result.
    None,
}

impl From<DdFault> for CallFault {
    fn from(_: DdFault) -> CallFault {
        CallFault::Full
    }
}

/// Bounds are in nodes and results.
pub(crate) fn start(alloc: Global, vars: u32, nodes: u32, cache: u32) -> Result<Diagrams, Fail>
    ensures vars { IfOk result (λ d. d.store.vars ≡ vars) }
{
    if vars > 2048 || nodes > 50_000_000 || cache < 1 || cache > 1_048_576 {
        return Err(Fail::new("no diagrams of this size"));
    }
    Ok(Diagrams::start(alloc, vars, nodes, cache)?)
}

pub(crate) fn holds(d: &Diagrams, f: Ref) -> bool
    ensures { result ≡ true → IsRef d.now.store f.0 }
{
    (f.0 as usize) < d.len() as usize + 2
}

pub(crate) fn operation(
    d: &mut Diagrams,
    name: &str,
    f: Ref,
    g: Ref,
    h: Ref,
) -> Result<Ref, CallFault>
    ensures vars { d.new.store.vars ≡ d.old.store.vars }
{
    if !holds(d, f) || !holds(d, g) || !holds(d, h) {
        return Err(CallFault::Missing);
    }
    let made = match name {
        "not" => d.not(f)?,
        "and" => d.and(f, g)?,
        "or" => d.or(f, g)?,
        "xor" => d.xor(f, g)?,
        _ => d.ite(f, g, h)?,
    };
    Ok(made)
}

pub(crate) fn variable(d: &mut Diagrams, vars: u32, v: u32) -> Result<Ref, CallFault>
    requires vars { vars ≡ d.old.store.vars }
    ensures vars { d.new.store.vars ≡ d.old.store.vars }
{
    if v >= vars {
        return Err(CallFault::Missing);
    }
    Ok(d.var(v)?)
}

fn quantified(d: &mut Diagrams, vars: u32, name: &str, f: Ref, v: u32) -> Result<Ref, CallFault>
    requires vars { vars ≡ d.old.store.vars }
    ensures vars { d.new.store.vars ≡ d.old.store.vars }
{
    if v >= vars || !holds(d, f) {
        return Err(CallFault::Missing);
    }
    match name {
        "forall" => Ok(bb_quant::forall(d, f, v)?),
        "exists" => Ok(bb_quant::exists(d, f, v)?),
        _ => d
            .recall(name == "recall-forall", f, v)
            .ok_or(CallFault::None),
    }
}

fn node(d: &mut Diagrams, vars: u32, v: u32, lo: Ref, hi: Ref) -> Result<Ref, CallFault>
    requires vars { vars ≡ d.old.store.vars }
    ensures vars { d.new.store.vars ≡ d.old.store.vars }
{
    if v >= vars || lo.0 >= 2 || hi.0 >= 2 {
        return Err(CallFault::Missing);
    }
    Ok(d.make(v, lo, hi)?)
}

// Puts the leaf 1 into the cache as the result of `exists` on itself, without computing it.
fn keep_one(d: &mut Diagrams, vars: u32) -> Result<Ref, CallFault>
    requires vars { vars ≡ d.old.store.vars }
    ensures vars { d.new.store.vars ≡ d.old.store.vars }
{
    if vars != 1 {
        return Err(CallFault::Missing);
    }
    bb_uniq::laws::stores();
    match d.keep(false, Ref(1), 0, Ref(1)) {
        Ok(()) => Ok(Ref(1)),
        Err(_) => Err(CallFault::Missing),
    }
}

// `and 2 3` is the conjunction of the diagrams 2 and 3.
fn diagram(d: &mut Diagrams, vars: u32, call: &str) -> Result<Ref, CallFault>
    requires vars { vars ≡ d.old.store.vars }
    ensures vars { d.new.store.vars ≡ d.old.store.vars }
{
    let (a, b, c) = (number(call, 1), number(call, 2), number(call, 3));
    match word(call, 0) {
        "var" => variable(d, vars, a),
        "node" => node(d, vars, a, Ref(b), Ref(c)),
        "keep" => keep_one(d, vars),
        "forall" | "exists" | "recall-forall" | "recall-exists" => {
            quantified(d, vars, word(call, 0), Ref(a), b)
        }
        name => operation(d, name, Ref(a), Ref(b), Ref(c)),
    }
}

fn view(alloc: Global, d: &Diagrams, f: Ref) -> Result<String, AllocError> {
    if !holds(d, f) {
        return String::from_str(alloc, "no diagram");
    }
    match d.view(f) {
        View::Leaf(true) => String::from_str(alloc, "leaf 1"),
        View::Leaf(false) => String::from_str(alloc, "leaf 0"),
        View::Node { var, lo, hi } => format!(in alloc; "node {} {} {}", var, lo.0, hi.0),
    }
}

fn at(alloc: Global, d: &Diagrams, vars: u32, f: Ref, point: &[bool]) -> Result<String, AllocError>
    requires vars { vars ≡ d.now.store.vars }
{
    if !holds(d, f) || point.len() != vars as usize {
        return String::from_str(alloc, "no point");
    }
    digits(alloc, &[d.at(f, point)])
}

// Writes the least such point, which begins as `point` does.
fn least(d: &Diagrams, vars: u32, wanted: (Ref, bool, u32), point: &mut [bool]) -> bool
    requires vars { vars ≡ d.now.store.vars }
{
    let (f, bit, fixed) = wanted;
    holds(d, f)
        && point.len() == vars as usize
        && fixed <= vars
        && bb_quant::least(d, f, bit, fixed as usize, point)
}

// `least` takes a diagram, a bit, how many bits are given, and a point.
fn least_printed(alloc: Global, d: &Diagrams, vars: u32, call: &str) -> Result<String, AllocError>
    requires vars { vars ≡ d.now.store.vars }
{
    let mut point = bits(alloc, word(call, 4))?;
    let wanted = (Ref(number(call, 1)), number(call, 2) == 1, number(call, 3));
    let found = least(d, vars, wanted, &mut point);
    let point = digits(alloc, &point)?;
    format!(in alloc; "{} {}", found, point.as_str())
}

fn answer(alloc: Global, d: &mut Diagrams, vars: u32, call: &str) -> Result<String, AllocError>
    requires vars { vars ≡ d.old.store.vars }
    ensures vars { d.new.store.vars ≡ d.old.store.vars }
{
    let f = Ref(number(call, 1));
    match word(call, 0) {
        "len" => format!(in alloc; "{}", d.len()),
        "view" => view(alloc, d, f),
        "at" => at(alloc, d, vars, f, &bits(alloc, word(call, 2))?),
        "least" => least_printed(alloc, d, vars, call),
        _ => match diagram(d, vars, call) {
            Ok(f) => format!(in alloc; "{}", f.0),
            Err(CallFault::Full) => String::from_str(alloc, "full"),
            Err(CallFault::Missing) => String::from_str(alloc, "missing"),
            Err(CallFault::None) => String::from_str(alloc, "none"),
        },
    }
}

/// The first line has a word, the numbers of variables, nodes and results, and what the table shows. Calls run one
/// after another on one store.
pub(crate) fn rows<R: Abort>(rt: &R, alloc: Global, table: &str) -> Result<(), Fail> {
    let (head, calls) = table.split_once("\n").unwrap_or((table, ""));
    let vars = number(head, 1);
    let mut d = start(alloc, vars, number(head, 2), number(head, 3))?;
    for line in calls.lines() {
        let (call, expected) = halves(line);
        let found = answer(alloc, &mut d, vars, call)?;
        assert_eq!(rt; found.as_str(), expected, "{call}");
    }
    Ok(())
}
