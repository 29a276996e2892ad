//! Faults in an expression, and its own width (IEEE 1364-2005, 5.4.1) in the same walk. Widths count in 64 bits and
//! saturate: a connection is compared with a port of up to 2^32 bits, as a later module may declare one wider than any
//! net may be, so widths must be exact up to there, and nested replications pass any fixed size.
ghost use Rattle.std.specs.Prelude.{◌≡◌, ℕ, ◌+◌, ◌*◌, ◌++◌, ◌∷◌, [], ◌≤◌, ◌^◌, List, Some, None, map, sum, OnOk, IfOk};
ghost use Rattle.std.specs.List.{flat_map};
ghost use Rattle.bb_ast.specs.Syntax.{PlainModule};
ghost use Rattle.bb_ast.specs.Inside.Views.{expression, operand_view, arm_view, module_view};
ghost use Rattle.bb_names.specs.Declarations.{direction_of, range_of};
ghost use Rattle.bb_names.specs.Faults.{is_input_port, width_in};
ghost use Rattle.bb_names.specs.Inside.Firsts.{noted, noted_width, use_of, inner_sites, sites_of_part, saturated};
ghost use Rattle.bb_names.specs.Inside.Firsts.{words_width, Notes};
ghost use Rattle.bb_names.specs.Ranges.{distance, range_width};
ghost use Rattle.bb_names.specs.Sites.{Used, is_plain, sites_in};
ghost use Rattle.bb_names.specs.Widths.{greatest};

use crate::faults::found::{Found, note, note_before, note_word};
use crate::faults::roles::{Role, is_wrong_use};
use crate::faults::selects::is_wrong_select;
use crate::faults::widths::{
    bits_between, is_other_width, operator_width, wider, width_of, word_of, word_where,
};
use crate::indexed::{IndexedModule, NetFacts};
use bb_ast::{Expr, Op, WordOp};
use bb_bits::{Name, NoMemory};
use std::alloc::Global;

fn is_driven_input(of: &IndexedModule, role: Role, name: &Name, facts: NetFacts) -> bool
    requires { facts.dir ≡ direction_of (module_view of.now) name.now }
    ensures { role ≡ Role.Driven → result ≡ is_input_port (module_view of.now) name.now }
{
    role == Role::Driven && of.is_input_port(name, facts)
}

/// `bits` is none for the whole net.
pub(crate) fn look_at_name(
    of: &IndexedModule,
    role: Role,
    name: &Name,
    bits: Option<(u32, u32)>,
    found: &mut Found,
) -> Result<NetFacts, NoMemory>
    ensures noted { Notes result (module_view of.now) found.old found.new (Used (use_of role) name.now bits ∷ []) }
    ensures range { IfOk result (λ facts. facts.range ≡ range_of (module_view of.now) name.now) }
{
    let facts = of.facts(name);
    note(&mut found.unknown, !facts.known, name)?;
    note(&mut found.select, is_wrong_select(facts.range, bits), name)?;
    let input = is_driven_input(of, role, name, facts);
    note(&mut found.role, is_wrong_use(role, facts, input), name)?;
    Ok(facts)
}

fn look_at_net(
    of: &IndexedModule,
    role: Role,
    name: &Name,
    found: &mut Found,
) -> Result<u64, NoMemory>
    ensures noted { Notes result (module_view of.now) found.old found.new (Used (use_of role) name.now None ∷ []) }
    ensures width { IfOk result (λ w. w ≡ saturated (range_width (range_of (module_view of.now) name.now))) }
{
    let facts = look_at_name(of, role, name, None, found)?;
    Ok(width_of(facts.range))
}

fn look_at_bits(
    of: &IndexedModule,
    role: Role,
    name: &Name,
    i: u32,
    j: u32,
    found: &mut Found,
) -> Result<u64, NoMemory>
    ensures noted { Notes result (module_view of.now) found.old found.new (Used (use_of role) name.now (Some (i, j))
        ∷ []) }
    ensures width { IfOk result (λ w. w ≡ saturated (distance i j + 1)) }
{
    look_at_name(of, role, name, Some((i, j)), found)?;
    Ok(bits_between(i, j))
}

/// Notes the faults of an expression and of its parts. The result is its own width, at most 2^64 - 1.
#[cycle(expression)]
pub(crate) fn look(
    alloc: Global,
    of: &IndexedModule,
    role: Role,
    expr: &Expr,
    found: &mut Found,
) -> Result<u64, NoMemory>
    ensures noted { Notes result (module_view of.now) found.old found.new (sites_in (use_of role)
        (expression expr.now)) }
    ensures width { IfOk result (λ w. w ≡ saturated (width_in (module_view of.now) (expression expr.now))) }
{
    let free = found.width.is_none();
    let width = look_inside(alloc, of, role, expr, found)?;
    // The whole is left of its parts, but its width is known only after them. Only if no fault was found before this
    // expression may it replace what its parts left in the slot.
    if free {
        note_before(alloc, &mut found.width, word_of(expr, width))?;
    }
    Ok(width)
}

#[cycle(expression)]
fn look_inside(
    alloc: Global,
    of: &IndexedModule,
    role: Role,
    expr: &Expr,
    found: &mut Found,
) -> Result<u64, NoMemory>
    ensures noted { Notes result (module_view of.now) found.old found.new (inner_sites (use_of role)
        (expression expr.now)) }
    ensures width { IfOk result (λ w. w ≡ saturated (width_in (module_view of.now) (expression expr.now))) }
{
    match expr {
        Expr::Net(name) => look_at_net(of, role, name, found),
        Expr::Bit(name, i) => look_at_bits(of, role, name, *i, *i, found),
        Expr::Part(name, i, j) => look_at_bits(of, role, name, *i, *j, found),
        Expr::Sized(bits) => Ok(bits.len() as u64),
        Expr::Plain(_) => Ok(32),
        Expr::Not(_, operand) => look(alloc, of, role, operand, found),
        Expr::Fold(_, operand) => {
            look(alloc, of, role, operand, found)?;
            Ok(1)
        }
        Expr::Chain(first, rest) => {
            let width = look(alloc, of, role, first, found)?;
            Ok(wider(width, look_at_operands(alloc, of, role, rest, found)?))
        }
        Expr::Words(first, rest) => {
            let width = look(alloc, of, role, first, found)?;
            look_at_words(alloc, of, role, width, rest, found)
        }
        Expr::Cond(arms, last) => {
            let width = look_at_arms(alloc, of, role, arms, found)?;
            Ok(wider(width, look(alloc, of, role, last, found)?))
        }
        Expr::Concat(parts) => look_at_parts(alloc, of, role, parts, found),
        Expr::Repeat(count, parts) => look_at_copies(alloc, of, role, *count, parts, found),
    }
}

#[cycle(expression)]
fn look_at_operands(
    alloc: Global,
    of: &IndexedModule,
    role: Role,
    rest: &[(Op, Expr)],
    found: &mut Found,
) -> Result<u64, NoMemory>
    ensures noted { Notes result (module_view of.now) found.old found.new (flat_map
        (λ x. sites_in (use_of role) x.1) (map operand_view rest.now)) }
    ensures width { IfOk result (λ w.
        w ≡ saturated (greatest (map (λ x. width_in (module_view of.now) x.1) (map operand_view rest.now)))) }
{
    let mut width = 0;
    for (_, operand) in rest {
        width = wider(width, look(alloc, of, role, operand, found)?);
    }
    Ok(width)
}

/// One operator at a time from the left, as they group; `first` is the width of the first operand.
#[cycle(expression)]
fn look_at_words(
    alloc: Global,
    of: &IndexedModule,
    role: Role,
    first: u64,
    rest: &[(WordOp, Expr)],
    found: &mut Found,
) -> Result<u64, NoMemory>
    ensures noted { Notes result (module_view of.now) found.old found.new (flat_map
        (λ x. sites_in (use_of role) x.1) (map operand_view rest.now)) }
    ensures width { (left : ℕ) → first ≡ saturated left
        → IfOk result (λ w. w
        ≡ saturated (words_width left (map (λ x. (x.0, width_in (module_view of.now) x.1))
        (map operand_view rest.now)))) }
{
    let mut width = first;
    for (op, operand) in rest {
        let right = look(alloc, of, role, operand, found)?;
        width = operator_width(*op, width, right);
    }
    Ok(width)
}

#[cycle(expression)]
fn look_at_arms(
    alloc: Global,
    of: &IndexedModule,
    role: Role,
    arms: &[(Expr, Expr)],
    found: &mut Found,
) -> Result<u64, NoMemory>
    ensures noted { Notes result (module_view of.now) found.old found.new (flat_map
        (λ x. sites_in (use_of role) x.0 ++ sites_in (use_of role) x.1) (map arm_view arms.now)) }
    ensures width { IfOk result (λ w.
        w ≡ saturated (greatest (map (λ x. width_in (module_view of.now) x.1) (map arm_view arms.now)))) }
{
    let mut width = 0;
    for (condition, value) in arms {
        look(alloc, of, role, condition, found)?;
        width = wider(width, look(alloc, of, role, value, found)?);
    }
    Ok(width)
}

fn is_number(expr: &Expr) -> bool
    ensures { result ≡ is_plain (expression expr.now) }
{
    matches!(expr, Expr::Plain(_))
}

/// A plain number has no size of its own, so it is not allowed as a part (5.1.14).
#[cycle(expression)]
fn look_at_part(
    alloc: Global,
    of: &IndexedModule,
    role: Role,
    part: &Expr,
    found: &mut Found,
) -> Result<u64, NoMemory>
    ensures noted { Notes result (module_view of.now) found.old found.new (sites_of_part (use_of role)
        (expression part.now)) }
    ensures width { IfOk result (λ w. w ≡ saturated (width_in (module_view of.now) (expression part.now))) }
{
    note_word(alloc, &mut found.width, is_number(part), b"decimal")?;
    look(alloc, of, role, part, found)
}

#[cycle(expression)]
fn look_at_parts(
    alloc: Global,
    of: &IndexedModule,
    role: Role,
    parts: &[Expr],
    found: &mut Found,
) -> Result<u64, NoMemory>
    ensures noted { Notes result (module_view of.now) found.old found.new (flat_map (sites_of_part (use_of role))
        (map expression parts.now)) }
    ensures width { IfOk result (λ w.
        w ≡ saturated (sum (map (width_in (module_view of.now)) (map expression parts.now)))) }
{
    let mut width: u64 = 0;
    for part in parts {
        let more = look_at_part(alloc, of, role, part, found)?;
        width = width.saturating_add(more);
    }
    Ok(width)
}

#[cycle(expression)]
fn look_at_copies(
    alloc: Global,
    of: &IndexedModule,
    role: Role,
    count: u32,
    parts: &[Expr],
    found: &mut Found,
) -> Result<u64, NoMemory>
    ensures noted { Notes result (module_view of.now) found.old found.new (flat_map (sites_of_part (use_of role))
        (map expression parts.now)) }
    ensures width { IfOk result (λ w. w ≡
        saturated (count * sum (map (width_in (module_view of.now)) (map expression parts.now)))) }
{
    let width = look_at_parts(alloc, of, role, parts, found)?;
    Ok(width.saturating_mul(u64::from(count)))
}

/// As `look`, with a width that is wanted. A wrong width is a fault of the whole, so it comes before the faults of the
/// parts.
pub(crate) fn look_at_width(
    alloc: Global,
    of: &IndexedModule,
    role: Role,
    expr: &Expr,
    wanted: u64,
    word: &[u8],
    found: &mut Found,
) -> Result<(), NoMemory>
    requires small { wanted ≤ 2 ^ 32 }
    ensures noted { (text : List PlainModule)
        → OnOk result (found.new
        ≡ noted_width text (module_view of.now) found.old (width_in (module_view of.now) (expression expr.now))
        wanted word.now (sites_in (use_of role) (expression expr.now))) }
{
    let free = found.width.is_none();
    let width = look(alloc, of, role, expr, found)?;
    if free {
        note_before(
            alloc,
            &mut found.width,
            word_where(is_other_width(width, wanted), word),
        )?;
    }
    Ok(())
}
