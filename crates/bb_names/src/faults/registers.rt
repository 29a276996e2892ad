//! Faults of registers and their clocks. A clock that is not one bit is reported by its first name, as a clock; that it
//! may also be too wide as an expression comes after it.
ghost use Rattle.std.specs.Prelude.{◌≡◌, ◌++◌, ◌∷◌, Some, None, Option, map, option_map};
ghost use Rattle.std.specs.List.{flat_map};
ghost use Rattle.bb_ast.specs.Names.{names_in};
ghost use Rattle.bb_ast.specs.Inside.Views.{expression, operand_view, arm_view, always_view, module_view};
ghost use Rattle.bb_names.specs.Inside.Firsts.{noted, first_of, register_sites, Notes};
ghost use Rattle.bb_names.specs.Sites.{Read, Clock, sites_in};

use crate::faults::expressions::{look, look_at_width};
use crate::faults::found::Found;
use crate::faults::roles::Role;
use crate::indexed::IndexedModule;
use bb_ast::{Always, Expr, Op, WordOp};
use bb_bits::{Name, NoMemory};
use std::alloc::Global;

#[cycle(first)]
fn first_name(expr: &Expr) -> Option<&Name>
    ensures { option_map (λ n. n.now) result ≡ first_of (names_in (expression expr.now)) }
{
    match expr {
        Expr::Net(name) | Expr::Bit(name, _) | Expr::Part(name, _, _) => Some(name),
        Expr::Sized(_) | Expr::Plain(_) => None,
        Expr::Not(_, operand) => first_name(operand),
        Expr::Fold(_, operand) => first_name(operand),
        Expr::Chain(first, rest) => match first_name(first) {
            Some(name) => Some(name),
            None => first_of_operands(rest),
        },
        Expr::Words(first, rest) => match first_name(first) {
            Some(name) => Some(name),
            None => first_of_words(rest),
        },
        Expr::Cond(arms, last) => match first_of_arms(arms) {
            Some(name) => Some(name),
            None => first_name(last),
        },
        Expr::Concat(parts) => first_of_parts(parts),
        Expr::Repeat(_, parts) => first_of_parts(parts),
    }
}

#[cycle(first)]
fn first_of_operands(rest: &[(Op, Expr)]) -> Option<&Name>
    ensures { option_map (λ n. n.now) result ≡ first_of (flat_map (λ x. names_in x.1) (map operand_view rest.now)) }
{
    for (_, operand) in rest {
        if let Some(name) = first_name(operand) {
            return Some(name);
        }
    }
    None
}

#[cycle(first)]
fn first_of_words(rest: &[(WordOp, Expr)]) -> Option<&Name>
    ensures { option_map (λ n. n.now) result ≡ first_of (flat_map (λ x. names_in x.1) (map operand_view rest.now)) }
{
    for (_, operand) in rest {
        if let Some(name) = first_name(operand) {
            return Some(name);
        }
    }
    None
}

#[cycle(first)]
fn first_of_arms(arms: &[(Expr, Expr)]) -> Option<&Name>
    ensures { option_map (λ n. n.now) result
        ≡ first_of (flat_map (λ x. names_in x.0 ++ names_in x.1) (map arm_view arms.now)) }
{
    for (condition, value) in arms {
        if let Some(name) = first_name(condition) {
            return Some(name);
        }
        if let Some(name) = first_name(value) {
            return Some(name);
        }
    }
    None
}

#[cycle(first)]
fn first_of_parts(parts: &[Expr]) -> Option<&Name>
    ensures { option_map (λ n. n.now) result ≡ first_of (flat_map names_in (map expression parts.now)) }
{
    for part in parts {
        if let Some(name) = first_name(part) {
            return Some(name);
        }
    }
    None
}

fn look_at_clock(
    alloc: Global,
    of: &IndexedModule,
    clock: &Expr,
    found: &mut Found,
) -> Result<(), NoMemory>
    ensures noted { Notes result (module_view of.now) found.old found.new (Clock (expression clock.now)
        ∷ sites_in Read (expression clock.now)) }
{
    let Some(name) = first_name(clock) else {
        look(alloc, of, Role::Read, clock, found)?;
        return Ok(());
    };
    look_at_width(alloc, of, Role::Read, clock, 1, name.bytes(), found)
}

pub(crate) fn look_at_register(
    alloc: Global,
    of: &IndexedModule,
    register: &Always,
    found: &mut Found,
) -> Result<(), NoMemory>
    ensures noted { Notes result (module_view of.now) found.old found.new (register_sites (always_view register.now)) }
{
    look_at_clock(alloc, of, &register.clock, found)?;
    look(alloc, of, Role::Stored, &register.left, found)?;
    look(alloc, of, Role::Read, &register.right, found)?;
    Ok(())
}
