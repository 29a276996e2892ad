//! Ports as an instance sees them: only those with a direction. A connection by name to anything else is unknown, and
//! one by order is checked as an expression alone.
ghost use Rattle.std.specs.Prelude.{◌≡◌, ◌≤◌, ◌^◌, Some, Option, option_map, IfSome};
ghost use Rattle.std.specs.Option.{option_and_then};
ghost use Rattle.bb_ast.specs.Inside.Views.{module_view};
ghost use Rattle.bb_names.specs.Sites.{pin_named, pin_at};

use crate::faults::widths::width_of;
use crate::indexed::IndexedModule;
use bb_ast::Dir;
use bb_bits::Name;

/// `width` is in bits, at most 2^32: a later module may declare a port wider than any net may be.
#[derive(Clone, Copy)]
pub(crate) struct Pin<'a> {
    pub name: &'a Name,
    pub dir: Dir,
    pub width: u64,
}

fn pin_of<'a>(target: &IndexedModule, name: &'a Name) -> Option<Pin<'a>>
    ensures pin { option_map (λ p. record { name = p.name.now; dir = p.dir; width = p.width }) result
        ≡ pin_named (module_view target.now) name.now }
    ensures small { IfSome result (λ pin. pin.width ≤ 2 ^ 32) }
{
    match target.port_direction(name) {
        Some(dir) => Some(Pin {
            name,
            dir,
            width: width_of(target.facts(name).range),
        }),
        None => None,
    }
}

pub(crate) fn pin_by_name<'a>(target: Option<&IndexedModule>, name: &'a Name) -> Option<Pin<'a>>
    ensures pin { option_map (λ p. record { name = p.name.now; dir = p.dir; width = p.width }) result
        ≡ option_and_then (λ m. pin_named m name.now) (option_map (λ t. module_view t.now) target.entry) }
    ensures small { IfSome result (λ pin. pin.width ≤ 2 ^ 32) }
{
    match target {
        Some(target) => pin_of(target, name),
        None => None,
    }
}

fn pin_in<'a>(target: &'a IndexedModule, place: usize) -> Option<Pin<'a>>
    ensures pin { option_map (λ p. record { name = p.name.now; dir = p.dir; width = p.width }) result
        ≡ pin_at (module_view target.now) place }
    ensures small { IfSome result (λ pin. pin.width ≤ 2 ^ 32) }
{
    match target.module().heads.get(place) {
        Some(head) => pin_of(target, &head.name),
        None => None,
    }
}

pub(crate) fn pin_by_place<'a>(target: Option<&'a IndexedModule>, place: usize) -> Option<Pin<'a>>
    ensures pin { option_map (λ p. record { name = p.name.now; dir = p.dir; width = p.width }) result
        ≡ option_and_then (λ m. pin_at m place) (option_map (λ t. module_view t.now) target.entry) }
    ensures small { IfSome result (λ pin. pin.width ≤ 2 ^ 32) }
{
    match target {
        Some(target) => pin_in(target, place),
        None => None,
    }
}
