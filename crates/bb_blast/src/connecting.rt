//! A port connection is an assignment between two scopes: into the bits of an input port, out of those of an output
//! port.

ghost use Rattle.std.specs.Prelude.{◌≡◌, ◌<◌, ℕ, List, All, None, map, option_to_list, Some, IfOk, IfSome};
ghost use Rattle.bb_ast.specs.Inside.Views.{optional_view};
ghost use Rattle.bb_names.specs.Inside.Checked.{module_facts, syntax, HasNets};
ghost use Rattle.bb_names.specs.Declarations.{port_direction};
ghost use Rattle.bb_names.specs.Sites.{pin_named};
ghost use Rattle.bb_expr.specs.Inside.Fit.{HasNet};
ghost use Rattle.bb_design.specs.Constructs.{connection, connections};
ghost use Rattle.bb_design.specs.Hierarchy.{Instance};
ghost use Rattle.bb_blast.specs.Inside.BitBlasting.{IsStartedModule, IsCallAt, module_in, ArePartsIn, IsMakeableIn};

use crate::expression_steps::{logic_alone, scope_at};
use crate::left_bits::{left_bits, net_bits};
use crate::module_context::{InstanceContext, ModuleContext};
use crate::template::Part;
use bb_ast::{Dir, Expr};
use bb_bits::{Name, NoMemory};
use bb_design::laws::laws_of_designs;
use bb_names::CheckedModule;
use std::alloc::Global;

fn port_direction(scope: &CheckedModule, name: &Name) -> Option<Dir>
    requires nets { HasNets (module_facts scope.now) }
    ensures direction { result ≡ port_direction (syntax (module_facts scope.now)) name.now }
    ensures has { IfSome result (λ dir. HasNet (module_facts scope.now) name.now) }
{
    laws_of_designs();
    match scope.index.get(name) {
        Some(place) => scope.nets[*place as usize].port,
        None => None,
    }
}

/// None where the place is left open, or the name is not that of a port with a direction.
pub(crate) fn connected(
    alloc: Global,
    context: ModuleContext<'_>,
    inner: InstanceContext<'_>,
    port: &Name,
    place: &Option<Expr>,
) -> Result<Option<Part>, NoMemory>
    requires own { IsStartedModule context.checked.now context.«module» context.starts.now }
    requires target { IsStartedModule context.checked.now inner.target inner.starts.now }
    requires makeable { (i : List ℕ)
        × All (IsMakeableIn context) (connection i
        (pin_named (module_in context.checked.now inner.target) port.now) (optional_view place.now)) }
    ensures part { (called : Instance)
        → IsCallAt context.entry.checked.now context.entry.«module» inner.entry.instance inner.entry.target called
        → IfOk result (λ part. ArePartsIn context.entry
        (option_to_list part)
        (connection called.name (pin_named (module_in context.entry.checked.now inner.entry.target) port.now)
        (optional_view place.now))) }
{
    let Some(expr) = place else {
        return Ok(None);
    };
    let scope = scope_at(context.checked, inner.target);
    let Some(dir) = port_direction(scope, port) else {
        return Ok(None);
    };
    let pin = net_bits(alloc, scope, inner.starts, port)?;
    match dir {
        Dir::Input => {
            let value = logic_alone(alloc, context, expr)?;
            Ok(Some(Part::Input {
                instance: inner.instance,
                pin,
                value,
            }))
        }
        Dir::Output => {
            let scope = scope_at(context.checked, context.module);
            let left = left_bits(alloc, scope, context.starts, expr)?;
            Ok(Some(Part::Output {
                instance: inner.instance,
                pin,
                left,
            }))
        }
    }
}
