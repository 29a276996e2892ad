//! The nets of a checked module by their names. Both look-ups succeed, since an expression that is fit names nets of
//! its module alone.

ghost use Rattle.std.specs.Prelude.{◌≡◌, Some};
ghost use Rattle.std.specs.Map.{lookup};
ghost use Rattle.bb_bits.specs.Names.{same_name};
ghost use Rattle.bb_names.specs.Inside.Checked.{module_facts};
ghost use Rattle.bb_expr.specs.Inside.Fit.{HasNet, ranges_in};

use bb_ast::Range;
use bb_bits::Name;
use bb_names::CheckedModule;

pub(crate) fn place_of(scope: &CheckedModule, name: &Name) -> u32
    requires { HasNet (module_facts scope.now) name.now }
    ensures { lookup (same_name name.now) scope.now.index.entries ≡ Some result }
{
    scope.index.get(name).copied().unwrap()
}

pub(crate) fn range_of(scope: &CheckedModule, name: &Name) -> Option<Range>
    requires { HasNet (module_facts scope.now) name.now }
    ensures { result ≡ ranges_in (module_facts scope.now) name.now }
{
    scope.nets[place_of(scope, name) as usize].range
}
