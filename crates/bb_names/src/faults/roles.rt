//! Roles: what is not allowed at its place. An input port is a name of the header: what has an input direction and is
//! in no header is at fault at its direction, and not at a `reg` of the same name.
ghost use Rattle.std.specs.Prelude.{◌≡◌, ◌&&◌, ◌||◌, not, is_some, ℕ, List, Option, map};
ghost use Rattle.std.specs.List.{list_all};
ghost use Rattle.bb_ast.specs.Inside.Views.{expression};
ghost use Rattle.bb_ast.specs.Assignable.{is_assignable};
ghost use Rattle.bb_ast.specs.Syntax.{PlainModule};
ghost use Rattle.bb_names.specs.Declarations.{Declaration, kind_of, is_instance, is_port};
ghost use Rattle.bb_names.specs.Faults.{reported_if, declares_reg, declares_supply, is_supply, is_input_port};
ghost use Rattle.bb_names.specs.Faults.{wrong_role};
ghost use Rattle.bb_names.specs.Inside.Firsts.{use_of};
ghost use Rattle.bb_names.specs.Sites.{Used, Declared};
ghost use Rattle.bb_names.specs.Inside.Summaries.{named};

use crate::indexed::NetFacts;
use crate::net::NetKind;
use crate::summary::DeclaredAs;
use bb_ast::Expr;

#[derive(Clone, Copy, PartialEq, Eq)]
pub(crate) enum Role {
    Read,
    /// On the left of `assign`, a wire with an assignment, an output of a gate, or connected to an output port.
    Driven,
    /// On the left of `<=`. This drives nothing: an input port or a supply net that is declared `reg` is at fault at
    /// its declaration, so only what is no `reg` is at fault here.
    Stored,
}

/// `input` says whether it is an input port; it counts for `Driven` alone.
pub(crate) fn is_wrong_use(role: Role, facts: NetFacts, input: bool) -> bool
    ensures { (m : PlainModule) (n : List ℕ) (bits : Option (ℕ × ℕ)) (text : List PlainModule)
        → facts.kind ≡ kind_of m n → facts.instance ≡ is_instance m n
        → (role ≡ Role.Driven → input ≡ is_input_port m n)
        → wrong_role text m (Used (use_of role) n bits) ≡ reported_if result n }
{
    if facts.instance {
        return true;
    }
    match role {
        Role::Read => false,
        Role::Driven => input || facts.kind != NetKind::Wire,
        Role::Stored => facts.kind != NetKind::Reg,
    }
}

fn is_wrong_register(d: DeclaredAs, kind: NetKind, input: bool) -> bool
    ensures { (n : List ℕ) → result ≡ (declares_reg (named n d) && (input || is_supply kind)) }
{
    if d.kind != Some(NetKind::Reg) {
        return false;
    }
    input || matches!(kind, NetKind::Zero | NetKind::One)
}

fn is_wrong_supply(d: DeclaredAs, port: bool) -> bool
    ensures { (n : List ℕ) → result ≡ (declares_supply (named n d) && port) }
{
    d.is_supply() && port
}

fn is_wrong_direction(d: DeclaredAs, port: bool) -> bool
    ensures { result ≡ (is_some d.dir && not port) }
{
    d.dir.is_some() && !port
}

pub(crate) fn is_wrong_declaration(d: DeclaredAs, kind: NetKind, port: bool, input: bool) -> bool
    ensures { (m : PlainModule) (n : List ℕ) (before : List Declaration) (text : List PlainModule)
        → kind ≡ kind_of m n → port ≡ is_port m n → input ≡ is_input_port m n
        → wrong_role text m (Declared before (named n d)) ≡ reported_if result n }
{
    if is_wrong_register(d, kind, input) || is_wrong_supply(d, port) {
        return true;
    }
    is_wrong_direction(d, port)
}

/// Connections and terminals are read as expressions, so the grammar does not restrict them to what may be assigned.
#[cycle(written)]
pub(crate) fn may_be_written(expr: &Expr) -> bool
    ensures { result ≡ is_assignable (expression expr.now) }
{
    match expr {
        Expr::Net(_) | Expr::Bit(..) | Expr::Part(..) => true,
        Expr::Concat(parts) => may_all_be_written(parts),
        _ => false,
    }
}

#[cycle(written)]
fn may_all_be_written(parts: &[Expr]) -> bool
    ensures { result ≡ list_all is_assignable (map expression parts.now) }
{
    for part in parts {
        if !may_be_written(part) {
            return false;
        }
    }
    true
}
