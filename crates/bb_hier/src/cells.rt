//! How many cells the constructs of a module make, before anything is lowered: a short text may have operators of
//! millions of cells, and is refused before they take memory. Sums saturate at 2^64 - 1.

ghost use Rattle.std.specs.Prelude.{◌≡◌, ◌≤◌, ◌∷◌, [], map, min, sum_by, option_to_list, All, IfSome};
ghost use Rattle.std.specs.List.{flat_map};
ghost use Rattle.bb_ast.specs.Gates.{output_count};
ghost use Rattle.bb_ast.specs.Inside.Views.{expression, optional_view, named_view, arm_view, gate_view, conns_view};
ghost use Rattle.bb_ast.specs.Inside.Views.{call_view, body_view, item_view};
ghost use Rattle.bb_names.specs.Ranges.{range_width};
ghost use Rattle.bb_names.specs.Widths.{own_width};
ghost use Rattle.bb_expr.specs.Inside.Shares.{capped, own_cells};
ghost use Rattle.bb_expr.specs.Inside.Occurrences.{OccursAt, ranges_at, conns_expressions, item_expressions};
ghost use Rattle.bb_design.specs.GateFunctions.{inverts};
ghost use Rattle.bb_hier.specs.Inside.Weights.{assigned_cells, initial_cells, assignment_cells, inputs_of, inversions};
ghost use Rattle.bb_hier.specs.Inside.Weights.{gate_weight, item_cells, IsNarrowNet, AreNarrowNets};

use crate::register_bits::width_of;
use bb_ast::{Body, Call, Conns, Expr, Gate, GateCall, Item};
use bb_bits::Name;
use bb_expr::laws::occurrences_are_fit;
use bb_expr::{cells, own_width};
use bb_names::Checked;

// Gate inputs and port connections are lowered at their own width.
fn own_cells(checked: &Checked, place: u32, expr: &Expr) -> u64
    requires occurs { OccursAt checked.now place (expression expr.now) }
    ensures cells { result ≡ capped (own_cells (ranges_at checked.now place) (expression expr.now)) }
{
    occurrences_are_fit();
    let _modules = checked.modules();
    cells(checked, place, expr, own_width(checked, place, expr))
}

// At the wider of both widths, as it is lowered (IEEE 1364-2005, 5.4.1).
fn assigned_cells(checked: &Checked, place: u32, left: u32, right: &Expr) -> u64
    requires occurs { OccursAt checked.now place (expression right.now) }
    requires left { left ≤ 65536 }
    ensures cells { result ≡ capped (assigned_cells (ranges_at checked.now place) left (expression right.now)) }
{
    occurrences_are_fit();
    let _modules = checked.modules();
    let width = left.max(own_width(checked, place, right));
    cells(checked, place, right, width)
}

fn net_width(checked: &Checked, place: u32, name: &Name) -> u32
    requires narrow { IsNarrowNet checked.now place name.now }
    ensures width { result ≡ range_width (ranges_at checked.now place name.now) }
    ensures narrow { result ≤ 65536 }
{
    let scope = &checked.modules()[place as usize];
    let net = scope.index.get(name).copied().unwrap();
    width_of(scope.nets[net as usize].range) as u32
}

fn initial_cells(checked: &Checked, place: u32, name: &Name, value: &Option<Expr>) -> u64
    requires occurs { All (OccursAt checked.now place) (option_to_list (optional_view value.now)) }
    requires narrow { IfSome (optional_view value.now) (λ e. IsNarrowNet checked.now place name.now) }
    ensures cells { result ≡ capped (initial_cells (ranges_at checked.now place) (name.now, optional_view value.now)) }
{
    match value {
        Some(value) => assigned_cells(checked, place, net_width(checked, place, name), value),
        None => 0,
    }
}

fn wire_cells(checked: &Checked, place: u32, nets: &[(Name, Option<Expr>)]) -> u64
    requires occurs { All (OccursAt checked.now place) (flat_map (λ x. option_to_list x.1) (map named_view nets.now)) }
    requires narrow { All (λ x. IfSome x.1 (λ e. IsNarrowNet checked.now place x.0)) (map named_view nets.now) }
    ensures cells { result ≡ capped (sum_by (initial_cells (ranges_at checked.now place)) (map named_view nets.now)) }
{
    let mut total = 0u64;
    for (name, value) in nets {
        total = total.saturating_add(initial_cells(checked, place, name, value));
    }
    total
}

fn assignment_cells(checked: &Checked, place: u32, left: &Expr, right: &Expr) -> u64
    requires left { OccursAt checked.now place (expression left.now) }
    requires right { OccursAt checked.now place (expression right.now) }
    ensures cells { result
        ≡ capped (assignment_cells (ranges_at checked.now place) (expression left.now, expression right.now)) }
{
    occurrences_are_fit();
    let _modules = checked.modules();
    assigned_cells(checked, place, own_width(checked, place, left), right)
}

fn assignments_cells(checked: &Checked, place: u32, all: &[(Expr, Expr)]) -> u64
    requires occurs { All (OccursAt checked.now place) (flat_map (λ x. x.0 ∷ x.1 ∷ []) (map arm_view all.now)) }
    ensures cells { result ≡ capped (sum_by (assignment_cells (ranges_at checked.now place)) (map arm_view all.now)) }
{
    let mut total = 0u64;
    for (left, right) in all {
        total = total.saturating_add(assignment_cells(checked, place, left, right));
    }
    total
}

fn all_cells(checked: &Checked, place: u32, all: &[Expr]) -> u64
    requires occurs { All (OccursAt checked.now place) (map expression all.now) }
    ensures cells { result ≡ capped (sum_by (own_cells (ranges_at checked.now place)) (map expression all.now)) }
{
    let mut total = 0u64;
    for expr in all {
        total = total.saturating_add(own_cells(checked, place, expr));
    }
    total
}

// The outputs come first: all but the last terminal of `buf` and `not`, one of any other gate (IEEE 1364-2005, 7.2 and
// 7.3).
fn outputs_among(gate: Gate, count: usize) -> usize
    ensures outputs { result ≡ min (output_count gate count) count }
{
    if count == 0 {
        return 0;
    }
    match gate {
        Gate::Buf | Gate::Not => count - 1,
        _ => 1,
    }
}

fn inputs_of(gate: Gate, terms: &[Expr]) -> &[Expr]
    ensures inputs { map expression result.now ≡ inputs_of gate (map expression terms.now) }
{
    &terms[outputs_among(gate, terms.len())..]
}

// One complement, after the inputs are joined.
fn inversions(gate: Gate) -> u64
    ensures inversions { result ≡ inversions gate }
{
    match gate {
        Gate::Nand | Gate::Nor | Gate::Xnor | Gate::Not => 1,
        _ => 0,
    }
}

// One cell for each input but the first, and one where the gate inverts.
fn gate_cells(checked: &Checked, place: u32, gate: Gate, terms: &[Expr]) -> u64
    requires occurs { All (OccursAt checked.now place) (map expression terms.now) }
    ensures cells { result ≡ capped (gate_weight (ranges_at checked.now place) gate (map expression terms.now)) }
{
    let inputs = inputs_of(gate, terms);
    let joined = inputs.len().saturating_sub(1) as u64;
    all_cells(checked, place, inputs)
        .saturating_add(joined)
        .saturating_add(inversions(gate))
}

fn gates_cells(checked: &Checked, place: u32, gate: Gate, all: &[GateCall]) -> u64
    requires occurs { All (OccursAt checked.now place) (flat_map (λ x. x.1) (map gate_view all.now)) }
    ensures cells { result
        ≡ capped (sum_by (λ x. gate_weight (ranges_at checked.now place) gate x.1) (map gate_view all.now)) }
{
    let mut total = 0u64;
    for call in all {
        total = total.saturating_add(gate_cells(checked, place, gate, call.terms.as_slice()));
    }
    total
}

fn connected_cells(checked: &Checked, place: u32, value: &Option<Expr>) -> u64
    requires occurs { All (OccursAt checked.now place) (option_to_list (optional_view value.now)) }
    ensures cells { result
        ≡ capped (sum_by (own_cells (ranges_at checked.now place)) (option_to_list (optional_view value.now))) }
{
    match value {
        Some(value) => own_cells(checked, place, value),
        None => 0,
    }
}

fn ordered_cells(checked: &Checked, place: u32, all: &[Option<Expr>]) -> u64
    requires occurs { All (OccursAt checked.now place) (flat_map option_to_list (map optional_view all.now)) }
    ensures cells { result
        ≡ capped (sum_by (own_cells (ranges_at checked.now place)) (flat_map option_to_list
        (map optional_view all.now))) }
{
    let mut total = 0u64;
    for value in all {
        total = total.saturating_add(connected_cells(checked, place, value));
    }
    total
}

fn named_cells(checked: &Checked, place: u32, all: &[(Name, Option<Expr>)]) -> u64
    requires occurs { All (OccursAt checked.now place) (flat_map (λ x. option_to_list x.1) (map named_view all.now)) }
    ensures cells { result
        ≡ capped (sum_by (own_cells (ranges_at checked.now place)) (flat_map (λ x. option_to_list x.1)
        (map named_view all.now))) }
{
    let mut total = 0u64;
    for (_, value) in all {
        total = total.saturating_add(connected_cells(checked, place, value));
    }
    total
}

// An output port counts as what is connected to it, a left side, which makes no cell.
fn connection_cells(checked: &Checked, place: u32, conns: &Conns) -> u64
    requires occurs { All (OccursAt checked.now place) (conns_expressions (conns_view conns.now)) }
    ensures cells { result
        ≡ capped (sum_by (own_cells (ranges_at checked.now place)) (conns_expressions (conns_view conns.now))) }
{
    match conns {
        Conns::Order(all) => ordered_cells(checked, place, all),
        Conns::Named(all) => named_cells(checked, place, all),
    }
}

fn call_cells(checked: &Checked, place: u32, calls: &[Call]) -> u64
    requires occurs { All (OccursAt checked.now place) (flat_map (λ x. conns_expressions x.1)
        (map call_view calls.now)) }
    ensures cells { result
        ≡ capped (sum_by (λ x. sum_by (own_cells (ranges_at checked.now place)) (conns_expressions x.1))
        (map call_view calls.now)) }
{
    let mut total = 0u64;
    for call in calls {
        total = total.saturating_add(connection_cells(checked, place, &call.conns));
    }
    total
}

fn item_cells(checked: &Checked, place: u32, body: &Body) -> u64
    requires occurs { All (OccursAt checked.now place) (item_expressions (body_view body.now)) }
    requires narrow { AreNarrowNets checked.now place (body_view body.now) }
    ensures cells { result ≡ capped (item_cells (ranges_at checked.now place) (body_view body.now)) }
{
    match body {
        Body::Nets(_, nets) => wire_cells(checked, place, nets),
        Body::Assign(all) => assignments_cells(checked, place, all),
        Body::Gates(gate, all) => gates_cells(checked, place, *gate, all),
        Body::Calls(_, calls) => call_cells(checked, place, calls),
        Body::Always(r) => assignment_cells(checked, place, &r.left, &r.right),
        Body::Ports(_, _) | Body::Regs(_, _) | Body::Supply(_, _, _) => 0,
    }
}

/// Saturates at 2^64 - 1.
pub(crate) fn items_cells(checked: &Checked, place: u32, items: &[Item]) -> u64
    requires occurs { All (OccursAt checked.now place) (flat_map (λ item. item_expressions item.body)
        (map item_view items.now)) }
    requires narrow { All (λ item. AreNarrowNets checked.now place item.body) (map item_view items.now) }
    ensures cells { result
        ≡ capped (sum_by (λ item. item_cells (ranges_at checked.now place) item.body) (map item_view items.now)) }
{
    let mut total = 0u64;
    for item in items {
        total = total.saturating_add(item_cells(checked, place, &item.body));
    }
    total
}
