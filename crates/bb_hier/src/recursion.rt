//! Modules that instantiate themselves, directly or through others.
//!
//! A module is taken as a black box that reads the modules that it instantiates. Then a recursion is a combinational
//! loop, and levelization (`bb_net::order`) finds it in linear time without a search of its own to prove. Each module
//! has one box with one output.

ghost use Rattle.std.specs.Prelude.{◌≡◌, ◌+◌, ◌<◌, ◌^◌, ◌||◌, ◌==◌, ◌∷◌, [], false, true, ℕ, All, Some, length, map};
ghost use Rattle.std.specs.Prelude.{slice_get, if◌then◌else◌, IfOk, IfSome, IfNone};
ghost use Rattle.std.specs.List.{enumerate_from, range_with_len};
ghost use Rattle.bb_net.specs.declared.loose.LooseCell.TheVariants.{Const, BoxOut};
ghost use Rattle.bb_net.specs.Values.{bit_of};
ghost use Rattle.bb_ast.specs.Syntax.{PlainModule};
ghost use Rattle.bb_names.specs.Inside.Checked.{syntax};
ghost use Rattle.bb_design.specs.Inside.Callees.{callees};
ghost use Rattle.bb_design.specs.Refusals.{IsReportedOfDesign, IsAbsentInDesign, Recursion, design_on};
ghost use Rattle.bb_hier.specs.Inside.Recursions.{module_pins, module_list, kept_lists, ArePlacesThere, IsRecursiveAt};
ghost use Rattle.bb_hier.specs.Inside.Recursions.{IsFirstRecursive};

use bb_bits::{Name, NoMemory};
use bb_design::laws::laws_of_designs;
use bb_names::Checked;
use bb_net::{BoxPins, Loose, LooseCell, NetFault, dependences, order, order_has_no_walk};
use std::alloc::Global;

// Module `k` is the cell `k + 2`, after the two constants.
fn module_pins(alloc: Global, place: usize, called: &[usize]) -> Result<BoxPins, NoMemory>
    requires place { place + 2 < 2 ^ 32 }
    requires called { All (λ k. k + 2 < 2 ^ 32) called.now }
    ensures pins { IfOk result (λ pins. pins ≡ module_pins (place, called.now)) }
{
    let mut ins = Vec::with_capacity(alloc, called.len())?;
    for k in called {
        ins.push(*k as u32 + 2)?;
    }
    let outs = vec![in alloc; place as u32 + 2; 1]?;
    Ok(BoxPins::of(ins, outs))
}

fn module_boxes(alloc: Global, callees: &[Vec<usize>]) -> Result<Vec<BoxPins>, NoMemory>
    requires there { ArePlacesThere (map (λ list. list.items) callees.now) }
    ensures boxes { IfOk result (λ boxes.
        boxes.items ≡ map module_pins (enumerate_from 0 (map (λ list. list.items) callees.now))) }
{
    let mut boxes = Vec::with_capacity(alloc, callees.len())?;
    for (place, called) in callees.iter().enumerate() {
        boxes.push(module_pins(alloc, place, called)?)?;
    }
    Ok(boxes)
}

fn module_cells(alloc: Global, count: usize) -> Result<Vec<LooseCell>, NoMemory>
    requires few { count + 2 < 2 ^ 32 }
    ensures cells { IfOk result (λ cells.
        cells.items ≡ Const false ∷ Const true ∷ map (λ k. BoxOut k 0) (range_with_len 0 count)) }
{
    let mut cells = Vec::with_capacity(alloc, count + 2)?;
    cells.push(LooseCell::Const(false))?;
    cells.push(LooseCell::Const(true))?;
    for k in 0..count {
        cells.push(LooseCell::BoxOut(k as u32, 0))?;
    }
    Ok(cells)
}

fn modules_as_cells(alloc: Global, callees: &[Vec<usize>]) -> Result<Loose, NoMemory>
    requires there { ArePlacesThere (map (λ list. list.items) callees.now) }
    ensures list { IfOk result (λ l. l ≡ module_list (map (λ list. list.items) callees.now)) }
{
    let cells = module_cells(alloc, callees.len())?;
    let boxes = module_boxes(alloc, callees)?;
    Ok(Loose::of(0, cells, boxes, Vec::new(alloc)))
}

// Entry `k + 2` of the marks is that of module `k`.
fn is_kept(place: usize, top: usize, marks: &[bool]) -> bool
    requires there { place + 2 < length marks.now }
    ensures { result ≡ (place == top || bit_of marks.now (place + 2)) }
{
    place == top || marks[place + 2]
}

fn keep_or_clear(list: &mut Vec<usize>, keep: bool)
    ensures kept { list.new.items ≡ (if keep then list.old.items else []) }
{
    if !keep {
        list.clear();
    }
}

fn forget_unmarked(callees: &mut [Vec<usize>], top: usize, marks: &[bool])
    requires marks { length marks.now ≡ length callees.old + 2 }
    ensures kept { map (λ list. list.items) callees.new
        ≡ kept_lists top marks.now (map (λ list. list.items) callees.old) }
{
    for k in 0..callees.len() {
        keep_or_clear(&mut callees[k], is_kept(k, top, marks));
    }
}

/// A recursion that the top does not reach is no fault of the design, so the lists of these modules are emptied first.
/// The result is the first module in text order on a loop, since loops are reported by their least place.
pub(crate) fn first_recursive(
    alloc: Global,
    callees: &mut [Vec<usize>],
    top: usize,
) -> Result<Option<usize>, NoMemory>
    requires there { ArePlacesThere (map (λ list. list.items) callees.old) }
    requires top { top < length callees.old }
    ensures some { IfOk result (λ found. IfSome found (IsFirstRecursive (map (λ list. list.items) callees.old) top)) }
    ensures none { IfOk result (λ found.
        IfNone found ((k : ℕ) → IsRecursiveAt (map (λ list. list.items) callees.old) top k → ⊥)) }
{
    let marks = dependences(&modules_as_cells(alloc, callees)?, top as u32 + 2)?;
    forget_unmarked(callees, top, &marks);
    let list = modules_as_cells(alloc, callees)?;
    match order(&list) {
        Ok(_ordered) => {
            order_has_no_walk();
            Ok(None)
        }
        Err(NetFault::Loop { place }) => Ok(Some(place as usize - 2)),
        Err(NetFault::NoMemory) => Err(NoMemory),
    }
}

/// Empties the lists of the modules that the top does not reach.
pub(crate) fn recursive_module(
    alloc: Global,
    checked: &Checked,
    called: &mut [Vec<usize>],
    top: usize,
) -> Result<Option<Name>, NoMemory>
    requires called { map (λ list. list.items) called.old
        ≡ map (callees (map syntax checked.now)) (map syntax checked.now) }
    requires top { top < length checked.now }
    ensures some { IfOk result (λ found. IfSome found (λ n. (t : PlainModule)
        → slice_get (map syntax checked.now) top ≡ Some t
        → IsReportedOfDesign (design_on (map syntax checked.now) t) Recursion n)) }
    ensures none { IfOk result (λ found. IfNone found ((t : PlainModule)
        → slice_get (map syntax checked.now) top ≡ Some t
        → IsAbsentInDesign (design_on (map syntax checked.now) t) Recursion)) }
{
    laws_of_designs();
    let modules = checked.modules();
    match first_recursive(alloc, called, top)? {
        Some(place) => Ok(Some(modules[place].module.name.clone()?)),
        None => Ok(None),
    }
}
