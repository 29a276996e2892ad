//! Netlists are built cell by cell in topological order, so the invariant holds after each call and the whole is never
//! checked at the end. An error (want of memory) leaves the netlist as it was.

ghost use Rattle.std.specs.Prelude.{◌≡◌, ◌+◌, ◌<◌, ◌^◌, ◌∷◌, ◌++◌, [], ℕ, All, length, slice_set, vec_len, IfOk, OnOk};
ghost use Rattle.std.specs.Prelude.{OnErr};
ghost use Rattle.bb_net.specs.Netlists.{box_at, MayBeAppended, with_pin, with_cell, with_box, with_out};

use crate::{BoxPins, Cell, Net};
use bb_bits::NoMemory;

impl Net {
    /// Appends a cell and returns its place; an output pin is listed at its box too.
    ///
    /// The operands must already be there, and an output pin must be the next one of its box.
    pub fn push(&mut self, cell: Cell) -> Result<u32, NoMemory>
        requires room { length self.old.cells + 1 < 2 ^ 32 }
        requires follows { MayBeAppended self.old cell }
        ensures ok { OnOk result (self.new ≡ with_cell self.old cell) }
        ensures place { IfOk result (λ place. place ≡ length self.old.cells) }
        ensures err { OnErr result (self.new ≡ self.old) }
    {
        append(&mut self.cells, &mut self.boxes, cell)
    }

    /// Returns the box's number. Its output pins come later, as `BoxOut` cells in pin order.
    pub fn add_box(&mut self, ins: Vec<u32>) -> Result<u32, NoMemory>
        requires room { length self.old.boxes + 1 < 2 ^ 32 }
        requires there { All (λ pin. pin < length self.old.cells) ins.items }
        ensures ok { OnOk result (self.new ≡ with_box self.old ins.items) }
        ensures number { IfOk result (λ b. b ≡ length self.old.boxes) }
        ensures err { OnErr result (self.new ≡ self.old) }
    {
        let number = self.boxes.len() as u32;
        let outs = Vec::new(*ins.allocator());
        self.boxes.push(BoxPins { ins, outs })?;
        Ok(number)
    }

    /// Outputs are numbered in the order of these calls.
    pub fn add_out(&mut self, place: u32) -> Result<(), NoMemory>
        requires there { place < length self.old.cells }
        ensures ok { OnOk result (self.new ≡ with_out self.old place) }
        ensures err { OnErr result (self.new ≡ self.old) }
    {
        self.outs.push(place)?;
        Ok(())
    }
}

// Room for the cell is reserved first: after the pin is listed nothing can fail, so an error changes nothing.
fn append(cells: &mut Vec<Cell>, boxes: &mut Vec<BoxPins>, cell: Cell) -> Result<u32, NoMemory>
    requires room { vec_len cells.old + 1 < 2 ^ 32 }
    requires there { (b p : ℕ) → cell ≡ Cell.BoxOut b p → b < vec_len boxes.old }
    ensures cells { OnOk result (cells.new.items ≡ cells.old.items ++ cell ∷ []) }
    ensures boxes { OnOk result (boxes.new.items ≡ with_pin boxes.old.items (length cells.old.items) cell) }
    ensures place { IfOk result (λ place. place ≡ length cells.old.items) }
    ensures kept { OnErr result ((cells.new.items ≡ cells.old.items) × (boxes.new.items ≡ boxes.old.items)) }
{
    let place = cells.len() as u32;
    cells.try_reserve(1)?;
    if let Cell::BoxOut(b, _) = cell {
        list_pin(boxes, b, place)?;
    }
    cells.push(cell)?;
    Ok(place)
}

fn list_pin(boxes: &mut Vec<BoxPins>, b: u32, place: u32) -> Result<(), NoMemory>
    requires there { b < vec_len boxes.old }
    ensures ok { OnOk result (boxes.new.items
        ≡ slice_set boxes.old.items b (record (box_at boxes.old.items b)
        { outs = (box_at boxes.old.items b).outs ++ place ∷ [] })) }
    ensures err { OnErr result (boxes.new.items ≡ boxes.old.items) }
{
    let pins = &mut boxes[b as usize];
    pins.outs.push(place)?;
    Ok(())
}
