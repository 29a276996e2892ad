//! Marks of variables in pages of 65,536, each made when it is first needed. One flat list would be as long as the
//! highest variable of a proof that may have few; with pages a high variable costs a page and, once, an empty header
//! for each page before it.

ghost use Rattle.std.specs.Prelude.{◌≡◌, ◌==◌, ◌&&◌, ◌||◌, ◌<◌, ◌≤◌, not, false, ℕ, OnOk, slice_index_or, vec_len};
ghost use Rattle.bb_cnf.specs.Inside.Marks.{bit_at, mark_at};

use crate::NoMemory;
use std::alloc::Global;

// Variables a page, so a page takes 64 KiB.
const PAGE: u32 = 65536;

fn bit(page: &[bool], place: usize) -> bool
    ensures { result ≡ bit_at page.now place }
{
    place < page.len() && page[place]
}

// New places have no mark.
fn widen(page: &mut Vec<bool>, size: usize) -> Result<(), NoMemory>
    ensures room { OnOk result (size ≤ vec_len page.new) }
    ensures same { OnOk result ((k : ℕ) → bit_at page.new.items k ≡ bit_at page.old.items k) }
{
    if page.len() < size {
        page.resize(size, false)?;
    }
    Ok(())
}

fn set_bit(page: &mut Vec<bool>, place: usize) -> Result<(), NoMemory>
    requires { place < 65536 }
    ensures { OnOk result ((k : ℕ) → bit_at page.new.items k ≡ (bit_at page.old.items k || k == place)) }
{
    widen(page, PAGE as usize)?;
    page[place] = true;
    Ok(())
}

fn clear_bit(page: &mut Vec<bool>, place: usize)
    ensures { (k : ℕ) → bit_at page.new.items k ≡ (bit_at page.old.items k && not (k == place)) }
{
    if place < page.len() {
        page[place] = false;
    }
}

/// A variable beyond the pages has no mark.
pub(crate) fn mark(pages: &[Vec<bool>], var: u32) -> bool
    ensures { result ≡ mark_at pages.now var }
{
    match pages.get((var / PAGE) as usize) {
        Some(page) => bit(page, (var % PAGE) as usize),
        None => false,
    }
}

fn make_pages(alloc: Global, pages: &mut Vec<Vec<bool>>, place: usize) -> Result<(), NoMemory>
    ensures room { OnOk result (place < vec_len pages.new) }
    ensures same { OnOk result ((x : ℕ) → mark_at pages.new.items x ≡ mark_at pages.old.items x) }
{
    while pages.len() <= place {
        pages.push(Vec::new(alloc))?;
    }
    Ok(())
}

pub(crate) fn set_mark(alloc: Global, pages: &mut Vec<Vec<bool>>, var: u32) -> Result<(), NoMemory>
    ensures { OnOk result ((x : ℕ) → mark_at pages.new.items x ≡ (mark_at pages.old.items x || x == var)) }
{
    let place = (var / PAGE) as usize;
    make_pages(alloc, pages, place)?;
    set_bit(&mut pages[place], (var % PAGE) as usize)?;
    Ok(())
}

/// Pages are kept, so the next step finds them.
pub(crate) fn clear_mark(pages: &mut Vec<Vec<bool>>, var: u32)
    ensures { (x : ℕ) → mark_at pages.new.items x ≡ (mark_at pages.old.items x && not (x == var)) }
{
    let place = (var / PAGE) as usize;
    if place < pages.len() {
        clear_bit(&mut pages[place], (var % PAGE) as usize);
    }
}
