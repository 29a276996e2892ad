//! The names of a flat netlist, indexed by their places.
//!
//! An index has for each name of a list a place at which it is, and whatever place that is, it is right. So no proof
//! needs the order of its entries, and that names differ matters only where two registers are compared.
ghost use Rattle.std.specs.Prelude.{◌≡◌, map, IfOk};
ghost use Rattle.bb_match.specs.Inside.Places.{IsIndexOf};

use crate::places::{Places, places_of};
use bb_bits::{Name, NoMemory};
use bb_net::{Flat, Reg};
use std::alloc::Global;

/// `reg_texts` has the names of the registers in their order; the others give places.
#[derive(Drop)]
pub(crate) struct Index {
    pub reg_texts: Vec<Name>,
    pub ins: Places,
    pub regs: Places,
    pub outs: Places,
}

impl Index {
    /// Moves the names out: the pair needs them once more, for its inputs.
    pub fn into_reg_texts(self) -> Vec<Name>
        ensures texts { result ≡ self.reg_texts }
    {
        self.reg_texts
    }
}

fn texts_of(alloc: Global, regs: &[Reg]) -> Result<Vec<Name>, NoMemory>
    ensures texts { IfOk result (λ texts. texts.items ≡ map (λ r. r.text) regs.now) }
{
    let mut texts = Vec::with_capacity(alloc, regs.len())?;
    for r in regs {
        texts.push(r.text.clone()?)?;
    }
    Ok(texts)
}

/// The netlist keeps its names; the index has copies to look them up.
pub(crate) fn index_of(alloc: Global, flat: &Flat) -> Result<Index, NoMemory>
    ensures index { IfOk result (λ index.
        IsIndexOf flat.now index.reg_texts.items index.ins.entries index.regs.entries index.outs.entries) }
{
    let reg_texts = texts_of(alloc, flat.regs())?;
    let ins = places_of(alloc, flat.ins())?;
    let regs = places_of(alloc, &reg_texts)?;
    let outs = places_of(alloc, flat.outs())?;
    Ok(Index {
        reg_texts,
        ins,
        regs,
        outs,
    })
}
