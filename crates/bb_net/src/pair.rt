//! A specification and an implementation side by side, which is what every check is given.
//!
//! Both have the same inputs and outputs in the same order, so checks compare by position and look up no name. A pair
//! owns its netlists: cells and names are moved into it and not copied.

ghost use Rattle.std.specs.Prelude.{◌≡◌, List};
ghost use Rattle.bb_net.specs.Pairs.{NetPair, BoxTexts, AreBeside, AreSmall, IsPair, box_key};

use crate::Net;
use bb_bits::{Name, NoMemory};
use std::marker::Model;

/// A top output, or (`next`) the register bit whose next state the output is: registers are cut, and their present
/// states are inputs.
#[derive(Debug, Drop)]
pub struct OutName {
    pub next: bool,
    pub text: Name,
}

/// The module is kept because with shared contents boxes of one module hold one table. The names of pins are in pin
/// order.
#[derive(Debug, Drop)]
pub struct BoxName {
    path: Name,
    module: Name,
    ins: Vec<Name>,
    outs: Vec<Name>,
}

impl Model for BoxName {
    ghost use Rattle.bb_net.specs.Pairs.{BoxTexts};

    ghost Value = { BoxTexts };

    ghost view = { λ b. record { path = b.path; «module» = b.module; ins = b.ins.items; outs = b.outs.items } };
}

impl Clone for BoxName {
    ghost is_clone = { λ name copy. copy ≡ name };

    fn clone(&self) -> Result<BoxName, NoMemory> {
        Ok(BoxName {
            path: self.path.clone()?,
            module: self.module.clone()?,
            ins: Vec::from_clones(*self.ins.allocator(), &self.ins)?,
            outs: Vec::from_clones(*self.outs.allocator(), &self.outs)?,
        })
    }
}

impl BoxName {
    /// Nothing is checked here: `Flat` and `Pair` keep that there is one name for each pin.
    pub fn of(path: Name, module: Name, ins: Vec<Name>, outs: Vec<Name>) -> BoxName
        ensures name { result ≡ record { path = path; «module» = «module»; ins = ins.items; outs = outs.items } }
    {
        BoxName {
            path,
            module,
            ins,
            outs,
        }
    }

    /// The instance names from the top to the box, joined by dots.
    pub fn path(&self) -> &Name
        ensures path { result.now ≡ self.now.path }
    {
        &self.path
    }

    /// Identifies contents that are shared: a text has one module of a name, and the language has no parameters.
    pub fn module(&self) -> &Name
        ensures module { result.now ≡ self.now.module }
    {
        &self.module
    }

    /// What a report calls the contents: the module where boxes of one module share them, else the path.
    pub fn key(&self, shared: bool) -> &Name
        ensures key { result.now ≡ box_key shared self.now }
    {
        if shared { &self.module } else { &self.path }
    }

    /// In pin order, as the places of `BoxPins::ins`.
    pub fn ins(&self) -> &[Name]
        ensures ins { result.now ≡ self.now.ins }
    {
        &self.ins
    }

    /// In pin order, as the places of `BoxPins::outs`.
    pub fn outs(&self) -> &[Name]
        ensures outs { result.now ≡ self.now.outs }
    {
        &self.outs
    }
}

/// A specification without boxes and an implementation, over the same inputs and with as many outputs.
///
/// Names and sharing classes (`kinds`) are in the order of what they belong to. Boxes of one class hold one table;
/// classes are numbered from 0 in the order in which they first appear. Each net has at most 8,000,000 cells, 2,000,000
/// outputs and 1,000,000 boxes, so a class is a number of 32 bits. Inputs and box pins are at most 2,048 together.
#[derive(Debug, Drop)]
pub struct Pair {
    spec: Net,
    imp: Net,
    ins: Vec<Name>,
    outs: Vec<OutName>,
    boxes: Vec<BoxName>,
    kinds: Vec<u32>,
}

impl Model for Pair {
    ghost use Rattle.bb_net.specs.Pairs.{NetPair, IsPair};

    ghost Value = { NetPair };

    ghost view = { λ p. record {
      spec = p.spec;
      imp = p.imp;
      ins = p.ins.items;
      outs = p.outs.items;
      boxes = p.boxes.items;
      kinds = p.kinds.items;
    } };

    ghost invariant = { λ p. IsPair (record {
      spec = p.spec;
      imp = p.imp;
      ins = p.ins.items;
      outs = p.outs.items;
      boxes = p.boxes.items;
      kinds = p.kinds.items;
    }) };
}

impl Pair {
    /// Moves both nets into the pair. That they fit is required and not checked.
    pub fn of(
        spec: Net,
        imp: Net,
        ins: Vec<Name>,
        outs: Vec<OutName>,
        boxes: Vec<BoxName>,
        kinds: Vec<u32>,
    ) -> Pair
        requires beside { AreBeside (record {
          spec = spec;
          imp = imp;
          ins = ins.items;
          outs = outs.items;
          boxes = boxes.items;
          kinds = kinds.items;
        }) }
        requires small { AreSmall (record {
          spec = spec;
          imp = imp;
          ins = ins.items;
          outs = outs.items;
          boxes = boxes.items;
          kinds = kinds.items;
        }) }
        ensures pair { result
            ≡ record {
              spec = spec;
              imp = imp;
              ins = ins.items;
              outs = outs.items;
              boxes = boxes.items;
              kinds = kinds.items;
            } }
    {
        spec.keeps_its_order();
        imp.keeps_its_order();
        Pair {
            spec,
            imp,
            ins,
            outs,
            boxes,
            kinds,
        }
    }

    /// It has no box.
    pub fn spec(&self) -> &Net
        ensures spec { result.now ≡ self.now.spec }
        ensures kept { IsPair self.now }
    {
        &self.spec
    }

    /// Its inputs and outputs are numbered as the specification's.
    pub fn imp(&self) -> &Net
        ensures imp { result.now ≡ self.now.imp }
        ensures kept { IsPair self.now }
    {
        &self.imp
    }

    /// In input order, which is that of both nets.
    pub fn ins(&self) -> &[Name]
        ensures ins { result.now ≡ self.now.ins }
        ensures kept { IsPair self.now }
    {
        &self.ins
    }

    /// In output order, which is that of both nets.
    pub fn outs(&self) -> &[OutName]
        ensures outs { result.now ≡ self.now.outs }
        ensures kept { IsPair self.now }
    {
        &self.outs
    }

    /// In the order of the implementation's boxes.
    pub fn boxes(&self) -> &[BoxName]
        ensures boxes { result.now ≡ self.now.boxes }
        ensures kept { IsPair self.now }
    {
        &self.boxes
    }

    /// The sharing class of each box, in box order; a class not seen before has the next number.
    pub fn kinds(&self) -> &[u32]
        ensures kinds { result.now ≡ self.now.kinds }
        ensures kept { IsPair self.now }
    {
        &self.kinds
    }
}
