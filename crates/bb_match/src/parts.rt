//! The parts of a pair before it keeps what every pair keeps: a care output changes both netlists after they are
//! joined.
ghost use Rattle.std.specs.Prelude.{◌≡◌, ◌<◌, length, IfOk};
ghost use Rattle.bb_care.specs.Constrained.{constrained};
ghost use Rattle.bb_care.specs.Laws.{HasRoom};
ghost use Rattle.bb_net.specs.Pairs.{IsPair};

use bb_bits::{Name, NoMemory};
use bb_care::constrained_nets;
use bb_care::laws::constrained_pairs_are_pairs;
use bb_net::{BoxName, Net, OutName, Pair};
use std::alloc::Global;
use std::marker::Model;

#[derive(Drop)]
pub(crate) struct PairParts {
    pub spec: Net,
    pub imp: Net,
    pub ins: Vec<Name>,
    pub outs: Vec<OutName>,
    pub boxes: Vec<BoxName>,
    pub kinds: Vec<u32>,
}

impl Model for PairParts {
    ghost use Rattle.bb_net.specs.Pairs.{NetPair};

    ghost Value = { NetPair };

    ghost view = { λ p. record {
      spec = p.spec;
      imp = p.imp;
      ins = p.ins.items;
      outs = p.outs.items;
      boxes = p.boxes.items;
      kinds = p.kinds.items;
    } };
}

impl PairParts {
    /// Without a care output the parts are a pair as they are.
    pub fn into_pair(self) -> Pair
        requires kept { IsPair self }
        ensures pair { result ≡ self }
    {
        Pair::of(
            self.spec, self.imp, self.ins, self.outs, self.boxes, self.kinds,
        )
    }

    /// `care` is the place of a cell of the specification. Both netlists get one more And for each output, so that no
    /// check has to know of care outputs.
    pub fn constrained(self, alloc: Global, care: u32) -> Result<Pair, NoMemory>
        requires kept { IsPair self }
        requires room { HasRoom self }
        requires care { care < length self.spec.cells }
        ensures pair { IfOk result (λ p. p ≡ constrained care self) }
    {
        constrained_pairs_are_pairs();
        let PairParts {
            spec,
            imp,
            ins,
            outs,
            boxes,
            kinds,
        } = self;
        let places = Vec::from_slice(alloc, spec.outs())?;
        let both = constrained_nets(alloc, spec, &places, care, imp)?;
        Ok(Pair::of(both.spec, both.imp, ins, outs, boxes, kinds))
    }
}
