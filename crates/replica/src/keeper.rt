//! A replica as those see it who exchange links: what it holds is what its graph holds.
use crate::replica::Replica;
use link_graph::{LinkKeeper, TakeFault, Took};
use std::alloc::Global;
use tg_outside::{StepLedger, Steps};
use tg_text::{LinkName, Memory};

impl LinkKeeper for Replica {
    ghost held = { λ it. it };

    fn is_held(&self) {
        self.graph().is_held()
    }

    fn team(&self) -> LinkName {
        self.team()
    }

    fn heads(&self) -> &[LinkName] {
        self.graph().heads()
    }

    fn is_connected(&self, name: &LinkName) -> bool {
        self.graph().is_connected(name)
    }

    fn below(
        &self,
        _alloc: Global,
        names: &[LinkName],
        not_below: &[LinkName],
    ) -> Result<Vec<u32>, Memory> {
        self.graph().below(names, not_below)
    }

    fn text_at(&self, position: u32) -> &[u8] {
        self.graph().text_at(position)
    }

    fn offer<L: StepLedger>(
        &mut self,
        alloc: Global,
        bytes: &[u8],
        steps: &mut Steps<L>,
    ) -> Result<Took, TakeFault> {
        self.insert(alloc, bytes, steps)
    }
}
