//! The user has the document discarded that is kept longest.
ghost use Rattle.std.specs.Prelude.{◌≡◌, [], OnOk};
ghost use Rattle.coord.specs.Evicting.{EvictCame, InEviction, evict_in, eviction_of, longest_in};
ghost use Rattle.coord.specs.Standing.{HasActed, IsOpenTo, StandsFor};
ghost use Rattle.log_model.specs.Seen.{Seen};
ghost use Rattle.user_evicts.specs.Evicting.{InEvict, IsEvictAsk};

use crate::coordinator::Coordinator;
use address::OutOfMemory;
use log_model::{Out, Why};
use std::alloc::Global;
use tab_ids::StateId;
use user_evicts::evict_longest;

impl Coordinator {
    /// The document state whose document is kept longest; None where no document is kept. HTML Standard, "Documents kept for traversal".
    pub fn longest_kept(&self) -> Option<StateId>
        ensures { (s : Seen) → StandsFor s self.now → result ≡ longest_in s }
    {
        self.tables.kept.oldest()
    }

    /// The user evicts the document that is kept longest: it is discarded, with all that are there below it, and the tab is brought to rest. HTML Standard, "destroy a document".
    pub fn evict(&mut self, alloc: Global, out: &mut Out) -> Result<(), OutOfMemory>
        ghost v: { InEviction }
        requires asks { IsEvictAsk v.event v.state }
        requires open_ { IsOpenTo v.event self.old }
        requires first { out.old ≡ [] }
        ensures acted { OnOk result (HasActed v.event out.new self.new) }
        ensures came { OnOk result (EvictCame v.event v.state out.new) }
    {
        self.evict_kept(alloc, out)?;
        Ok(())
    }

    /// It is discarded, and the tab is brought to rest.
    fn evict_kept(&mut self, alloc: Global, out: &mut Out) -> Result<(), OutOfMemory>
        ghost b: { InEvict }
        requires evict_in { b ≡ evict_in (eviction_of b) self.old }
        requires asks { IsEvictAsk b.event b.state }
        requires open_ { IsOpenTo b.event self.old }
        requires first { out.old ≡ [] }
        ensures acted { OnOk result (HasActed b.event out.new self.new) }
        ensures came { OnOk result (EvictCame b.event b.state out.new) }
    {
        evict_longest(alloc, &mut self.tables, out)?;
        self.settle(alloc, out, Why::Evict, None)?;
        Ok(())
    }
}
