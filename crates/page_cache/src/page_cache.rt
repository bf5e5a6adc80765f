//! `PageCache`, which a contract sees as `keep` and the list of the states most recently left, cut at `keep`.
ghost use Rattle.std.specs.Prelude.{◌≡◌, [], take, drop, OnOk, OnErr, IfOk};
ghost use Rattle.std.specs.Option.{option_to_list};
ghost use Rattle.std.specs.Map.{keys_of};
ghost use Rattle.page_cache.specs.Kept.{has_state, without, left_first, oldest_of};

use address::OutOfMemory;
use lru::LruCache;
use std::alloc::Global;
use std::marker::Model;
use std::num::NonZeroUsize;
use tab_ids::StateId;

/// The document states whose documents are kept after they were left, at most `keep` of them.
#[derive(Drop)]
pub struct PageCache {
    // None where `keep` is 0.
    kept: Option<LruCache<StateId, ()>>,
}

impl Model for PageCache {
    ghost use Rattle.page_cache.specs.Kept.{Kept, keep_of, states_of};

    ghost Value = { Kept };

    ghost view = { λ c. record { keep = keep_of c.kept; states = states_of c.kept } };
}

impl PageCache {
    /// A cache that keeps at most `keep` documents, and none yet.
    pub fn new(alloc: Global, keep: u32) -> Result<PageCache, OutOfMemory>
        ensures { IfOk result (λ cache. cache ≡ record { keep = keep; states = [] }) }
    {
        match NonZeroUsize::new(keep as usize) {
            Some(cap) => {
                let kept = LruCache::sparse(alloc, cap)?;
                Ok(PageCache { kept: Some(kept) })
            }
            None => Ok(PageCache { kept: None }),
        }
    }

    /// Notes that the document of a state was left, and answers the state whose document is to be evicted: with a `keep` of 0 this one.
    pub fn leave(&mut self, state: StateId) -> Result<Option<StateId>, OutOfMemory>
        ensures kept { OnOk result (self.new ≡ record self.old { states = take self.old.keep (left_first state self.old.states) }) }
        ensures evicted { IfOk result (λ out. option_to_list out ≡ drop self.old.keep (left_first state self.old.states)) }
        ensures err { OnErr result (self.new ≡ self.old) }
    {
        match &mut self.kept {
            Some(kept) => leave_in(kept, state),
            None => Ok(Some(state)),
        }
    }

    /// Takes a state out because its document is shown again; whether it was kept.
    pub fn take(&mut self, state: StateId) -> bool
        ensures found { result ≡ has_state state self.old.states }
        ensures rest { self.new ≡ record self.old { states = without state self.old.states } }
    {
        match &mut self.kept {
            Some(kept) => remove_in(kept, state),
            None => false,
        }
    }

    /// Takes a state out because its document is gone; whether it was kept.
    pub fn forget(&mut self, state: StateId) -> bool
        ensures found { result ≡ has_state state self.old.states }
        ensures rest { self.new ≡ record self.old { states = without state self.old.states } }
    {
        match &mut self.kept {
            Some(kept) => remove_in(kept, state),
            None => false,
        }
    }

    /// The state that was left longest ago.
    pub fn oldest(&self) -> Option<StateId>
        ensures { result ≡ oldest_of self.now.states }
    {
        match &self.kept {
            Some(kept) => oldest_in(kept),
            None => None,
        }
    }
}

/// Puts a state first, and answers the one that falls out.
#[tactic(auto, using(crate::proofs::Leaves::leaves))]
fn leave_in(
    kept: &mut LruCache<StateId, ()>,
    state: StateId,
) -> Result<Option<StateId>, OutOfMemory>
    ensures keep { kept.new.cap ≡ kept.old.cap }
    ensures kept { OnOk result (keys_of kept.new.entries ≡ take kept.old.cap (left_first state (keys_of kept.old.entries))) }
    ensures evicted { IfOk result (λ out. option_to_list out ≡ drop kept.old.cap (left_first state (keys_of kept.old.entries))) }
    ensures err { OnErr result (kept.new ≡ kept.old) }
{
    // Its clause says that the states are distinct, and at most as many as the capacity.
    let _len = kept.len();
    let known = kept.contains(&state);
    let out = kept.push(state, ())?;
    if known {
        return Ok(None);
    }
    match out {
        Some((gone, ())) => Ok(Some(gone)),
        None => Ok(None),
    }
}

/// Takes a state out.
fn remove_in(kept: &mut LruCache<StateId, ()>, state: StateId) -> bool
    ensures keep { kept.new.cap ≡ kept.old.cap }
    ensures found { result ≡ has_state state (keys_of kept.old.entries) }
    ensures rest { keys_of kept.new.entries ≡ without state (keys_of kept.old.entries) }
{
    let _len = kept.len();
    kept.pop(&state).is_some()
}

/// The state that was put first longest ago.
fn oldest_in(kept: &LruCache<StateId, ()>) -> Option<StateId>
    ensures { result ≡ oldest_of (keys_of kept.now.entries) }
{
    match kept.peek_lru() {
        Some((state, ())) => Some(*state),
        None => None,
    }
}
