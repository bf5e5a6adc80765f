//! `NavTree`, which a contract sees as the table of navigables in the order of making, and the table of live documents.
ghost use Rattle.std.specs.Prelude.{◌≡◌, ◌<◌, ◌+◌, ◌^◌, ◌++◌, ◌∷◌, [], List, length, map, slice_get, is_some, option_map, IfOk, IfSome, OnOk, OnErr, IsSome};
ghost use Rattle.std.specs.Option.{ForSome, option_copied, option_and_then};
ghost use Rattle.std.specs.Ordering.{nat_cmp};
ghost use Rattle.std.specs.List.Sorted.{IsSortedByKey, IsPermutation};
ghost use Rattle.nav_tree.specs.Tree.{node_of, nav_of, document_of, docs_of, state_of, with_node, changed, with_nav, child_node, top_node, activated, put_to_sleep, lost_to, placed, discarded};

use crate::nav::Nav;
use crate::node::Node;
use crate::place::Place;
use crate::reload::ReloadPhase;
use crate::status::NavStatus;
use address::OutOfMemory;
use indexmap::IndexMap;
use log_model::{Docs, Why};
use std::alloc::Global;
use std::marker::Model;
use tab_ids::{Death, DocId, EntryId, Epoch, NavId, ProcId, ReqId, StateId};

/// The navigables of a tab, none ever forgotten, and the live document of each document state that has one.
#[derive(Drop)]
pub struct NavTree {
    navs: IndexMap<NavId, Node>,
    places: IndexMap<StateId, Place>,
}

impl Model for NavTree {
    ghost use Rattle.nav_tree.specs.Tree.{Tree};

    ghost Value = { Tree };

    ghost view = { λ t. record { navs = t.navs.entries; places = t.places.entries } };
}

impl NavTree {
    /// The tree as a tab opens: the traversable, awake on its document of state 1.
    pub fn fresh(
        alloc: Global,
        doc: DocId,
        proc: ProcId,
        handler: Option<u8>,
    ) -> Result<NavTree, OutOfMemory>
        ensures { IfOk result (λ tree. tree ≡ record { navs = (record { 0 = 0 }, top_node doc) ∷ []; places = (record { 0 = 1 }, record { doc = doc; proc = proc; handler = handler }) ∷ [] }) }
    {
        let top = Node {
            nav: Nav {
                parent: None,
                owner: None,
                status: NavStatus::Awake(doc),
                given: Some(EntryId { maker: 0, nr: 1 }),
                epoch: Epoch(1),
                why: Why::Start,
                moved: false,
                stands: true,
                reload: ReloadPhase::Idle,
                told: Some((1, 0)),
                added_by: None,
            },
            destroyed_by: None,
        };
        let mut navs = IndexMap::new(alloc);
        navs.insert(NavId(0), top)?;
        let mut places = IndexMap::new(alloc);
        places.insert(StateId(1), Place { doc, proc, handler })?;
        Ok(NavTree { navs, places })
    }

    /// Makes a child navigable, asleep for the request that adds it; its number is new and its parent is there.
    pub fn add(
        &mut self,
        nav: NavId,
        parent: NavId,
        owner: StateId,
        by: ReqId,
    ) -> Result<(), OutOfMemory>
        requires new { node_of nav self.old ≡ None }
        requires parent { IsSome (node_of parent self.old) }
        ensures ok { OnOk result (self.new ≡ record self.old { navs = self.old.navs ++ (nav, child_node parent owner by) ∷ [] }) }
        ensures err { OnErr result (self.new ≡ self.old) }
    {
        let child = Node {
            nav: Nav {
                parent: Some(parent),
                owner: Some(owner),
                status: NavStatus::Asleep,
                given: None,
                epoch: Epoch(0),
                why: Why::Req(by),
                moved: false,
                stands: false,
                reload: ReloadPhase::Idle,
                told: None,
                added_by: Some(by),
            },
            destroyed_by: None,
        };
        self.navs.insert(nav, child)?;
        Ok(())
    }

    /// How many navigables were ever made, the removed ones among them.
    pub fn len(&self) -> usize
        ensures { result ≡ length self.now.navs }
    {
        self.navs.len()
    }

    /// The navigable made at a place in the order of making; the top is the first.
    pub fn at(&self, i: usize) -> NavId
        requires { i < length self.now.navs }
        ensures { option_map (λ entry. entry.0) (slice_get self.now.navs i) ≡ Some result }
    {
        match self.navs.get_index(i) {
            Some((nav, _)) => *nav,
            None => unreachable!(),
        }
    }

    /// The fields of a navigable, also of a removed one; None where none has the number.
    pub fn nav(&self, nav: NavId) -> Option<&Nav>
        ensures { option_copied result ≡ nav_of nav self.now }
    {
        match self.navs.get(&nav) {
            Some(node) => Some(&node.nav),
            None => None,
        }
    }

    /// The request that destroyed a navigable; None where there is none.
    pub fn destroyed_by(&self, nav: NavId) -> Option<ReqId>
        ensures { result ≡ option_and_then (λ node. node.destroyed_by) (node_of nav self.now) }
    {
        match self.navs.get(&nav) {
            Some(node) => node.destroyed_by,
            None => None,
        }
    }

    /// Notes that a navigable was destroyed, and by which request; it stays in the tree.
    pub fn remove(&mut self, nav: NavId, by: ReqId)
        requires { IsSome (node_of nav self.old) }
        ensures { self.new ≡ changed (λ node. record node { destroyed_by = Some by }) nav self.old }
    {
        match self.node(nav) {
            Some(mut node) => {
                node.destroyed_by = Some(by);
                self.write(nav, node);
            }
            None => unreachable!(),
        }
    }

    /// An Activate is sent for an entry to a document: the navigable is awake on it, and its epoch, which is returned, is raised by 1.
    pub fn give(&mut self, nav: NavId, entry: EntryId, doc: DocId, why: Why) -> Epoch
        requires known { IsSome (node_of nav self.old) }
        requires epoch { IfSome (nav_of nav self.old) (λ n. n.epoch.0 + 1 < 2 ^ 64) }
        ensures tree { self.new ≡ with_nav (activated entry doc why) nav self.old }
        ensures epoch { IfSome (nav_of nav self.old) (λ n. result.0 ≡ n.epoch.0 + 1) }
    {
        match self.node(nav) {
            Some(mut node) => {
                let epoch = Epoch(node.nav.epoch.0 + 1);
                node.nav.status = NavStatus::Awake(doc);
                node.nav.given = Some(entry);
                node.nav.epoch = epoch;
                node.nav.why = why;
                node.nav.stands = false;
                self.write(nav, node);
                epoch
            }
            None => unreachable!(),
        }
    }

    /// A same-document change of a navigable's document gave it another entry.
    pub fn given(&mut self, nav: NavId, entry: EntryId)
        requires { IsSome (node_of nav self.old) }
        ensures { self.new ≡ with_nav (λ n. record n { given = Some entry }) nav self.old }
    {
        match self.node(nav) {
            Some(mut node) => {
                node.nav.given = Some(entry);
                self.write(nav, node);
            }
            None => unreachable!(),
        }
    }

    /// The navigable falls asleep for this reason.
    pub fn sleep(&mut self, nav: NavId, why: Why)
        requires { IsSome (node_of nav self.old) }
        ensures { self.new ≡ with_nav (put_to_sleep why) nav self.old }
    {
        match self.node(nav) {
            Some(mut node) => {
                node.nav.status = NavStatus::Asleep;
                node.nav.why = why;
                self.write(nav, node);
            }
            None => unreachable!(),
        }
    }

    /// The navigable is known to have lost its document to a death.
    pub fn lose(&mut self, nav: NavId, death: Death)
        requires { IsSome (node_of nav self.old) }
        ensures { self.new ≡ with_nav (lost_to death) nav self.old }
    {
        match self.node(nav) {
            Some(mut node) => {
                node.nav.status = NavStatus::Lost;
                node.nav.why = Why::Death(death);
                self.write(nav, node);
            }
            None => unreachable!(),
        }
    }

    /// Whether the running traversal has moved the navigable.
    pub fn set_moved(&mut self, nav: NavId, moved: bool)
        requires { IsSome (node_of nav self.old) }
        ensures { self.new ≡ with_nav (λ n. record n { moved = moved }) nav self.old }
    {
        match self.node(nav) {
            Some(mut node) => {
                node.nav.moved = moved;
                self.write(nav, node);
            }
            None => unreachable!(),
        }
    }

    /// Whether the finish of the navigable's last Activate was delivered.
    pub fn set_stands(&mut self, nav: NavId, stands: bool)
        requires { IsSome (node_of nav self.old) }
        ensures { self.new ≡ with_nav (λ n. record n { stands = stands }) nav self.old }
    {
        match self.node(nav) {
            Some(mut node) => {
                node.nav.stands = stands;
                self.write(nav, node);
            }
            None => unreachable!(),
        }
    }

    /// The length and index that the navigable's document was told; None where it shows a guess of its own.
    pub fn set_told(&mut self, nav: NavId, told: Option<(u32, u32)>)
        requires { IsSome (node_of nav self.old) }
        ensures { self.new ≡ with_nav (λ n. record n { told = told }) nav self.old }
    {
        match self.node(nav) {
            Some(mut node) => {
                node.nav.told = told;
                self.write(nav, node);
            }
            None => unreachable!(),
        }
    }

    /// How far a reload of the navigable has come.
    pub fn set_reload(&mut self, nav: NavId, reload: ReloadPhase)
        requires { IsSome (node_of nav self.old) }
        ensures { self.new ≡ with_nav (λ n. record n { reload = reload }) nav self.old }
    {
        match self.node(nav) {
            Some(mut node) => {
                node.nav.reload = reload;
                self.write(nav, node);
            }
            None => unreachable!(),
        }
    }

    /// The placed documents, in order of number.
    pub fn docs(&self) -> Result<Docs, OutOfMemory>
        ensures in_order { IfOk result (λ docs. IsSortedByKey (λ doc. doc.0) nat_cmp docs) }
        ensures placed { IfOk result (λ docs. IsPermutation (docs_of self.now) docs) }
    {
        let mut docs = self.placed_docs()?;
        docs.sort()?;
        listed(*self.places.allocator(), &docs)
    }

    /// The document state that a document is placed for; None where it isn't placed.
    pub fn state_of(&self, doc: DocId) -> Option<StateId>
        ensures { result ≡ state_of doc self.now }
    {
        for i in 0..self.places.len() {
            let (state, place) = self.place_at(i);
            if place.doc == doc {
                return Some(state);
            }
        }
        None
    }

    /// A document becomes live for a document state, in the place of an earlier one.
    pub fn place(
        &mut self,
        state: StateId,
        doc: DocId,
        proc: ProcId,
        handler: Option<u8>,
    ) -> Result<(), OutOfMemory>
        ensures ok { OnOk result (self.new ≡ placed state (record { doc = doc; proc = proc; handler = handler }) self.old) }
        ensures err { OnErr result (self.new ≡ self.old) }
    {
        self.places.insert(state, Place { doc, proc, handler })?;
        Ok(())
    }

    /// The document of a state, where it has one, is live no more.
    pub fn discard(&mut self, state: StateId)
        ensures { self.new ≡ discarded state self.old }
    {
        self.places.shift_remove(&state);
    }

    /// The live document of a document state; None where there is none.
    pub fn doc_of(&self, state: StateId) -> Option<Place>
        ensures { result ≡ document_of state self.now }
    {
        self.places.get(&state).copied()
    }

    /// Whether a document state has a live document.
    pub fn is_live(&self, state: StateId) -> bool
        ensures { result ≡ is_some (document_of state self.now) }
    {
        self.places.contains_key(&state)
    }

    // The placed documents, in the order in which they were placed.
    fn placed_docs(&self) -> Result<Vec<DocId>, OutOfMemory>
        ensures { IfOk result (λ docs. docs.items ≡ docs_of self.now) }
    {
        let mut docs = Vec::new(*self.places.allocator());
        for i in 0..self.places.len() {
            let (_, place) = self.place_at(i);
            docs.push(place.doc)?;
        }
        Ok(docs)
    }

    // The document at a place in the table of documents, and its state.
    fn place_at(&self, i: usize) -> (StateId, Place)
        requires { i < length self.now.places }
        ensures { slice_get self.now.places i ≡ Some result }
    {
        match self.places.get_index(i) {
            Some((state, place)) => (*state, *place),
            None => unreachable!(),
        }
    }

    // What is kept of a navigable.
    fn node(&self, nav: NavId) -> Option<Node>
        ensures { result ≡ node_of nav self.now }
    {
        self.navs.get(&nav).copied()
    }

    // Keeps this of a navigable that is there, in the place of what was kept.
    fn write(&mut self, nav: NavId, with: Node)
        requires { IsSome (node_of nav self.old) }
        ensures { self.new ≡ with_node nav with self.old }
    {
        match self.navs.get_mut(&nav) {
            Some(node) => *node = with,
            None => unreachable!(),
        }
    }
}

// These documents as a list.
fn listed(alloc: Global, docs: &[DocId]) -> Result<Docs, OutOfMemory>
    ensures { IfOk result (λ list. list ≡ docs.now) }
{
    let mut list = Docs::new(alloc);
    for doc in docs {
        list.push(*doc)?;
    }
    Ok(list)
}
