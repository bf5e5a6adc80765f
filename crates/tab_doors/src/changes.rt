//! The doors of changes: what a document made is applied, and a traversal ends.
ghost use Rattle.std.specs.Prelude.{◌≡◌, ◌<◌, ◌+◌, ◌^◌, ◌==◌, ◌&&◌, ◌++◌, ◌∷◌, [], true, false, not, OnOk, IfOk, Some, None, length, map, filter, option_map};
ghost use Rattle.entry_store.specs.declared.error.StoreError.TheVariants as errors;
ghost use Rattle.log_model.specs.declared.change.Change.TheVariants as changes;
ghost use Rattle.log_model.specs.declared.row_kind.RowKind.TheVariants as rows;
ghost use Rattle.log_model.specs.History.{applied, has_nav, has_row};
ghost use Rattle.log_model.specs.Order.{SameHistory};
ghost use Rattle.log_model.specs.Places.{holder_of};
ghost use Rattle.log_model.specs.Seen.{place_of};
ghost use Rattle.log_model.specs.History.{History};
ghost use Rattle.seen_facts.specs.Each.Runs.{is_this};
ghost use Rattle.nav_tree.specs.Tree.{node_of};
ghost use Rattle.step_index.specs.Held.{history_held};
ghost use Rattle.seen_laws.specs.InEvent.{InEvent, now_of};
ghost use Rattle.tab_doors.specs.Look.{moved_by};
ghost use Rattle.tab_doors.specs.Ties.{IsAwakeIn};
ghost use Rattle.tab_doors.specs.Sleeping.{AreThere};
ghost use Rattle.tab_doors.specs.Dues.{IsTakeDue, KeepsRows, MayChange, IsAdded, SeesRows, IsEndDue, has_any, has_none, lost_of};
ghost use Rattle.tab_doors.specs.Working.{IsAtWork, KeepsRun};
ghost use Rattle.apply_plan.specs.Order.{made_in};
ghost use Rattle.tab_doors.specs.Ending.{unmove_all, destroy_all};

use crate::tables::Tables;
use address::{Address, OutOfMemory, Text};
use entry_store::{Store, StoreError};
use log_model::{Change, Navs, Out, RowKind};
use nav_tree::NavTree;
use std::alloc::Global;
use step_index::StepIndex;
use tab_ids::{EntryId, NavId, ReqId, StateId, Step};

/// The last step that there may be.
const LAST: Step = Step(u32::MAX);

/// Makes a change of the store that fits what the log has come to. Only memory may be wanting.
fn make_change(store: &mut StepIndex, out: &Out, change: &Change) -> Result<(), OutOfMemory>
    ghost e: { InEvent }
    requires same { SameHistory (history_held store.old) (now_of e out.now).history }
    requires may { MayChange (now_of e out.now) change.now }
    ensures ok { OnOk result (SameHistory (history_held store.new) (applied (now_of e out.now).history change.now)) }
{
    let _rows = out.len();
    match store.apply(change) {
        Ok(()) => Ok(()),
        Err(error) => Err(want_of_memory(error)),
    }
}

/// What fits is refused for want of memory alone.
fn want_of_memory(error: StoreError) -> OutOfMemory
    requires { error ≡ errors.OutOfMemory }
{
    match error {
        StoreError::OutOfMemory => OutOfMemory,
        StoreError::NoNavigable => unreachable!(),
        StoreError::NoEntry => unreachable!(),
        StoreError::NavTaken => unreachable!(),
    }
}

impl Tables {
    /// A change that fits is made, and put out. Returned are the navigables that lose their last entries to it.
    pub fn change(
        &mut self,
        alloc: Global,
        out: &mut Out,
        req: ReqId,
        change: Change,
    ) -> Result<Navs, OutOfMemory>
        ghost e: { InEvent }
        requires same { SameHistory (history_held self.old.store) (now_of e out.old).history }
        requires may { MayChange (now_of e out.old) change }
        ensures rest { OnOk result (self.new ≡ record self.old { store = self.new.store }) }
        ensures history { OnOk result (SameHistory (history_held self.new.store) (applied (now_of e out.old).history change)) }
        ensures lost { IfOk result (λ lost. lost ≡ lost_of (history_held self.old.store).rows (history_held self.new.store).rows (made_in self.old.tree)) }
        ensures out { OnOk result (out.new ≡ out.old ++ rows.Applied req change ∷ []) }
    {
        let had = with_rows(alloc, &self.store, &self.tree)?;
        make_change(&mut self.store, out, &change)?;
        out.push(RowKind::Applied { req, change })?;
        without_rows(alloc, &self.store, &had)
    }

    /// A push of a document is applied: its navigable is given the entry, and was told nothing since. Each navigable that lost its last entries is noted.
    pub fn push(
        &mut self,
        alloc: Global,
        out: &mut Out,
        req: ReqId,
        nav: NavId,
        entry: EntryId,
        state: StateId,
        address: Address,
        memo: Option<Text>,
    ) -> Result<(), OutOfMemory>
        ghost e: { InEvent }
        requires work { IsAtWork e out.old self.old }
        requires awake { IsAwakeIn self.old.tree nav (record { 0 = entry.maker }) }
        requires due { IsTakeDue e out.old req (changes.Push nav entry state address memo) }
        requires off { e.checking req ≡ false }
        requires may { MayChange (now_of e out.old) (changes.Push nav entry state address memo) }
        requires sees { SeesRows (now_of e out.old) (changes.Push nav entry state address memo) }
        requires of_document { (entry.maker == 0) ≡ false }
        requires apart { is_this self.old.running req ≡ false }
        ensures work { OnOk result (IsAtWork e out.new self.new) }
        ensures out { OnOk result (out.new ≡ out.old ++ rows.Applied req (changes.Push nav entry state address memo) ∷ []) }
        ensures kept { OnOk result (KeepsRun self.old self.new) }
    {
        let change = Change::Push {
            nav,
            entry,
            state,
            address,
            memo,
        };
        let lost = self.change(alloc, out, req, change)?;
        self.tree.given(nav, entry);
        self.tree.set_told(nav, None);
        destroy_each(&mut self.tree, &lost, req);
        Ok(())
    }

    /// A replace of a document is applied: its navigable is given the entry.
    pub fn replace(
        &mut self,
        out: &mut Out,
        req: ReqId,
        nav: NavId,
        over: EntryId,
        entry: EntryId,
        state: StateId,
        address: Address,
        memo: Option<Text>,
    ) -> Result<(), OutOfMemory>
        ghost e: { InEvent }
        requires work { IsAtWork e out.old self.old }
        requires awake { IsAwakeIn self.old.tree nav (record { 0 = entry.maker }) }
        requires due { IsTakeDue e out.old req (changes.Replace nav over entry state address memo) }
        requires off { e.checking req ≡ false }
        requires may { MayChange (now_of e out.old) (changes.Replace nav over entry state address memo) }
        requires keeps { KeepsRows (now_of e out.old) (changes.Replace nav over entry state address memo) }
        requires of_document { (entry.maker == 0) ≡ false }
        requires apart { is_this self.old.running req ≡ false }
        ensures work { OnOk result (IsAtWork e out.new self.new) }
        ensures out { OnOk result (out.new ≡ out.old ++ rows.Applied req (changes.Replace nav over entry state address memo) ∷ []) }
        ensures kept { OnOk result (KeepsRun self.old self.new) }
    {
        let change = Change::Replace {
            nav,
            over,
            entry,
            state,
            address,
            memo,
        };
        make_change(&mut self.store, out, &change)?;
        out.push(RowKind::Applied { req, change })?;
        self.tree.given(nav, entry);
        Ok(())
    }

    /// A frame is added to the document of a navigable, with its first entry; it is asleep.
    pub fn add_frame(
        &mut self,
        out: &mut Out,
        req: ReqId,
        owner: StateId,
        nav: NavId,
        parent: NavId,
    ) -> Result<(), OutOfMemory>
        ghost e: { InEvent }
        requires work { IsAtWork e out.old self.old }
        requires due { IsTakeDue e out.old req (changes.AddFrame owner nav (record { maker = 0; nr = self.old.entries + 1 }) (record { 0 = self.old.states + 1 })) }
        requires off { e.checking req ≡ false }
        requires may { MayChange (now_of e out.old) (changes.AddFrame owner nav (record { maker = 0; nr = self.old.entries + 1 }) (record { 0 = self.old.states + 1 })) }
        requires keeps { KeepsRows (now_of e out.old) (changes.AddFrame owner nav (record { maker = 0; nr = self.old.entries + 1 }) (record { 0 = self.old.states + 1 })) }
        requires added { IsAdded (now_of e out.old) self.old.tree self.old.running owner nav parent }
        requires room { self.old.states + 1 < 2 ^ 32 }
        requires more_room { self.old.entries + 1 < 2 ^ 32 }
        requires apart { is_this self.old.running req ≡ false }
        ensures work { OnOk result (IsAtWork e out.new self.new) }
        ensures out { OnOk result (out.new ≡ out.old ++ rows.Applied req (changes.AddFrame owner nav (record { maker = 0; nr = self.old.entries + 1 }) (record { 0 = self.old.states + 1 })) ∷ []) }
        ensures kept { OnOk result (KeepsRun self.old self.new) }
    {
        let entry = EntryId {
            maker: 0,
            nr: self.entries + 1,
        };
        let state = StateId(self.states + 1);
        let change = Change::AddFrame {
            owner,
            nav,
            entry,
            state,
        };
        make_change(&mut self.store, out, &change)?;
        out.push(RowKind::Applied { req, change })?;
        self.tree.add(nav, parent, owner, req)?;
        self.initial.insert(state, ())?;
        self.entries += 1;
        self.states += 1;
        Ok(())
    }

    /// A frame is removed with all below it: each navigable that lost its entries is noted.
    pub fn remove_frame(
        &mut self,
        alloc: Global,
        out: &mut Out,
        req: ReqId,
        nav: NavId,
    ) -> Result<(), OutOfMemory>
        ghost e: { InEvent }
        requires work { IsAtWork e out.old self.old }
        requires due { IsTakeDue e out.old req (changes.RemoveFrame nav) }
        requires off { e.checking req ≡ false }
        requires may { MayChange (now_of e out.old) (changes.RemoveFrame nav) }
        requires sees { SeesRows (now_of e out.old) (changes.RemoveFrame nav) }
        requires apart { is_this self.old.running req ≡ false }
        ensures work { OnOk result (IsAtWork e out.new self.new) }
        ensures out { OnOk result (out.new ≡ out.old ++ rows.Applied req (changes.RemoveFrame nav) ∷ []) }
        ensures kept { OnOk result (KeepsRun self.old self.new) }
    {
        let lost = self.change(alloc, out, req, Change::RemoveFrame { nav })?;
        destroy_each(&mut self.tree, &lost, req);
        Ok(())
    }

    /// The traversal that runs ends: the step that it leads to is the current one, and nobody is moved any more.
    pub fn end(&mut self, out: &mut Out, req: ReqId, goal: Step) -> Result<(), OutOfMemory>
        ghost e: { InEvent }
        requires work { IsAtWork e out.old self.old }
        requires its { self.old.running ≡ Some req }
        requires due { IsEndDue e out.old req goal }
        requires may { MayChange (now_of e out.old) (changes.Traverse goal) }
        ensures work { OnOk result (IsAtWork e out.new self.new) }
        ensures out { OnOk result (out.new ≡ out.old ++ rows.Applied req (changes.Traverse goal) ∷ []) }
        ensures ended { OnOk result (self.new.running ≡ None) }
        ensures keep { OnOk result (self.new.kept.keep ≡ self.old.kept.keep) }
    {
        let change = Change::Traverse { goal };
        make_change(&mut self.store, out, &change)?;
        out.push(RowKind::Applied { req, change })?;
        unmove_each(&mut self.tree);
        self.running = None;
        Ok(())
    }
}

/// Nobody is moved any more.
#[tactic(auto, using(crate::proofs::Unmoving::there_at, crate::proofs::Unmoving::one_more))]
fn unmove_each(tree: &mut NavTree)
    ensures { tree.new ≡ unmove_all (made_in tree.old) tree.old }
{
    for i in 0..tree.len() {
        let nav = tree.at(i);
        tree.set_moved(nav, false);
    }
}

/// Whether a navigable has an entry at the last step that there may be.
fn has_any(store: &StepIndex, nav: NavId) -> bool
    ensures { result ≡ has_any (history_held store.now).rows nav }
{
    store.target(nav, LAST).is_some()
}

/// Whether it has none.
fn has_none(store: &StepIndex, nav: NavId) -> bool
    ensures { result ≡ has_none (history_held store.now).rows nav }
{
    store.target(nav, LAST).is_none()
}

/// The navigables that have one.
#[tactic(auto, using(crate::proofs::Filtered::one_kept, crate::proofs::Filtered::one_left, crate::proofs::Filtered::all_taken))]
fn with_rows(alloc: Global, store: &StepIndex, tree: &NavTree) -> Result<Navs, OutOfMemory>
    ensures { IfOk result (λ navs. navs ≡ filter (has_any (history_held store.now).rows) (made_in tree.now)) }
{
    let mut navs = Navs::new(alloc);
    for i in 0..tree.len() {
        let nav = tree.at(i);
        if has_any(store, nav) {
            navs.push(nav)?;
        }
    }
    Ok(navs)
}

/// Those among these that have none.
#[tactic(auto, using(crate::proofs::Filtered::one_not_kept, crate::proofs::Filtered::one_not_left))]
fn without_rows(alloc: Global, store: &StepIndex, navs: &Navs) -> Result<Navs, OutOfMemory>
    ensures { IfOk result (λ lost. lost ≡ filter (has_none (history_held store.now).rows) navs.now) }
{
    let mut lost = Navs::new(alloc);
    for i in 0..navs.len() {
        let nav = *navs.at(i);
        if has_none(store, nav) {
            lost.push(nav)?;
        }
    }
    Ok(lost)
}

/// These lost their last entries to a request.
#[tactic(auto, using(crate::proofs::Destroying::there_still, crate::proofs::Destroying::one_more))]
pub fn destroy_each(tree: &mut NavTree, navs: &Navs, by: ReqId)
    requires { AreThere tree.old navs.now }
    ensures { tree.new ≡ destroy_all navs.now by tree.old }
{
    for i in 0..navs.len() {
        let nav = *navs.at(i);
        tree.remove(nav, by);
    }
}
