//! The doors of orders: a document is told something, shown, made, frozen or discarded.
ghost use Rattle.std.specs.Prelude.{◌≡◌, ◌<◌, ◌+◌, ◌^◌, ◌==◌, ◌++◌, ◌∷◌, [], true, false, OnOk, IfOk, Some, None, length, map, option_map};
ghost use Rattle.log_model.specs.declared.job.Task.TheVariants as tasks;
ghost use Rattle.log_model.specs.declared.row_kind.RowKind.TheVariants as rows;
ghost use Rattle.log_model.specs.declared.job.Why.TheVariants as whys;
ghost use Rattle.log_model.specs.Orders.{ongoing_load};
ghost use Rattle.log_model.specs.Seen.{desk_of};
ghost use Rattle.seen_facts.specs.Kept.Keeping.{AreKeptDocs};
ghost use Rattle.seen_facts.proofs.Kept.States.{AreOfOwnStates};
ghost use Rattle.seen_laws.specs.InEvent.{InEvent, now_of};
ghost use Rattle.seen_laws.specs.Sending.{IsUpdateDue};
ghost use Rattle.row_facts.specs.FrameRows.Making.{IsMakeDue};
ghost use Rattle.std.specs.Map.{lookup};
ghost use Rattle.nav_tree.specs.Tree.{is_state, discarded, node_of, with_nav};
ghost use Rattle.tab_doors.specs.Look.{sight, sight_in};
ghost use Rattle.tab_ids.specs.declared.ReqId.{ReqId};
ghost use Rattle.tab_doors.specs.Ties.{IsAwakeIn};
ghost use Rattle.log_model.specs.AfterPlaces.{sleepers_with};
ghost use Rattle.log_model.specs.History.{has_nav};
ghost use Rattle.seen_facts.specs.Kept.Keeping.{kept_states};
ghost use Rattle.tab_ids.specs.declared.NavId.{NavId};
ghost use Rattle.std.specs.Option.{IsSome};
ghost use Rattle.tab_doors.specs.Sleeping.{AreThere, asleep_for, is_for, sleep_all};
ghost use Rattle.tab_doors.specs.Orders.{InDiscard, InMove, numbered_order, next_order, order_to, IsThere, IsToGo, MayShow};
ghost use Rattle.tab_doors.specs.Keeping.{LeavesFor, LetsGo};
ghost use Rattle.unasked_dues.specs.Checking.{IsForOther};
ghost use Rattle.tab_doors.specs.Working.{IsAtWork, IsAtWorkFor, IsAtWorkIn, KeepsStore, MayDiscardIn, MaySend};

use crate::birth::Birth;
use crate::tables::Tables;
use address::{Address, OutOfMemory, Text};
use log_model::{Job, Navs, Out, RowKind, Task, Why};
use nav_tree::NavTree;
use tab_ids::{DocId, EntryId, Epoch, JobId, NavId, ProcId, ReqId, StateId};

/// The order with the next number, once it was counted: `sent` has an entry for the opening and one for each order.
pub fn count_order(
    sent: &mut Vec<u8>,
    proc: ProcId,
    doc: DocId,
    why: Why,
    task: Task,
) -> Result<Job, OutOfMemory>
    ensures job { IfOk result (λ job. job ≡ numbered_order (length sent.old.items) proc doc why task) }
    ensures sent { OnOk result (length sent.new.items ≡ length sent.old.items + 1) }
    ensures fits { OnOk result (length sent.new.items < 2 ^ 64) }
{
    sent.push(0)?;
    Ok(Job {
        nr: JobId(sent.len() as u64 - 1),
        proc,
        incarnation: 0,
        doc,
        why,
        task,
    })
}

impl Tables {
    /// An awake navigable's document is told length and index. The order goes to its process.
    pub fn tell(
        &mut self,
        out: &mut Out,
        nav: NavId,
        doc: DocId,
        why: Why,
        length: u32,
        index: u32,
    ) -> Result<(), OutOfMemory>
        ghost e: { InEvent }
        requires work { IsAtWork e out.old self.old }
        requires awake { IsAwakeIn self.old.tree nav doc }
        requires there { IsThere (now_of e out.old) doc }
        requires due { IsUpdateDue (now_of e out.old) (order_to (now_of e out.old) doc why (tasks.Update length index)) (length, index) }
        ensures work { OnOk result (IsAtWork e out.new self.new) }
        ensures out { OnOk result (out.new ≡ out.old ++ rows.Sent (order_to (now_of e out.old) doc why (tasks.Update length index)) ∷ []) }
        ensures kept { OnOk result (KeepsStore self.old self.new) }
    {
        let task = Task::Update { length, index };
        let proc = self.proc_there(doc);
        let job = count_order(&mut self.sent, proc, doc, why, task)?;
        out.push(RowKind::Sent { job })?;
        self.tree.set_told(nav, Some((length, index)));
        Ok(())
    }

    /// A navigable is shown an entry by its document, for which nobody falls asleep. The order goes to the document's process. The document is kept no longer. Where a move to it had begun, that ends.
    pub fn show(
        &mut self,
        out: &mut Out,
        nav: NavId,
        doc: DocId,
        state: StateId,
        why: Why,
        entry: EntryId,
        epoch: Epoch,
        length: u32,
        index: u32,
        memo: Option<Text>,
        address: Address,
    ) -> Result<(), OutOfMemory>
        ghost m: { InMove }
        requires work { IsAtWorkFor m.move m.event out.old self.old }
        requires for_other { IsForOther m.event.checking why }
        requires may { MayShow (now_of m.event out.old) self.old.tree nav (order_to (now_of m.event out.old) doc why (tasks.Activate entry epoch length index memo address)) entry epoch (length, index) memo address }
        requires for_run { (r : ReqId) → self.old.running ≡ Some r → why ≡ whys.Req r }
        requires fits { epoch.0 < 2 ^ 64 }
        requires own_state { AreOfOwnStates (now_of m.event out.old).documents (now_of m.event out.old).kept doc state }
        requires leaves { LeavesFor m.move (now_of m.event out.old) doc state self.old.kept.keep }
        ensures work { OnOk result (IsAtWork m.event out.new self.new) }
        ensures out { OnOk result (out.new ≡ out.old ++ rows.Sent (order_to (now_of m.event out.old) doc why (tasks.Activate entry epoch length index memo address)) ∷ []) }
        ensures kept { OnOk result (KeepsStore self.old self.new) }
    {
        let task = Task::Activate {
            entry,
            epoch,
            length,
            index,
            memo,
            address,
        };
        let proc = self.proc_there(doc);
        let job = count_order(&mut self.sent, proc, doc, why, task)?;
        let nr = job.nr;
        out.push(RowKind::Sent { job })?;
        self.shown.insert(nav, nr)?;
        self.last.insert(nav, doc)?;
        self.tree.give(nav, entry, doc, why);
        self.tree.set_told(nav, Some((length, index)));
        self.tree.set_moved(nav, self.running.is_some());
        self.kept.take(state);
        Ok(())
    }

    /// A document is to be made for a navigable, in a process; its document state is no load's.
    pub fn make(
        &mut self,
        out: &mut Out,
        nav: NavId,
        state: StateId,
        proc: ProcId,
        address: Address,
        initial: bool,
        why: Why,
    ) -> Result<(), OutOfMemory>
        ghost e: { InEvent }
        requires work { IsAtWork e out.old self.old }
        requires for_other { IsForOther e.checking why }
        requires due { IsMakeDue e.header (now_of e out.old) (next_order (now_of e out.old).jobs proc (record { 0 = self.old.documents + 1 }) why (tasks.Populate nav state address initial)) nav state address initial }
        requires known { (desk_of (now_of e out.old) proc).known ≡ 0 }
        requires unknown { sight_in (map sight (now_of e out.old).documents) (record { 0 = self.old.documents + 1 }) ≡ None }
        requires unmade { lookup (is_state state) self.old.making.entries ≡ None }
        requires unloaded { ongoing_load (now_of e out.old) state ≡ None }
        requires kept_docs { AreKeptDocs (now_of e out.old) }
        ensures work { OnOk result (IsAtWork e out.new self.new) }
        ensures out { OnOk result (out.new ≡ out.old ++ rows.Sent (next_order (now_of e out.old).jobs proc (record { 0 = self.old.documents + 1 }) why (tasks.Populate nav state address initial)) ∷ []) }
        ensures kept { OnOk result (KeepsStore self.old self.new) }
    {
        let task = Task::Populate {
            nav,
            state,
            address,
            initial,
        };
        let doc = DocId(self.documents + 1);
        let job = count_order(&mut self.sent, proc, doc, why, task)?;
        out.push(RowKind::Sent { job })?;
        self.making.insert(state, doc)?;
        self.whose.insert(doc, Birth { nav, proc })?;
        self.documents += 1;
        Ok(())
    }

    /// A document is frozen, by an order to its process; the navigable that is awake on it and those below fall asleep.
    pub fn freeze(
        &mut self,
        out: &mut Out,
        sleepers: &Navs,
        doc: DocId,
        why: Why,
    ) -> Result<(), OutOfMemory>
        ghost m: { InMove }
        requires work { IsAtWorkFor m.move m.event out.old self.old }
        requires for_other { IsForOther m.event.checking why }
        requires may { MaySend m.move m.event out.old (order_to (now_of m.event out.old) doc why tasks.Freeze) }
        requires there { IsThere (now_of m.event out.old) doc }
        requires are { (other : NavId) → has_nav (sleepers_with (now_of m.event out.old) doc) other ≡ has_nav sleepers.now other }
        requires listed { AreThere self.old.tree sleepers.now }
        ensures work { OnOk result (IsAtWorkFor m.move m.event out.new self.new) }
        ensures out { OnOk result (out.new ≡ out.old ++ rows.Sent (order_to (now_of m.event out.old) doc why tasks.Freeze) ∷ []) }
        ensures kept { OnOk result (KeepsStore self.old self.new) }
    {
        let proc = self.proc_there(doc);
        let job = count_order(&mut self.sent, proc, doc, why, Task::Freeze)?;
        out.push(RowKind::Sent { job })?;
        let moves = is_for(self.running, why);
        sleep_each(&mut self.tree, sleepers, why, moves);
        Ok(())
    }

    /// A document is discarded, by an order to its process; the navigable that is awake on it and those below fall asleep, and it is kept no longer.
    pub fn discard(
        &mut self,
        out: &mut Out,
        sleepers: &Navs,
        doc: DocId,
        state: StateId,
        why: Why,
    ) -> Result<(), OutOfMemory>
        ghost m: { InDiscard }
        requires work { IsAtWorkIn m.sweeps m.move m.event out.old self.old }
        requires for_other { IsForOther m.event.checking why }
        requires may { MaySend m.move m.event out.old (order_to (now_of m.event out.old) doc why tasks.Discard) }
        requires gone { IsToGo (now_of m.event out.old) self.old.tree self.old.loads sleepers.now doc state }
        requires listed { AreThere (discarded state self.old.tree) sleepers.now }
        requires own_state { AreOfOwnStates (now_of m.event out.old).documents (now_of m.event out.old).kept doc state }
        requires lets_go { LetsGo m.move self.old.kept.keep (kept_states (now_of m.event out.old)) state }
        requires free { MayDiscardIn m.sweeps m.event }
        ensures work { OnOk result (IsAtWorkIn m.sweeps m.move m.event out.new self.new) }
        ensures out { OnOk result (out.new ≡ out.old ++ rows.Sent (order_to (now_of m.event out.old) doc why tasks.Discard) ∷ []) }
        ensures kept { OnOk result (KeepsStore self.old self.new) }
    {
        let proc = self.proc_there(doc);
        let job = count_order(&mut self.sent, proc, doc, why, Task::Discard)?;
        out.push(RowKind::Sent { job })?;
        self.tree.discard(state);
        self.kept.forget(state);
        let moves = is_for(self.running, why);
        sleep_each(&mut self.tree, sleepers, why, moves);
        Ok(())
    }
}

/// Whether the traversal that runs is the reason.
fn is_for(running: Option<ReqId>, why: Why) -> bool
    ensures { result ≡ is_for running why }
{
    match (running, why) {
        (Some(run), Why::Req(req)) => run == req,
        _ => false,
    }
}

/// Puts a navigable to sleep; it is moved where that is for the traversal that runs.
fn sleep_one(tree: &mut NavTree, nav: NavId, why: Why, moves: bool)
    requires { IsSome (node_of nav tree.old) }
    ensures { tree.new ≡ with_nav (asleep_for why moves) nav tree.old }
{
    tree.sleep(nav, why);
    if moves {
        tree.set_moved(nav, true);
    }
}

/// Puts these navigables to sleep.
#[tactic(auto, using(crate::proofs::Asleep::sleeper_there, crate::proofs::Asleep::one_more))]
fn sleep_each(tree: &mut NavTree, navs: &Navs, why: Why, moves: bool)
    requires { AreThere tree.old navs.now }
    ensures { tree.new ≡ sleep_all navs.now why moves tree.old }
{
    for i in 0..navs.len() {
        let nav = *navs.at(i);
        sleep_one(tree, nav, why, moves);
    }
}
