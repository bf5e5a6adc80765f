//! Rounds of steps of the processes and of the coordinator.
ghost use Rattle.std.specs.Prelude.{◌≡◌, ◌<◌, ◌∷◌, [], true, false, not, None, Some, IfErr, IfOk, IsErr, IsSome, OnOk, length};
ghost use Rattle.log_model.specs.Logs.{seen_of, is_still, is_idle, in_hand_of};
ghost use Rattle.log_model.specs.Seen.{desk_of};
ghost use Rattle.scenario_text.specs.declared.line.ScenarioLine.TheVariants as lines;
ghost use Rattle.scenario_text.specs.Follows.{a_round, does, does_all, is_passed, settles, turn_of};
ghost use Rattle.world.specs.Open.{row_limit};
ghost use Rattle.world.specs.Sited.{SomeWaits};
ghost use Rattle.world.specs.Steps.{IsBuilt, Steps};
ghost use Rattle.scenario_play.specs.Courses.{IsOfHand, Plays, line_of, order_of};
ghost use Rattle.scenario_play.specs.Moves.{HaveTurns, IsFault, MovesIf, has_poke, has_order, has_mail, has_report};

use handler_table::HandlerTable;
use log_model::Order;
use proc_work::work;
use tab_ids::ProcId;
use world::{Event, Reply, StepError, World};

/// Goes in rounds until nothing is in transit.
pub(crate) fn settle(world: &mut World, handlers: &HandlerTable) -> Result<(), StepError>
    requires kinds { world.old.kinds ≡ handlers.now.kinds.items }
    requires open { world.old.closed ≡ false }
    requires turns { HaveTurns world.old.header }
    ensures open { OnOk result (world.new.closed ≡ false) }
    ensures header { world.new.header ≡ world.old.header }
    ensures kinds { world.new.kinds ≡ world.old.kinds }
    ensures faults { IfErr result (IsFault world.new) }
    ensures still { OnOk result (is_still (seen_of world.new.log) ≡ true) }
    ensures plays { Plays settles world.old.log result world.new.log }
{
    'rounds: while !world.is_still() {
        round(world, handlers)?;
    }
    Ok(())
}

/// One round, through all processes that a scenario may name.
fn round(world: &mut World, handlers: &HandlerTable) -> Result<(), StepError>
    requires kinds { world.old.kinds ≡ handlers.now.kinds.items }
    requires open { world.old.closed ≡ false }
    requires turns { HaveTurns world.old.header }
    requires busy { SomeWaits world.old.header (seen_of world.old.log) }
    ensures open { OnOk result (world.new.closed ≡ false) }
    ensures header { world.new.header ≡ world.old.header }
    ensures kinds { world.new.kinds ≡ world.old.kinds }
    ensures faults { IfErr result (IsFault world.new) }
    ensures longer { OnOk result (length world.old.log < length world.new.log) }
    ensures below { OnOk result (length world.old.log < row_limit) }
    ensures plays { Plays a_round world.old.log result world.new.log }
{
    for number in 1..17 {
        turn(world, ProcId(number), handlers)?;
    }
    Ok(())
}

/// The turn of a process: it acts, works on an order, and the coordinator takes a report of it.
fn turn(world: &mut World, proc: ProcId, handlers: &HandlerTable) -> Result<(), StepError>
    requires kinds { world.old.kinds ≡ handlers.now.kinds.items }
    requires open { world.old.closed ≡ false }
    ensures header { world.new.header ≡ world.old.header }
    ensures kinds { world.new.kinds ≡ world.old.kinds }
    ensures faults { IfErr result (IsFault world.new) }
    ensures moves { OnOk result (MovesIf (not (is_idle (desk_of (seen_of world.old.log) proc))) world.old world.new) }
    ensures plays { Plays (does_all (turn_of proc)) world.old.log result world.new.log }
{
    // Where nothing waits, each of the steps would only say so.
    if is_idle(world, proc) {
        return Ok(());
    }
    act(world, proc)?;
    work_on(world, proc, handlers)?;
    deliver(world, proc)?;
    Ok(())
}

/// Whether nothing waits in a process.
fn is_idle(world: &World, proc: ProcId) -> bool
    requires open { world.now.closed ≡ false }
    ensures { result ≡ is_idle (desk_of (seen_of world.now.log) proc) }
{
    let waiting = world.waiting(proc);
    waiting.input == 0 && waiting.mail == 0 && world.in_hand(proc).is_none() && waiting.reports == 0
}

/// Lets a document of the process act, where a poke waits.
pub(crate) fn act(world: &mut World, proc: ProcId) -> Result<(), StepError>
    requires open { world.old.closed ≡ false }
    ensures header { world.new.header ≡ world.old.header }
    ensures kinds { world.new.kinds ≡ world.old.kinds }
    ensures faults { IfErr result (IsFault world.new) }
    ensures moves { OnOk result (MovesIf (has_poke world.old.log proc) world.old world.new) }
    ensures plays { Plays (does (lines.Act proc)) world.old.log result world.new.log }
{
    // Where no poke waits, the step would only say so.
    if !has_poke(world, proc) {
        return Ok(());
    }
    match step(world, Event::Act { proc }) {
        Ok(_) => return Ok(()),
        Err(error) => return Err(error),
    }
}

/// Whether a poke waits in a process.
fn has_poke(world: &World, proc: ProcId) -> bool
    requires open { world.now.closed ≡ false }
    ensures value { result ≡ has_poke world.now.log proc }
    ensures log { result ≡ false → is_passed (seen_of world.now.log) (lines.Act proc) ≡ true }
{
    world.waiting(proc).input > 0
}

/// Lets the process finish the order in hand, or else take one up and finish it.
fn work_on(world: &mut World, proc: ProcId, handlers: &HandlerTable) -> Result<(), StepError>
    requires kinds { world.old.kinds ≡ handlers.now.kinds.items }
    requires open { world.old.closed ≡ false }
    ensures header { world.new.header ≡ world.old.header }
    ensures kinds { world.new.kinds ≡ world.old.kinds }
    ensures faults { IfErr result (IsFault world.new) }
    ensures moves { OnOk result (MovesIf (has_order world.old.log proc) world.old world.new) }
    ensures plays { Plays (does_all (lines.Begin proc ∷ lines.Finish proc ∷ [])) world.old.log result world.new.log }
{
    match in_hand(world, proc)? {
        Some(order) => finish(world, proc, order, handlers),
        None => begin(world, proc, handlers),
    }
}

/// A copy of the order that a process has in hand.
fn in_hand(world: &World, proc: ProcId) -> Result<Option<Order>, StepError>
    requires open { world.now.closed ≡ false }
    ensures faults { IfErr result (IsFault world.now) }
    ensures log { IfOk result (λ order. order ≡ in_hand_of world.now.log proc) }
    ensures some { IsErr result → IsSome (in_hand_of world.now.log proc) }
{
    match world.in_hand(proc) {
        Some(order) => match order.copy() {
            Ok(order) => Ok(Some(order)),
            Err(_) => Err(StepError::OutOfMemory),
        },
        None => Ok(None),
    }
}

/// Lets the process finish the order in hand.
fn finish(
    world: &mut World,
    proc: ProcId,
    order: Order,
    handlers: &HandlerTable,
) -> Result<(), StepError>
    requires kinds { world.old.kinds ≡ handlers.now.kinds.items }
    requires open { world.old.closed ≡ false }
    requires hand { in_hand_of world.old.log proc ≡ Some order }
    ensures header { world.new.header ≡ world.old.header }
    ensures kinds { world.new.kinds ≡ world.old.kinds }
    ensures faults { IfErr result (IsFault world.new) }
    ensures moves { OnOk result (MovesIf true world.old world.new) }
    ensures plays { Plays (does (lines.Finish proc)) world.old.log result world.new.log }
{
    let done = match work(order, handlers) {
        Ok(done) => done,
        Err(_) => return Err(StepError::OutOfMemory),
    };
    match step(world, Event::Finish { proc, done }) {
        Ok(_) => return Ok(()),
        Err(error) => return Err(error),
    }
}

/// Lets the process take up the first order of its mail, and no more.
pub(crate) fn take_up(world: &mut World, proc: ProcId) -> Result<(), StepError>
    requires open { world.old.closed ≡ false }
    ensures open { OnOk result (world.new.closed ≡ false) }
    ensures header { world.new.header ≡ world.old.header }
    ensures kinds { world.new.kinds ≡ world.old.kinds }
    ensures faults { IfErr result (IsFault world.new) }
    ensures plays { Plays (does (lines.Begin proc)) world.old.log result world.new.log }
{
    match step(world, Event::Begin { proc }) {
        Ok(_) => return Ok(()),
        Err(error) => return Err(error),
    }
}

/// Lets the process finish the order in hand, if there is one.
pub(crate) fn finish_in_hand(
    world: &mut World,
    proc: ProcId,
    handlers: &HandlerTable,
) -> Result<(), StepError>
    requires kinds { world.old.kinds ≡ handlers.now.kinds.items }
    requires open { world.old.closed ≡ false }
    ensures open { OnOk result (world.new.closed ≡ false) }
    ensures header { world.new.header ≡ world.old.header }
    ensures kinds { world.new.kinds ≡ world.old.kinds }
    ensures faults { IfErr result (IsFault world.new) }
    ensures plays { Plays (does (lines.Finish proc)) world.old.log result world.new.log }
{
    match in_hand(world, proc)? {
        Some(order) => finish(world, proc, order, handlers),
        None => Ok(()),
    }
}

/// Lets the process take up the first order of its mail and finish it.
fn begin(world: &mut World, proc: ProcId, handlers: &HandlerTable) -> Result<(), StepError>
    requires kinds { world.old.kinds ≡ handlers.now.kinds.items }
    requires open { world.old.closed ≡ false }
    requires free { in_hand_of world.old.log proc ≡ None }
    ensures header { world.new.header ≡ world.old.header }
    ensures kinds { world.new.kinds ≡ world.old.kinds }
    ensures faults { IfErr result (IsFault world.new) }
    ensures moves { OnOk result (MovesIf (has_mail world.old.log proc) world.old world.new) }
    ensures plays { Plays (does_all (lines.Begin proc ∷ lines.Finish proc ∷ [])) world.old.log result world.new.log }
{
    // Where no order waits, the step would only say so.
    if !has_mail(world, proc) {
        return Ok(());
    }
    let reply = step(world, Event::Begin { proc })?;
    match taken(reply) {
        Some(order) => finish(world, proc, order, handlers),
        None => Ok(()),
    }
}

/// Whether an order waits in a process that has none in hand.
fn has_mail(world: &World, proc: ProcId) -> bool
    requires open { world.now.closed ≡ false }
    requires free { in_hand_of world.now.log proc ≡ None }
    ensures value { result ≡ has_mail world.now.log proc }
    ensures log { result ≡ false → is_passed (seen_of world.now.log) (lines.Begin proc) ≡ true }
{
    world.waiting(proc).mail > 0
}

/// The order that a process took up, if it did.
fn taken(reply: Reply) -> Option<Order>
    ensures { result ≡ order_of reply }
{
    match reply {
        Reply::Took(order) => Some(order),
        Reply::Accepted(_)
        | Reply::Answered
        | Reply::NoPrompt
        | Reply::Evicted
        | Reply::NothingKept
        | Reply::Acted
        | Reply::Voided
        | Reply::Busy
        | Reply::Finished
        | Reply::Stale
        | Reply::Delivered
        | Reply::Empty => None,
    }
}

/// Lets the coordinator take a report of the process, where one waits.
pub(crate) fn deliver(world: &mut World, proc: ProcId) -> Result<(), StepError>
    requires open { world.old.closed ≡ false }
    ensures header { world.new.header ≡ world.old.header }
    ensures kinds { world.new.kinds ≡ world.old.kinds }
    ensures faults { IfErr result (IsFault world.new) }
    ensures moves { OnOk result (MovesIf (has_report world.old.log proc) world.old world.new) }
    ensures plays { Plays (does (lines.Deliver proc)) world.old.log result world.new.log }
{
    match step(world, Event::Deliver { proc }) {
        Ok(_) => return Ok(()),
        Err(error) => return Err(error),
    }
}

/// One step of an open world.
pub(crate) fn step(world: &mut World, event: Event) -> Result<Reply, StepError>
    requires open { world.old.closed ≡ false }
    requires built { IsBuilt event }
    requires hand { IsOfHand world.old.kinds world.old.log event }
    ensures steps { Steps world.old event result world.new }
    ensures header { world.new.header ≡ world.old.header }
    ensures kinds { world.new.kinds ≡ world.old.kinds }
    ensures faults { IfErr result (IsFault world.new) }
    ensures plays { Plays (does (line_of event)) world.old.log result world.new.log }
{
    // Brings that the log is legal.
    let _log = world.log();
    match world.step(event) {
        Ok(reply) => Ok(reply),
        Err(StepError::Closed) => unreachable!(),
        Err(StepError::LogFull) => Err(StepError::LogFull),
        Err(StepError::UrlOverflow(overflowed)) => Err(StepError::UrlOverflow(overflowed)),
        Err(StepError::OutOfMemory) => Err(StepError::OutOfMemory),
    }
}
