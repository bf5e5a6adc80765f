//! Each kind of order, worked on.
use address::Address;
use handler_table::HandlerTable;
use log_model::{HandlerKind, Job, LeaveCause, Leaving, Mode, Order, Outcome, Task, Verdict, Why};
use proc_work::{Done, work};
use std::alloc::Global;
use std::test::Fail;
use tab_ids::{DocId, EntryId, Epoch, JobId, NavId, ProcId, ReqId, StateId};

fn order(task: Task) -> Order {
    order_of(task, true)
}

fn order_of(task: Task, dirty: bool) -> Order {
    let job = Job {
        nr: JobId(3),
        proc: ProcId(1),
        incarnation: 0,
        doc: DocId(2),
        why: Why::Req(ReqId(4)),
        task,
    };
    Order { job, dirty }
}

/// A task of each kind, and its outcome.
fn tasks(alloc: Global) -> Result<[(Task, Outcome); 7], Fail> {
    let address = Address::read(alloc, b"http://a.test/")?;
    let populate = Task::Populate {
        nav: NavId(0),
        state: StateId(2),
        address: address.copy()?,
        initial: true,
    };
    let activate = Task::Activate {
        entry: EntryId { maker: 0, nr: 1 },
        epoch: Epoch(2),
        length: 1,
        index: 0,
        memo: None,
        address: address.copy()?,
    };
    let ask = Task::Ask {
        slot: 2,
        cause: LeaveCause::Load,
    };
    let fragment = Task::DoFragment {
        req: ReqId(4),
        mode: Mode::Auto,
        address,
    };
    Ok([
        (populate, Outcome::Populated(None)),
        (activate, Outcome::Activated),
        (
            Task::Update {
                length: 2,
                index: 1,
            },
            Outcome::Updated,
        ),
        (Task::Freeze, Outcome::Frozen),
        (Task::Discard, Outcome::Discarded),
        (ask, Outcome::Asked(Verdict::Leave)),
        (fragment, Outcome::Fragmented),
    ])
}

#[test]
fn each_order_has_the_outcome_of_its_task(rt: HostRuntime) -> Result<(), Fail> {
    let handlers = HandlerTable::new(rt.alloc());
    for (task, outcome) in tasks(rt.alloc())? {
        let done = work(order(task), &handlers)?;
        assert_eq!(rt; *done.outcome(), outcome);
        assert_eq!(rt; done.order().job.nr, JobId(3));
        assert_eq!(rt; done.kind(), None);
    }
    Ok(())
}

// Slot, unsaved edits, answer, kind: slot 0 prompts where the document is dirty, slot 1 is empty.
const ANSWERS: [(u8, bool, Verdict, Option<HandlerKind>); 3] = [
    (0, true, Verdict::Prompt, Some(HandlerKind::Dirty)),
    (0, false, Verdict::Leave, Some(HandlerKind::Dirty)),
    (1, true, Verdict::Leave, None),
];

#[test]
fn an_asked_document_answers_by_its_handler(rt: HostRuntime) -> Result<(), Fail> {
    let mut handlers = HandlerTable::new(rt.alloc());
    let ask: Box<dyn Fn(Leaving) -> Verdict + Send + Sync> = Box::new(
        rt.alloc(),
        |leaving: Leaving| {
            if leaving.dirty {
                Verdict::Prompt
            } else {
                Verdict::Leave
            }
        },
    )
    .map_err(|_| "memory")?;
    assert_eq!(rt; handlers.add(HandlerKind::Dirty, ask).ok(), Some(0));
    for (slot, dirty, answer, kind) in &ANSWERS {
        let task = Task::Ask {
            slot: *slot,
            cause: LeaveCause::Load,
        };
        let done = work(order_of(task, *dirty), &handlers)?;
        assert_eq!(rt; *done.outcome(), Outcome::Asked(*answer), "slot {slot}");
        assert_eq!(rt; done.kind(), *kind);
    }
    Ok(())
}

fn frozen(alloc: Global) -> Result<Done, Fail> {
    let handlers = HandlerTable::new(alloc);
    Ok(work(order(Task::Freeze), &handlers)?)
}

fn is_of(done: &Done, order: Order) -> bool {
    done.is_of(&order)
}

#[test]
fn an_order_is_the_one_that_was_worked_on(rt: HostRuntime) -> Result<(), Fail> {
    let done = frozen(rt.alloc())?;
    assert!(rt; is_of(&done, order(Task::Freeze)));
    assert!(rt; !is_of(&done, order(Task::Discard)));
    assert!(rt; !is_of(&done, order_of(Task::Freeze, false)));
    let mut other = order(Task::Freeze);
    other.job.incarnation = 1;
    assert!(rt; !is_of(&done, other));
    Ok(())
}
