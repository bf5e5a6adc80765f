//! Whether two orders are the same, field for field.
ghost use Rattle.std.specs.Prelude.{◌≡◌};
ghost use Rattle.log_model.specs.Equal.{same_memo};
ghost use Rattle.proc_work.specs.Same as spec;

use address::Text;
use log_model::{Job, Order, Task};

/// Whether two orders are the same, as they were sent and as they were taken up.
pub(crate) fn same_order(a: &Order, b: &Order) -> bool
    ensures { result ≡ spec.same_order a.now b.now }
{
    same_job(&a.job, &b.job) && a.dirty == b.dirty
}

/// Whether they are the same as they were sent.
fn same_job(a: &Job, b: &Job) -> bool
    ensures { result ≡ spec.same_job a.now b.now }
{
    a.nr == b.nr
        && a.proc == b.proc
        && a.incarnation == b.incarnation
        && a.doc == b.doc
        && a.why == b.why
        && same_task(&a.task, &b.task)
}

/// Whether they ask the same of a document.
fn same_task(a: &Task, b: &Task) -> bool
    ensures { result ≡ spec.same_task a.now b.now }
{
    match a {
        Task::Populate {
            nav,
            state,
            address,
            initial,
        } => match b {
            Task::Populate {
                nav: nav_b,
                state: state_b,
                address: address_b,
                initial: initial_b,
            } => {
                nav == nav_b
                    && state == state_b
                    && address.text() == address_b.text()
                    && initial == initial_b
            }
            _ => false,
        },
        Task::Activate {
            entry,
            epoch,
            length,
            index,
            memo,
            address,
        } => match b {
            Task::Activate {
                entry: entry_b,
                epoch: epoch_b,
                length: length_b,
                index: index_b,
                memo: memo_b,
                address: address_b,
            } => {
                entry == entry_b
                    && epoch == epoch_b
                    && length == length_b
                    && index == index_b
                    && same_memo(memo, memo_b)
                    && address.text() == address_b.text()
            }
            _ => false,
        },
        Task::Update { length, index } => match b {
            Task::Update {
                length: length_b,
                index: index_b,
            } => length == length_b && index == index_b,
            _ => false,
        },
        Task::Freeze => matches!(b, Task::Freeze),
        Task::Discard => matches!(b, Task::Discard),
        Task::Ask { slot, cause } => match b {
            Task::Ask {
                slot: slot_b,
                cause: cause_b,
            } => slot == slot_b && cause == cause_b,
            _ => false,
        },
        Task::DoFragment { req, mode, address } => match b {
            Task::DoFragment {
                req: req_b,
                mode: mode_b,
                address: address_b,
            } => { req == req_b && mode == mode_b && address.text() == address_b.text() }
            _ => false,
        },
    }
}

/// Whether two memos are the same.
fn same_memo(a: &Option<Text>, b: &Option<Text>) -> bool
    ensures { result ≡ same_memo a.now b.now }
{
    match a {
        Some(a) => match b {
            Some(b) => a.bytes() == b.bytes(),
            None => false,
        },
        None => b.is_none(),
    }
}
