//! The words of a task.
ghost use Rattle.std.specs.Prelude.{◌≡◌, fold};
ghost use Rattle.log_text.specs.Lines as spec;

use crate::names::{put_entry, put_nav, put_number, put_req, put_state, put_text};
use crate::naming::{put_initial, put_leave_cause, put_memo, put_mode};
use crate::out::Out;
use log_model::Task;

/// What an order asks of a document.
pub fn put_task<O: Out>(out: &mut O, task: &Task)
    ensures { out.new ≡ fold O.after out.old (spec.spaced (spec.task_words task.now)) }
{
    match task {
        Task::Populate {
            nav,
            state,
            address,
            initial,
        } => {
            out.put(b" populate");
            put_nav(out, *nav);
            put_state(out, *state);
            put_initial(out, *initial);
            put_text(out, address.text());
        }
        Task::Activate {
            entry,
            epoch,
            length,
            index,
            memo,
            address,
        } => {
            out.put(b" activate");
            put_entry(out, *entry);
            put_number(out, epoch.0);
            put_number(out, u64::from(*length));
            put_number(out, u64::from(*index));
            put_memo(out, memo);
            put_text(out, address.text());
        }
        Task::Update { length, index } => {
            out.put(b" update");
            put_number(out, u64::from(*length));
            put_number(out, u64::from(*index));
        }
        Task::Freeze => out.put(b" freeze"),
        Task::Discard => out.put(b" discard"),
        Task::Ask { slot, cause } => {
            out.put(b" ask");
            put_number(out, u64::from(*slot));
            put_leave_cause(out, *cause);
        }
        Task::DoFragment { req, mode, address } => {
            out.put(b" fragment");
            put_req(out, *req);
            put_mode(out, *mode);
            put_text(out, address.text());
        }
    }
}
