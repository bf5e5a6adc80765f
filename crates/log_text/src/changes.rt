//! The words of a change of the history.
ghost use Rattle.std.specs.Prelude.{◌≡◌, fold};
ghost use Rattle.log_text.specs.Lines as spec;

use crate::names::{put_entry, put_nav, put_number, put_state, put_text};
use crate::naming::put_memo;
use crate::out::Out;
use log_model::Change;

/// A change, with its name and what it names.
pub fn put_change<O: Out>(out: &mut O, change: &Change)
    ensures { out.new ≡ fold O.after out.old (spec.spaced (spec.change_words change.now)) }
{
    match change {
        Change::Push {
            nav,
            entry,
            state,
            address,
            memo,
        } => {
            out.put(b" push");
            put_nav(out, *nav);
            put_entry(out, *entry);
            put_state(out, *state);
            put_memo(out, memo);
            put_text(out, address.text());
        }
        Change::Replace {
            nav,
            over,
            entry,
            state,
            address,
            memo,
        } => {
            out.put(b" replace");
            put_nav(out, *nav);
            put_entry(out, *over);
            put_entry(out, *entry);
            put_state(out, *state);
            put_memo(out, memo);
            put_text(out, address.text());
        }
        Change::AddFrame {
            owner,
            nav,
            entry,
            state,
        } => {
            out.put(b" frame");
            put_state(out, *owner);
            put_nav(out, *nav);
            put_entry(out, *entry);
            put_state(out, *state);
        }
        Change::RemoveFrame { nav } => {
            out.put(b" remove");
            put_nav(out, *nav);
        }
        Change::Traverse { goal } => {
            out.put(b" traverse");
            put_number(out, u64::from(goal.0));
        }
        Change::Reload { nav } => {
            out.put(b" reload");
            put_nav(out, *nav);
        }
        Change::Edit => out.put(b" edit"),
    }
}
