//! The words of what a document made of an action.
ghost use Rattle.std.specs.Prelude.{◌≡◌, fold};
ghost use Rattle.log_text.specs.Lines as spec;

use crate::names::{put_delta, put_entry, put_nav, put_text};
use crate::naming::put_memo;
use crate::out::Out;
use log_model::What;

/// What a document made of an action.
pub fn put_made<O: Out>(out: &mut O, what: &What)
    ensures { out.new ≡ fold O.after out.old (spec.spaced (spec.made_words what.now)) }
{
    match what {
        What::Push {
            entry,
            memo,
            address,
        } => {
            out.put(b" push");
            put_entry(out, *entry);
            put_memo(out, memo);
            put_text(out, address.text());
        }
        What::Replace {
            over,
            entry,
            memo,
            address,
        } => {
            out.put(b" replace");
            put_entry(out, *over);
            put_entry(out, *entry);
            put_memo(out, memo);
            put_text(out, address.text());
        }
        What::AddFrame { nav } => {
            out.put(b" frame");
            put_nav(out, *nav);
        }
        What::RemoveFrame { nav } => {
            out.put(b" remove");
            put_nav(out, *nav);
        }
        What::Go { delta } => {
            out.put(b" go");
            put_delta(out, *delta);
        }
        What::Edit => out.put(b" edit"),
    }
}
