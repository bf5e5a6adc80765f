//! The words of an accepted request: those of a scenario's line.
ghost use Rattle.std.specs.Prelude.{◌≡◌, ◌∷◌, decimal, fold};
ghost use Rattle.log_text.specs.Lines as spec;
ghost use Rattle.log_text.specs.Spellings.{memo_name};

use crate::names::{put_delta, put_number, put_text};
use crate::naming::{put_memo, put_mode};
use crate::out::Out;
use address::Text;
use log_model::{Action, Request};
use tab_ids::NavId;

/// NAV and MEMO, and a REF where there is one.
#[inline(always)]
fn put_entry_words<O: Out>(out: &mut O, nav: NavId, memo: &Option<Text>, reference: &Option<Text>)
    ensures { out.new ≡ fold O.after out.old (spec.spaced (decimal nav.0 ∷ memo_name memo.now ∷ spec.reference_words reference.now)) }
{
    put_number(out, u64::from(nav.0));
    put_memo(out, memo);
    if let Some(reference) = reference {
        put_text(out, reference.bytes());
    }
}

/// What the document of a navigable is to do.
fn put_action<O: Out>(out: &mut O, nav: NavId, action: &Action)
    ensures { out.new ≡ fold O.after out.old (spec.spaced (spec.action_words nav.0 action.now)) }
{
    match action {
        Action::Push { memo, reference } => {
            out.put(b" push");
            put_entry_words(out, nav, memo, reference);
        }
        Action::Replace { memo, reference } => {
            out.put(b" replace");
            put_entry_words(out, nav, memo, reference);
        }
        Action::Fragment { text } => {
            out.put(b" fragment");
            put_number(out, u64::from(nav.0));
            put_text(out, text.bytes());
        }
        Action::AddFrame { nav: child } => {
            out.put(b" frame");
            put_number(out, u64::from(nav.0));
            put_number(out, u64::from(child.0));
        }
        Action::RemoveFrame { nav: child } => {
            out.put(b" remove");
            put_number(out, u64::from(nav.0));
            put_number(out, u64::from(child.0));
        }
        Action::Go { delta } => {
            out.put(b" docgo");
            put_number(out, u64::from(nav.0));
            put_delta(out, *delta);
        }
        Action::Edit => {
            out.put(b" edit");
            put_number(out, u64::from(nav.0));
        }
    }
}

/// A request as the line of a scenario that asks for it.
pub fn put_request<O: Out>(out: &mut O, request: &Request)
    ensures { out.new ≡ fold O.after out.old (spec.spaced (spec.request_words request.now)) }
{
    match request {
        Request::Load { nav, mode, address } => {
            out.put(b" load");
            put_number(out, u64::from(nav.0));
            put_mode(out, *mode);
            put_text(out, address.text());
        }
        Request::Go { delta } => {
            out.put(b" go");
            put_delta(out, *delta);
        }
        Request::Reload { nav } => {
            out.put(b" reload");
            put_number(out, u64::from(nav.0));
        }
        Request::Poke { nav, action } => put_action(out, *nav, action),
    }
}
