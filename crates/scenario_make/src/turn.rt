//! The line of a turn.
ghost use Rattle.std.specs.Prelude.{◌≡◌, IfOk, OnOk};
ghost use Rattle.scenario_make.specs.Turns as spec;

use crate::draws::Draws;
use crate::error::MakeError;
use crate::words::{fragment_text, page_address, page_path};
use address::Text;
use log_model::{Action, Mode, Request};
use scenario_text::ScenarioLine;
use std::alloc::Global;
use tab_ids::{NavId, ProcId};

/// A load of a page of a host.
#[tactic(auto, unfolding(crate::specs::Turns::load_turn))]
fn load(alloc: Global, draws: &mut Draws, nav: NavId) -> Result<ScenarioLine, MakeError>
    ensures line { IfOk result (λ line. line ≡ (spec.load_turn nav.0 draws.old.kept).line) }
    ensures kept { OnOk result (draws.new.kept ≡ (spec.load_turn nav.0 draws.old.kept).kept) }
{
    let host = draws.below(3);
    let page = draws.below(4);
    let address = page_address(alloc, host, page)?;
    Ok(ScenarioLine::Ask(Request::Load {
        nav,
        mode: Mode::Auto,
        address,
    }))
}

/// A push of a page's path.
#[tactic(auto, unfolding(crate::specs::Turns::push_turn))]
fn push(alloc: Global, draws: &mut Draws, nav: NavId) -> Result<ScenarioLine, MakeError>
    ensures line { IfOk result (λ line. line ≡ (spec.push_turn nav.0 draws.old.kept).line) }
    ensures kept { OnOk result (draws.new.kept ≡ (spec.push_turn nav.0 draws.old.kept).kept) }
{
    let page = draws.below(4);
    let memo = Text::of(alloc, b"s")?;
    let reference = page_path(alloc, page)?;
    Ok(ScenarioLine::Ask(Request::Poke {
        nav,
        action: Action::Push {
            memo: Some(memo),
            reference: Some(reference),
        },
    }))
}

/// A fragment of the top's document.
#[tactic(auto, unfolding(crate::specs::Turns::fragment_turn))]
fn fragment(alloc: Global, draws: &mut Draws) -> Result<ScenarioLine, MakeError>
    ensures line { IfOk result (λ line. line ≡ (spec.fragment_turn draws.old.kept).line) }
    ensures kept { OnOk result (draws.new.kept ≡ (spec.fragment_turn draws.old.kept).kept) }
{
    let page = draws.below(4);
    let text = fragment_text(alloc, page)?;
    Ok(ScenarioLine::Ask(Request::Poke {
        nav: NavId(0),
        action: Action::Fragment { text },
    }))
}

/// The end of a process.
#[tactic(auto, unfolding(crate::specs::Turns::kill_turn))]
fn kill(draws: &mut Draws) -> ScenarioLine
    ensures line { result ≡ (spec.kill_turn draws.old.kept).line }
    ensures kept { draws.new.kept ≡ (spec.kill_turn draws.old.kept).kept }
{
    let proc = ProcId(draws.below(3) + 1);
    ScenarioLine::Kill { proc }
}

/// A reload, an edit, the end of a process, or an eviction.
#[tactic(auto, unfolding(crate::specs::Turns::rare_turn))]
fn rare(draws: &mut Draws, which: u32) -> ScenarioLine
    ensures line { result ≡ (spec.rare_turn which draws.old.kept).line }
    ensures kept { draws.new.kept ≡ (spec.rare_turn which draws.old.kept).kept }
{
    match which {
        0 => ScenarioLine::Ask(Request::Reload { nav: NavId(0) }),
        1 => ScenarioLine::Ask(Request::Poke {
            nav: NavId(0),
            action: Action::Edit,
        }),
        2 => kill(draws),
        _ => ScenarioLine::Evict,
    }
}

/// The line of a turn of a kind.
#[tactic(auto, unfolding(crate::specs::Turns::turn_of_kind))]
fn line_of_kind(alloc: Global, draws: &mut Draws, kind: u32) -> Result<ScenarioLine, MakeError>
    ensures line { IfOk result (λ line. line ≡ (spec.turn_of_kind kind draws.old.kept).line) }
    ensures kept { OnOk result (draws.new.kept ≡ (spec.turn_of_kind kind draws.old.kept).kept) }
{
    match kind {
        0 => load(alloc, draws, NavId(0)),
        1 => load(alloc, draws, NavId(1)),
        2 => push(alloc, draws, NavId(0)),
        3 => push(alloc, draws, NavId(1)),
        4 => fragment(alloc, draws),
        5 => Ok(ScenarioLine::Ask(Request::Go { delta: -1 })),
        6 => Ok(ScenarioLine::Ask(Request::Go { delta: 1 })),
        _ => {
            let which = draws.below(4);
            Ok(rare(draws, which))
        }
    }
}

/// The line of the next turn.
#[tactic(auto, unfolding(crate::specs::Turns::turn_after))]
pub fn next_line(alloc: Global, draws: &mut Draws) -> Result<ScenarioLine, MakeError>
    ensures line { IfOk result (λ line. line ≡ (spec.turn_after draws.old.kept).line) }
    ensures kept { OnOk result (draws.new.kept ≡ (spec.turn_after draws.old.kept).kept) }
{
    let kind = draws.below(8);
    line_of_kind(alloc, draws, kind)
}
