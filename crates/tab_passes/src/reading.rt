//! What the passes read of the tables.
ghost use Rattle.std.specs.Prelude.{◌≡◌};
ghost use Rattle.log_model.specs.Places.{pair_in};
ghost use Rattle.step_index.specs.Held.{history_held};
ghost use Rattle.tab_passes.specs.Passing.{aim_in};

use entry_store::Store;
use tab_doors::Tables;
use tab_ids::Step;

/// The step that the history is brought to: that of the goal of the traversal that runs, else the current one.
pub fn aim(tables: &Tables) -> Step
    ensures { result.0 ≡ aim_in (history_held tables.now.store) tables.now.running tables.now.goal }
{
    match tables.running {
        Some(_) => tables.store.used_at(tables.goal),
        None => tables.store.current(),
    }
}

/// The length and index at a step.
pub fn pair_at(tables: &Tables, step: Step) -> (u32, u32)
    ensures { (result.0, result.1) ≡ pair_in (history_held tables.now.store).rows step.0 }
{
    tables.store.length_index(step)
}
