//! Whether all navigables stand at a step.
ghost use Rattle.std.specs.Prelude.{◌≡◌};
ghost use Rattle.apply_plan.specs.Standing.{are_settled};
ghost use Rattle.step_index.specs.Held.{history_held};

use apply_plan::settled;
use tab_doors::Tables;
use tab_ids::Step;

/// Whether each navigable that is shown at the step stands there, as the tables tell: it was given its target, and its document has told that it is shown.
pub fn stand_at(tables: &Tables, step: Step) -> bool
    ensures { result ≡ are_settled (history_held tables.now.store).rows step.0 tables.now.tree }
{
    settled(&tables.store, &tables.tree, step)
}
