//! What a mapping makes of what is held.
ghost use Rattle.std.specs.Prelude.{◌≡◌, ◌≢◌, Ok, Err, IfOk, IfErr};
ghost use Rattle.settings_tree.specs.Laid.{KeepsPrefixRule};
ghost use Rattle.migrate_helpers.specs.Kept.{Kept};
ghost use Rattle.migrate_helpers.specs.Mapped.{after_step};
ghost use Rattle.migrate_helpers.specs.Step.{backward_step, forward_step};
ghost use Rattle.migrate_chain.specs.Tasks.{step_in, RefusesStep};

use crate::task_error::TaskError;
use migrate_helpers::{MapError, Mapping, Migration};
use settings_tree::Held;

// What the mapping gives, forward or back.
fn mapped_by(migration: &Migration, back: bool, held: &Held) -> Result<Held, MapError>
    ensures ok { IfOk result (λ made. after_step (step_in (forward_step migration.now) (backward_step migration.now) back) held.now ≡ Ok made) }
    ensures err { IfErr result (λ e. e ≢ MapError.Memory
        → after_step (step_in (forward_step migration.now) (backward_step migration.now) back) held.now ≡ Err e) }
{
    if back {
        migration.backward(held)
    } else {
        migration.forward(held)
    }
}

/// What a migration makes of what is held, forward or back: what its mapping gives. It refuses `Conflict` exactly where the mapping
/// does, and `Memory` where it runs out of memory.
pub(crate) fn made_by(migration: &Migration, back: bool, held: &Held) -> Result<Held, TaskError>
    ensures made { IfOk result (λ made. after_step (step_in (forward_step migration.now) (backward_step migration.now) back) held.now ≡ Ok made) }
    ensures kept { KeepsPrefixRule held.now → IfOk result (Kept held.now) }
    ensures refused { IfErr result (RefusesStep (step_in (forward_step migration.now) (backward_step migration.now) back) held.now) }
{
    match mapped_by(migration, back, held) {
        Ok(made) => Ok(made),
        Err(MapError::Conflict { key }) => Err(TaskError::Conflict { key }),
        Err(MapError::Memory) => Err(TaskError::Memory),
    }
}
