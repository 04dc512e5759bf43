//! The two ways of a migration.
ghost use Rattle.std.specs.Prelude.{◌≡◌, ◌≢◌, IfOk, IfErr, Ok, Err};
ghost use Rattle.migrate_helpers.specs.Borrowed.{step, step_of};
ghost use Rattle.migrate_helpers.specs.Mapped.{after_step, held_edited, without_names, name_replaced, strong};
ghost use Rattle.migrate_helpers.specs.declared.map_error.MapError.TheVariants.{Memory};

use crate::live::{edited_live, without_weak};
use crate::map_error::MapError;
use crate::mapping::Mapping;
use crate::metadata::{remove_names, replace_name};
use crate::migration::Migration;
use crate::pending::edited_pending;
use crate::step::{Edit, Step};
use json_trees::Scalar;
use key_names::{Key, Text};
use settings_tree::Held;
use std::alloc::AllocError;

// The live settings come first, so their conflict is the one that is reported.
#[tactic(auto, using(crate::specs::Laws::Refusals::refusals))]
fn edited_held(edit: &Edit, held: &Held) -> Result<Held, MapError>
    ensures ok { IfOk result (λ made. held_edited (step_of edit.now) held.now ≡ Ok made) }
    ensures err { IfErr result (λ e. e ≢ Memory → held_edited (step_of edit.now) held.now ≡ Err e) }
{
    let live = edited_live(edit, &held.live)?;
    let alloc = held.live.weak().allocator();
    let pending = edited_pending(alloc, edit, &held.pending)?;
    Ok(Held {
        live,
        pending,
        owed: held.owed.copy()?,
        image: held.image.copy()?,
    })
}

fn without_names(held: &Held, key: &Key, names: &[Text]) -> Result<Held, AllocError>
    ensures { IfOk result (λ made. made ≡ record held.now {
      live = record held.now.live
          { metadata = without_names held.now.live.metadata key.now names.now };
    }) }
{
    let mut made = held.copy()?;
    remove_names(&mut made.live, key, names);
    Ok(made)
}

fn with_name(
    held: &Held,
    key: &Key,
    name: &Text,
    old: &Scalar,
    new: &Scalar,
) -> Result<Held, AllocError>
    ensures { IfOk result (λ made. made ≡ record held.now {
      live = record held.now.live {
        metadata =
            name_replaced held.now.live.metadata key.now name.now old.now new.now;
      };
    }) }
{
    let mut made = held.copy()?;
    replace_name(&mut made.live, key, name, old, new)?;
    Ok(made)
}

fn without_weak_settings(held: &Held) -> Result<Held, AllocError>
    ensures { IfOk result (λ made. made ≡ record held.now { live = strong held.now.live }) }
{
    Ok(Held {
        live: without_weak(&held.live)?,
        pending: held.pending.copy()?,
        owed: held.owed.copy()?,
        image: held.image.copy()?,
    })
}

// What is held after the step.
#[tactic(auto, using(crate::proofs::Borrowed::after_edit))]
fn after_step(taken: &Step, held: &Held) -> Result<Held, MapError>
    ensures ok { IfOk result (λ made. after_step (step taken.now) held.now ≡ Ok made) }
    ensures err { IfErr result (λ e. e ≢ Memory → after_step (step taken.now) held.now ≡ Err e) }
{
    match taken {
        Step::Stays => Ok(held.copy()?),
        Step::Edits(edit) => edited_held(edit, held),
        Step::RemovesNames(key, names) => Ok(without_names(held, key, names)?),
        Step::ReplacesName(key, name, old, new) => Ok(with_name(held, key, name, old, new)?),
        Step::RemovesWeak => Ok(without_weak_settings(held)?),
    }
}

impl Mapping for Migration {
    ghost use Rattle.migrate_helpers.specs.Mapped.{forward_of, backward_of};
    ghost use Rattle.migrate_helpers.specs.Laws.{keeps_forward, keeps_backward, refuses_forward, refuses_backward};

    ghost forward_of = { forward_of };

    ghost backward_of = { backward_of };

    ghost keeps_forward = { keeps_forward };

    ghost keeps_backward = { keeps_backward };

    ghost refuses_forward = { refuses_forward };

    ghost refuses_backward = { refuses_backward };

    fn forward(&self, held: &Held) -> Result<Held, MapError> {
        after_step(&self.forward_step(), held)
    }

    fn backward(&self, held: &Held) -> Result<Held, MapError> {
        after_step(&self.backward_step(), held)
    }
}
