//! The pending maps as an edit leaves them.
ghost use Rattle.std.specs.Prelude.{◌≡◌, ◌≢◌, IfOk, IfErr, Ok, Err};
ghost use Rattle.std.specs.FinMap.{entries};
ghost use Rattle.migrate_helpers.specs.Mapped.{transactions_edited, first_conflict, unless_conflict};
ghost use Rattle.migrate_helpers.specs.Borrowed.{step_of};
ghost use Rattle.migrate_helpers.specs.declared.map_error.MapError.TheVariants.{Memory};

use crate::edits::edited;
use crate::map_error::MapError;
use crate::step::Edit;
use settings_maps::{Copied, Transactions};
use settings_tree::PendMaps;
use std::alloc::Global;

/// The pending maps as the edit leaves them, without the transactions that it leaves
/// empty. It takes a logarithmic step or two for each key.
///
/// `Conflict` with the least key that is then a proper prefix of another key of its transaction, of
/// the first transaction that has such a key, exactly where one has; `Memory` where it runs out of memory.
pub(crate) fn edited_pending(
    alloc: Global,
    edit: &Edit,
    pending: &PendMaps,
) -> Result<PendMaps, MapError>
    ensures ok { IfOk result (λ made. let step = step_of edit.now
        in unless_conflict (first_conflict step (entries pending.now)) (transactions_edited step pending.now) ≡ Ok made) }
    ensures err { IfErr result (λ e. e ≢ Memory → (let step = step_of edit.now
        in unless_conflict (first_conflict step (entries pending.now)) (transactions_edited step pending.now) ≡ Err e)) }
{
    let mut made = Transactions::new(alloc);
    for (tx, keys) in pending.transactions().iter() {
        let keys = edited(edit, keys.copied()?)?;
        made.set_keys(tx.copy()?, keys)?;
    }
    Ok(PendMaps::of(made))
}
