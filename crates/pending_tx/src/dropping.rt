//! The end of a transaction without a commit.
ghost use Rattle.std.specs.Prelude.{◌≡◌, IfOk};
ghost use Rattle.settings_tree.specs.Laid.{laid, KeepsPrefixRule, NamesWeak, TellsWeak};
ghost use Rattle.pending_tx.specs.Changes.{NamesOnlyChanges};
ghost use Rattle.pending_tx.specs.Transactions.{dropped, keys_of};

use crate::answers::Dropped;
use crate::ending::end;
use crate::reading::keys_of;
use settings_tree::{Change, Held, TxName};
use std::alloc::{AllocError, Global};

/// Ends the transaction; nothing else changes. Where there is none, it has no keys and the change
/// is empty. It takes a logarithmic step and a constant one for each key of the transaction. The only
/// error is out of memory.
pub fn drop_tx(alloc: Global, held: &Held, tx: &TxName) -> Result<Dropped, AllocError>
    ensures keys { IfOk result (λ d. d.keys ≡ keys_of held.now tx.now) }
    ensures laid { IfOk result (λ d. laid held.now d.change ≡ dropped held.now tx.now) }
    ensures rule { IfOk result (λ d. KeepsPrefixRule held.now → KeepsPrefixRule (laid held.now d.change)) }
    ensures weak { IfOk result (λ d. NamesWeak held.now d.change) }
    ensures told { IfOk result (λ d. TellsWeak held.now d.change) }
    ensures changes { IfOk result (λ d. NamesOnlyChanges held.now d.change) }
{
    let keys = keys_of(alloc, held, tx)?;
    let mut entries = Vec::new(alloc);
    end(&mut entries, tx, &keys)?;
    let change = Change::of(entries);
    Ok(Dropped { keys, change })
}
