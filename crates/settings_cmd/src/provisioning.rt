//! The command `user-data`.
ghost use Rattle.std.specs.Prelude.{◌≡◌, All, IsTrue, Some, IfOk, IfErr, IsErrOf, codes, ℕ, List};
ghost use Rattle.outside.specs.History.{tree_of};
ghost use Rattle.outside.specs.Tree.{node_at, file_in};
ghost use Rattle.outside.specs.Told.{WhereTold};
ghost use Rattle.outside.specs.Faults.{HasCauseOf};
ghost use Rattle.key_names.specs.Key.{is_prefix};
ghost use Rattle.json_trees.specs.Collected.{result_map};
ghost use Rattle.settings_tree.specs.Content.{settings_key};
ghost use Rattle.store_open.specs.Opening.{IsSoundOpened};
ghost use Rattle.settings_cmd.specs.Carried.{Carried, IsProvided, Provides};
ghost use Rattle.settings_cmd.specs.UserData.{data_tx, data_word, TellsOfData, TellsOfDataFault, IsOfData};

use command_outcome::Refusal;
use core_commands::{commit_pairs, not_opened};
use key_names::{Bytes, Key, Text};
use outside::{Disk, Path};
use settings_tree::{Scalar, TxName};
use std::alloc::{AllocError, Global};
use store_open::{Opened, open_store};
use user_data::{UserDataError, UserDataKind};

// The transaction of the command.
fn data_tx(alloc: Global) -> Result<TxName, AllocError>
    ensures { IfOk result (λ tx. tx ≡ data_tx) }
{
    match TxName::read(alloc, b"user-data")? {
        Some(tx) => Ok(tx),
        None => unreachable!(),
    }
}

// The word for a fault; out of memory has none.
fn data_word(kind: UserDataKind) -> &'static str
    ensures { result.now ≡ data_word kind }
{
    match kind {
        UserDataKind::NotToml => "not-toml",
        UserDataKind::NotSettings => "not-settings",
        UserDataKind::BadKey => "bad-key",
        UserDataKind::BadValue => "bad-value",
        UserDataKind::Memory => "",
    }
}

// The refusal that tells of a fault of user data.
fn bad_data(alloc: Global, kind: &str, at: Text) -> Result<Refusal, AllocError>
    ensures { IfOk result (λ refusal. refusal ≡ Refusal.UserData kind.now at) }
{
    Ok(Refusal::UserData {
        kind: Text::from_str(alloc, kind)?,
        at,
    })
}

fn missing_data(alloc: Global) -> Result<Refusal, AllocError>
    ensures { IfOk result (λ refusal. refusal ≡ Refusal.UserData (codes "missing") (codes "-")) }
{
    let at = Text::from_str(alloc, "-")?;
    bad_data(alloc, "missing", at)
}

// Why the text gives no pairs.
fn refused(alloc: Global, error: UserDataError) -> Result<Refusal, AllocError>
    ensures { IfOk result (TellsOfDataFault error) }
{
    if error.kind == UserDataKind::Memory {
        return Ok(Refusal::Memory);
    }
    bad_data(alloc, data_word(error.kind), error.at)
}

// The pairs that the text gives.
fn pairs_of(alloc: Global, text: &[u8]) -> Result<Vec<(Key, Scalar)>, Refusal>
    ensures tells { TellsOfData (Some text.now) (result_map (λ pairs. pairs.items) result) }
    ensures settings { IfOk result (λ pairs. All (λ pair. IsTrue (is_prefix settings_key pair.0)) pairs.items) }
    ensures of_data { IfErr result IsOfData }
    ensures no_disk { IsErrOf result Refusal.Disk → ⊥ }
{
    match user_data::read(alloc, text) {
        Ok(pairs) => Ok(pairs),
        Err(error) => Err(refused(alloc, error)?),
    }
}

// The pairs of the user data at the path.
fn data_at<D: Disk>(alloc: Global, disk: &mut D, path: &Path) -> Result<Vec<(Key, Scalar)>, Refusal>
    ensures same { D.told disk.new ≡ D.told disk.old }
    ensures tells { WhereTold (D.told disk.old) (λ h. TellsOfData (file_in (node_at (tree_of h) path.now)) (result_map (λ pairs. pairs.items) result)) }
    ensures settings { IfOk result (λ pairs. All (λ pair. IsTrue (is_prefix settings_key pair.0)) pairs.items) }
    ensures of_data { IfErr result IsOfData }
    ensures cause { HasCauseOf Refusal.Disk (D.faults disk.old) (D.faults disk.new) result }
{
    match disk.read(alloc, path)? {
        Some(text) => pairs_of(alloc, &text),
        None => Err(missing_data(alloc)?),
    }
}

// Commits the pairs of the user data at the path to a store that was just opened.
fn provide<D: Disk>(
    alloc: Global,
    store: Opened,
    tx: TxName,
    disk: &mut D,
    path: &Path,
) -> Result<Bytes, Refusal>
    requires opened { IsSoundOpened store }
    requires tx { tx ≡ data_tx }
    ensures provides { Provides path.now store result (D.told disk.old) (D.told disk.new) }
    ensures unspawned { (name : List ℕ) → IsErrOf result (Refusal.Spawn name) → ⊥ }
    ensures no_door { IsErrOf result Refusal.Door → ⊥ }
    ensures cause { HasCauseOf Refusal.Disk (D.faults disk.old) (D.faults disk.new) result }
{
    let pairs = data_at(alloc, disk, path)?;
    commit_pairs(alloc, store, tx, &pairs, disk)
}

/// Sets what user data say: opens the store, without boot; reads the file at the path; and commits its pairs by the transaction
/// `user-data`, where it has any. It answers the keys that were set, as a list in compact JSON (RFC 8259), and a line feed; `[]` where
/// there are none. No job is begun.
///
/// Why the store can't be opened comes first; then `UserData` exactly where no file is at the path or it has a fault, with the first;
/// then `Refused` where the types refuse a value, and nothing is set then. `Disk` where the disk failed; `Memory` where it runs
/// out of memory.
pub(crate) fn provision<D: Disk>(alloc: Global, disk: &mut D, path: &Path) -> Result<Bytes, Refusal>
    ensures provided { Carried (IsProvided path.now) result (D.told disk.old) (D.told disk.new) }
    ensures unspawned { (name : List ℕ) → IsErrOf result (Refusal.Spawn name) → ⊥ }
    ensures no_door { IsErrOf result Refusal.Door → ⊥ }
    ensures cause { HasCauseOf Refusal.Disk (D.faults disk.old) (D.faults disk.new) result }
{
    let tx = data_tx(alloc)?;
    match open_store(alloc, disk, false) {
        Ok(store) => provide(alloc, store, tx, disk, path),
        Err(error) => Err(not_opened(error)),
    }
}
