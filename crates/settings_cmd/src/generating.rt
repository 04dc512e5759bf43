//! The command `generate`.
ghost use Rattle.std.specs.Prelude.{◌≡◌, All, IsTrue, IsErrOf, IfOk, IfErr};
ghost use Rattle.outside.specs.Faults.{HasCauseOf};
ghost use Rattle.key_names.specs.Key.{is_prefix};
ghost use Rattle.json_trees.specs.Collected.{result_map};
ghost use Rattle.settings_tree.specs.Content.{settings_key};
ghost use Rattle.store_open.specs.Opening.{IsSoundOpened};
ghost use Rattle.core_commands.specs.Handing.{HasSpawnCause};
ghost use Rattle.setting_generators.specs.Asking.{wanted};
ghost use Rattle.settings_cmd.specs.Carried.{GeneratesOrNot, Generates};
ghost use Rattle.settings_cmd.specs.Generators.{generate_tx, Answers, BeginWithSettings, HandsError, HandsFailed, IsGenerated, IsOfGenerating};

use crate::generator_file::read_generators;
use command_outcome::Refusal;
use core_commands::{commit_pairs, not_opened};
use key_names::{Bytes, Key};
use outside::{Asker, Disk};
use setting_generators::{GenerateError, Generators};
use settings_tree::{Content, Scalar, TxName};
use std::alloc::{AllocError, Global};
use store_open::{Opened, open_store};

// The transaction of the command.
fn generate_tx(alloc: Global) -> Result<TxName, AllocError>
    ensures { IfOk result (λ tx. tx ≡ generate_tx) }
{
    match TxName::read(alloc, b"cli-generate")? {
        Some(tx) => Ok(tx),
        None => unreachable!(),
    }
}

// The program for the key could not be asked, or it ran out of memory to tell.
fn not_asked(key: &Key) -> Refusal
    ensures { HandsFailed key.now result }
{
    match key.print() {
        Ok(name) => Refusal::Spawn { name },
        Err(_) => Refusal::Memory,
    }
}

// Why the generators gave no values.
fn refused(error: GenerateError) -> Refusal
    ensures { HandsError error result }
{
    match error {
        GenerateError::Failed { key } => not_asked(&key),
        GenerateError::Status { key, number } => Refusal::GeneratorStatus { key, number },
        GenerateError::BadOutput { key } => Refusal::GeneratorOutput { key },
        GenerateError::Memory => Refusal::Memory,
    }
}

// The pairs that the generators give to the keys without a live value.
fn answers<S: Asker>(
    alloc: Global,
    generators: &Generators,
    live: &Content,
    spawner: &mut S,
) -> Result<Vec<(Key, Scalar)>, Refusal>
    requires settings { BeginWithSettings generators.now }
    ensures answers { Answers (wanted live.now generators.now) (S.asked spawner.old) (S.asked spawner.new) (result_map (λ pairs. pairs.items) result) }
    ensures settings { IfOk result (λ pairs. All (λ pair. IsTrue (is_prefix settings_key pair.0)) pairs.items) }
    ensures ran { S.runs spawner.new ≡ S.runs spawner.old }
    ensures of_generating { IfErr result IsOfGenerating }
    ensures no_disk { IsErrOf result Refusal.Disk → ⊥ }
    ensures spawn { HasSpawnCause (S.faults spawner.old) (S.faults spawner.new) result }
{
    match generators.ask_all(alloc, live, spawner) {
        Ok(pairs) => Ok(pairs),
        Err(error) => Err(refused(error)),
    }
}

// The pairs that the generators of the image give to an open store.
fn generated<D: Disk, S: Asker>(
    alloc: Global,
    store: &Opened,
    disk: &mut D,
    spawner: &mut S,
) -> Result<Vec<(Key, Scalar)>, Refusal>
    ensures same { D.told disk.new ≡ D.told disk.old }
    ensures gives { IsGenerated (S.asked spawner.old) (S.asked spawner.new) store.now (result_map (λ pairs. pairs.items) result) (D.told disk.old) }
    ensures settings { IfOk result (λ pairs. All (λ pair. IsTrue (is_prefix settings_key pair.0)) pairs.items) }
    ensures ran { S.runs spawner.new ≡ S.runs spawner.old }
    ensures cause { HasCauseOf Refusal.Disk (D.faults disk.old) (D.faults disk.new) result }
    ensures spawn { HasSpawnCause (S.faults spawner.old) (S.faults spawner.new) result }
{
    match read_generators(alloc, disk, &store.image.model.types)? {
        Some(generators) => answers(alloc, &generators, &store.held.live, spawner),
        None => Ok(Vec::new(alloc)),
    }
}

// Commits the pairs that the generators give to a store that was just opened.
fn generate_in<D: Disk, S: Asker>(
    alloc: Global,
    store: Opened,
    tx: TxName,
    disk: &mut D,
    spawner: &mut S,
) -> Result<Bytes, Refusal>
    requires opened { IsSoundOpened store }
    requires tx { tx ≡ generate_tx }
    ensures generates { Generates (S.asked spawner.old) (S.asked spawner.new) store result (D.told disk.old) (D.told disk.new) }
    ensures ran { S.runs spawner.new ≡ S.runs spawner.old }
    ensures cause { HasCauseOf Refusal.Disk (D.faults disk.old) (D.faults disk.new) result }
    ensures spawn { HasSpawnCause (S.faults spawner.old) (S.faults spawner.new) result }
{
    let pairs = generated(alloc, &store, disk, spawner)?;
    commit_pairs(alloc, store, tx, &pairs, disk)
}

/// Gives the settings without a value their first ones: opens the store, without boot; reads the generators of the image; asks the
/// commands of those whose key has no live value, one after another, rising by key; and commits what they give by the transaction
/// `cli-generate`, where it is anything. It answers the keys that were set, as a list in compact JSON (RFC 8259), and a line feed; `[]`
/// where there are none. No job is begun.
///
/// Why the store can't be opened comes first; then `BadImage` exactly where the generators file is there and has a fault, with the
/// first; then, by the first command that gives no value, `GeneratorStatus`, `GeneratorOutput`, or `Spawn` with the printed key where it
/// could not be asked; then `Refused` where the types refuse a value. Nothing is set after any of these. `Disk` where the disk failed;
/// `Memory` where it runs out of memory.
pub(crate) fn generate<D: Disk, S: Asker>(
    alloc: Global,
    disk: &mut D,
    spawner: &mut S,
) -> Result<Bytes, Refusal>
    ensures generated { GeneratesOrNot (S.asked spawner.old) (S.asked spawner.new) result (D.told disk.old) (D.told disk.new) }
    ensures ran { S.runs spawner.new ≡ S.runs spawner.old }
    ensures cause { HasCauseOf Refusal.Disk (D.faults disk.old) (D.faults disk.new) result }
    ensures spawn { HasSpawnCause (S.faults spawner.old) (S.faults spawner.new) result }
{
    let tx = generate_tx(alloc)?;
    match open_store(alloc, disk, false) {
        Ok(store) => generate_in(alloc, store, tx, disk, spawner),
        Err(error) => Err(not_opened(error)),
    }
}
