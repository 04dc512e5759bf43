//! Generators that are asked.
ghost use Rattle.std.specs.Prelude.{◌≡◌, ◌∷◌, []};
ghost use Rattle.json_trees.specs.Collected.{result_map};
ghost use Rattle.setting_generators.specs.Asking.{Appends, Asks, AsksOne, FailsBy, wanted};
ghost use Rattle.setting_generators.specs.Generators.{seen};

use crate::generators::Generators;
use crate::output::{MOST_OUTPUT, answer_value};
use crate::{GenerateError, Generator};
use json_trees::Scalar;
use key_names::Key;
use outside::{AskErr, Asker};
use settings_tree::Content;
use std::alloc::Global;

// The value that the generator's command gives.
fn ask_one<S: Asker>(
    alloc: Global,
    generator: &Generator,
    spawner: &mut S,
) -> Result<Scalar, GenerateError>
    ensures asked { AsksOne (seen generator.now) (S.asked spawner.old) (S.asked spawner.new) result }
    ensures ran { S.runs spawner.new ≡ S.runs spawner.old }
    ensures cause { FailsBy (S.faults spawner.old) (S.faults spawner.new) result }
{
    let key = generator.key.copy()?;
    match spawner.ask(alloc, &generator.words, &[], MOST_OUTPUT) {
        Ok(answer) => answer_value(alloc, &key, &answer),
        Err(AskErr::Failed) => Err(GenerateError::Failed { key }),
        Err(AskErr::Memory) => Err(GenerateError::Memory),
    }
}

// Asks the generator where its key has no live value, and appends the pair that it gives.
fn ask_wanted<S: Asker>(
    alloc: Global,
    generator: &Generator,
    live: &Content,
    spawner: &mut S,
    pairs: &mut Vec<(Key, Scalar)>,
) -> Result<(), GenerateError>
    ensures asked { Appends (wanted live.now (seen generator.now ∷ [])) (S.asked spawner.old) (S.asked spawner.new) pairs.old.items pairs.new.items result }
    ensures ran { S.runs spawner.new ≡ S.runs spawner.old }
    ensures cause { FailsBy (S.faults spawner.old) (S.faults spawner.new) result }
{
    if live.value(&generator.key).is_some() {
        return Ok(());
    }
    let value = ask_one(alloc, generator, spawner)?;
    pairs.push((generator.key.copy()?, value))?;
    Ok(())
}

impl Generators {
    /// The values that the commands give to the keys without a live value, rising by key. Their programs are asked one after
    /// the other, without input, for at most 1,048,576 bytes of output; a key with a live value is passed over.
    ///
    /// It stops at the first refusal, which tells the key: `Failed` where the program could not be run, and the spawner's count
    /// of faults rose; `Status` where it ended with another status than 0; `BadOutput` where the output is longer, or is no
    /// scalar as `Scalar::of_json` reads it. `Memory` may come at any place.
    pub fn ask_all<S: Asker>(
        &self,
        alloc: Global,
        live: &Content,
        spawner: &mut S,
    ) -> Result<Vec<(Key, Scalar)>, GenerateError>
        ensures asked { Asks (wanted live.now self.now) (S.asked spawner.old) (S.asked spawner.new) (result_map (λ pairs. pairs.items) result) }
        ensures ran { S.runs spawner.new ≡ S.runs spawner.old }
        ensures cause { FailsBy (S.faults spawner.old) (S.faults spawner.new) result }
    {
        let mut pairs = Vec::new(alloc);
        for generator in &self.entries {
            ask_wanted(alloc, generator, live, spawner, &mut pairs)?;
        }
        Ok(pairs)
    }
}
