//! The values of pairs. The only error of each function is out of memory.
ghost use Rattle.std.specs.Prelude.{◌≡◌, ◌++◌, OnOk, IfOk, codes, map, string_bytes};
ghost use Rattle.std.specs.List.{flat_map};
ghost use Rattle.key_names.specs.Key.{printed};
ghost use Rattle.event_lines.specs.Lines.{separated, listed, owed_text, cause_text};

use key_names::{Key, Text};
use machine_answers::{cause_words, render_path, render_word};
use settings_machine::Cause;
use settings_tree::{Owed, Pending};
use std::alloc::{AllocError, Global};

// Puts a comma and the key at the end.
fn push_key(text: &mut String, key: &Key) -> Result<(), AllocError>
    ensures { OnOk result (string_bytes text.new ≡ string_bytes text.old ++ (codes "," ++ printed key.now)) }
{
    let key = key.print()?;
    text.push(',')?;
    text.push_str(key.as_str())
}

// Puts a comma and the key at the end, for each key.
fn push_keys(text: &mut String, keys: &[Key]) -> Result<(), AllocError>
    ensures { OnOk result (string_bytes text.new
        ≡ string_bytes text.old ++ flat_map (λ t. codes "," ++ t) (map printed keys.now)) }
{
    for key in keys {
        push_key(text, key)?;
    }
    Ok(())
}

/// The keys, as they are printed, with commas between. It takes the time of printing each.
pub fn listed(alloc: Global, keys: &[Key]) -> Result<Text, AllocError>
    ensures { IfOk result (λ text. text ≡ listed keys.now) }
{
    let Some((first, others)) = keys.split_first() else {
        return Text::from_str(alloc, "");
    };
    let first = first.print()?;
    let mut text = String::from_str(alloc, first.as_str())?;
    push_keys(&mut text, others)?;
    Ok(Text::of(text))
}

/// The keys of the pairs, without their values.
pub fn keys_of(alloc: Global, pairs: &[(Key, Pending)]) -> Result<Vec<Key>, AllocError>
    ensures { IfOk result (λ keys. keys.items ≡ map (λ pair. pair.0) pairs.now) }
{
    let mut keys = Vec::new(alloc);
    for pair in pairs {
        keys.push(pair.0.copy()?)?;
    }
    Ok(keys)
}

/// What is owed: `all`, or the keys. It takes the time of printing each.
pub fn owed_text(alloc: Global, owed: &Owed) -> Result<Text, AllocError>
    ensures { IfOk result (λ text. text ≡ owed_text owed.now) }
{
    match owed {
        Owed::All => Text::from_str(alloc, "all"),
        Owed::Keys(keys) => listed(alloc, keys.as_slice()),
    }
}

/// The words, with spaces between.
pub fn words_text(alloc: Global, words: &[String]) -> Result<Text, AllocError>
    ensures { IfOk result (λ text. text ≡ separated (codes " ") (map (λ w. string_bytes w) words.now)) }
{
    let text = words.join(alloc, " ")?;
    Ok(Text::of(text))
}

fn refusal_text(alloc: Global, file: &str, word: &str, path: &str) -> Result<Text, AllocError>
    ensures { IfOk result (λ text. text ≡ codes "render " ++ file.now ++ codes " " ++ word.now ++ codes " " ++ path.now) }
{
    let text = format!(in alloc; "render {file} {word} {path}")?;
    Ok(Text::of(text))
}

/// Why a job failed: `disk`, `spawn SERVICE`, `render FILE WORD PATH`, `status SERVICE NUMBER` or `memory`.
pub fn cause_text(alloc: Global, cause: &Cause) -> Result<Text, AllocError>
    ensures { IfOk result (λ text. text ≡ cause_text cause.now) }
{
    match cause {
        Cause::Render { file, error } => {
            refusal_text(alloc, file.as_str(), render_word(error), render_path(error))
        }
        _ => cause_words(alloc, cause),
    }
}
