//! Flags of words.
ghost use Rattle.std.specs.Prelude.{◌≡◌, ◌↔◌, Bool, Some, Result, IfOk, Err, IsTrue, map, string_bytes, codes, true, option_map};
ghost use Rattle.clap.specs.Words.{app_of, is_simple_and_free};
ghost use Rattle.command_words.specs.Orders.{GivesFlag};

use crate::WordsError;
use crate::simple::matches_in;
use clap::Command;

/// Whether clap gives the value of a flag that was given.
pub fn is_true(text: Option<&str>) -> bool
    ensures { IsTrue result ↔ (option_map (λ s. s.now) text.entry ≡ Some (codes "true")) }
{
    match text {
        Some(text) => text == "true",
        None => false,
    }
}

/// Whether the words give the flag, where the command takes them. `Usage` exactly where it doesn't; `Memory` where it runs out of
/// memory.
pub fn take_flag<'a>(
    command: Command<'a>,
    id: &str,
    words: &'a [String],
) -> Result<bool, WordsError>
    requires { is_simple_and_free (app_of command) ≡ true }
    ensures ok { IfOk result
        (GivesFlag (app_of command.entry) id.now (map string_bytes words.entry.now)) }
    ensures usage { result ≡ Err WordsError.Usage
        → (given : Bool) → ¬ GivesFlag (app_of command.entry) id.now
        (map string_bytes words.entry.now) given }
{
    match matches_in(command, words) {
        Ok(matches) => Ok(is_true(matches.get_str(id))),
        Err(e) => Err(e),
    }
}
