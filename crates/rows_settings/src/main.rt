//! `rows_settings FILE ..`: rows of scalars, trees, sets of keys, contents, held texts and transactions, and of what operators write: words of commands,
//! releases, migrations, user data and generators.
//!
//! - `scalar JSON` is a copy of the scalar, printed. `tree JSON` are the pairs that the text is, nested again, `patch-tree JSON` those of a patch of
//!   `settings`, and `pairs KEY JSON` the pairs below the key. `names TEXT` says what the text may name.
//! - `joined`, `without` and `shares` take two lists of keys, and `removed` a list and a key.
//! - `text TEXT` reads a held text, `held MEMBERS` that of the members, as `live:[["a",1]]`: both print a copy of it. `with MEMBERS` comes to nothing.
//!   `print` prints what is held. `dump TEXT` reads a dump, and prints it as a dump again.
//! - Of the live settings: `below KEY`, `put KEY JSON`, `take KEY`, `put-meta KEY NAME JSON`, `take-meta KEY NAME` and `may-be-weak KEYS`; `setting KEY` of
//!   none. What is taken is printed, and whether something is there then.
//! - Of transactions: `transactions`, `pending NAME`, `put-pending NAME KEY JSON`, `take-pending NAME KEY`, `patch NAME PAIRS`, `commit NAME` and
//!   `drop NAME`.
//! - `words A|B` tells the command that the words between the bars spell, or `usage`.
//! - `release` tells of the release of the lines below it how many transitions and migrations it has, or its first fault. `plan FROM TO` tells the steps of
//!   the plan from one version to another by that release.
//! - `forward KIND WORDS` and `backward KIND WORDS` tell the held text that a migration of this kind makes of that of the members below, as
//!   `live:[["a",1]]`. `remove-weak` and `no-op` have no words; `add-settings`, `add-prefixes` and `remove-settings` have a list of keys, `rename-settings`
//!   the two keys of each pair, `replace-string` a key and two texts, `add-metadata` and `remove-metadata` a key and a name, and `replace-metadata` a key, a
//!   name and two values.
//! - `user-data` tells the pairs of the text below it, or its first fault.
//! - `generators` tells the generators of the text below it, or its first fault. `answer STATUS OUTPUT` is how the next program answers, in order, and `asks`
//!   tells what those last generators give where no key has a value, or the one that it names: the pairs or the refusal, and each program that was asked.
//!   After the answers that there are, a program fails.
#![tactic(auto)]

mod commands;
mod contents;
mod generators;
mod held;
mod lines;
mod migrations;
mod releases;
mod sets;
mod transactions;
mod trees;

use crate::generators::Asking;
use row_files::{Given, Subject, all_go, key_of, line};
use settings_tree::{Held, is_setting};
use std::alloc::Global;
use std::io;
use std::process::ExitCode;

#[derive(Drop)]
struct Rows {
    held: Box<Held>,
    asking: Asking,
}

impl Rows {
    // Tells what the step on what is held comes to.
    fn tell(&mut self, out: &mut Vec<u8>, word: &str, text: &str) -> io::Result<()> {
        let alloc = *out.allocator();
        match word {
            "with" | "held" => {
                let text = held::text_of(alloc, text)?;
                held::hold(out, &mut self.held, text.as_str(), word == "held")
            }
            "text" => held::hold(out, &mut self.held, text, true),
            "print" => held::print(out, &self.held),
            "setting" if is_setting(&key_of(alloc, text)?) => line(out, &["yes"]),
            "setting" => line(out, &["no"]),
            "below" | "may-be-weak" => contents::tell(out, &self.held.live, word, text),
            "put" | "take" | "put-meta" | "take-meta" => {
                contents::change(out, &mut self.held.live, word, text)
            }
            "put-pending" | "take-pending" => {
                transactions::change_pending(out, &mut self.held.pending, word, text)
            }
            _ => transactions::tell(out, &self.held, word, text),
        }
    }
}

impl Subject for Rows {
    fn new(alloc: Global) -> io::Result<Rows> {
        let (text, answers) = (Vec::new(alloc), Vec::new(alloc));
        Ok(Rows {
            held: Box::new(alloc, held::nothing(alloc))?,
            asking: Asking { text, answers },
        })
    }

    fn make(&mut self, out: &mut Vec<u8>, given: Given<'_>) -> io::Result<()> {
        match given.word {
            "scalar" | "tree" | "patch-tree" | "pairs" => {
                trees::tell(out, given.word, given.input_text()?)
            }
            "joined" | "without" | "shares" | "removed" => {
                sets::tell(out, given.word, given.input_text()?)
            }
            "names" => sets::names(out, given.input()),
            "dump" => held::dump(out, given.input()),
            "words" => commands::tell(out, given.words()?),
            "release" => releases::tell(out, given.input()),
            "plan" => releases::plans(out, given),
            "forward" | "backward" => migrations::tell(out, given),
            "user-data" => generators::user_data(out, given.input()),
            "generators" => self.asking.read(out, given.input()),
            "answer" => self.asking.answer(*out.allocator(), given.input_text()?),
            "asks" => self.asking.ask(out, given.input_text()?),
            _ => self.tell(out, given.word, given.input_text()?),
        }
    }
}

fn main(rt: HostRuntime) -> io::Result<ExitCode> {
    all_go::<Rows>(&rt)
}
