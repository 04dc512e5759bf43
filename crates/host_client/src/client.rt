//! The top call of the program `settingsctl`.
ghost use Rattle.std.specs.Prelude.{map};
ghost use Rattle.outside.specs.Spawner.{texts};
ghost use Rattle.host_client.specs.Ended.{IsPrinted, IsRun};

use crate::command::command_of;
use crate::stop::Stop;
use crate::turns::carry_out;
use outside::{Link, Sink, say};
use std::alloc::Global;

// Prints the line, and answers the exit status.
#[tactic(auto, using(outside::proofs::Sayings::sayings))]
fn printed<O: Sink>(out: &mut O, status: u8, line: &[u8]) -> u8
    ensures { IsPrinted status line.now (O.faults out.old) (O.faults out.new) (O.told out.old) (O.told out.new) result }
{
    match say(out, line) {
        Ok(()) => status,
        Err(_) if status == 1 => 1,
        Err(_) => 12,
    }
}

/// Runs the program, from its words to the links, one for each question, and the output, and answers the exit status.
///
/// The words are METHOD, TARGET and, where it is given, BODY of one question, or a verb:
///
/// | Words | Asks | Prints |
/// |---|---|---|
/// | `get KEY ..` | `GET /settings` with `keys`; where a key has no value of its own then with `prefix` for each | the tree, as `settings get` does |
/// | `set KEY=JSON ..`, `unset KEY ..` | `POST /set`, and then as `wait` | the keys |
/// | `edit TX KEY=JSON ..` | `PATCH /settings` | nothing |
/// | `pending TX`, `pending` | `GET /tx` | the tree of what is pending |
/// | `drop TX` | `DELETE /tx` | the keys that were pending |
/// | `transactions` | `GET /tx/list` | the names |
/// | `commit TX` | `POST /tx/commit_and_apply`, and then as `wait` | the keys |
/// | `plan TX`, `plan` | `GET /plan` | the lines of the plan |
/// | `plan KEY=JSON ..` | the same in a transaction of its own: `DELETE /tx`, `PATCH /settings`, `GET /plan`, `DELETE /tx` | the lines |
/// | `show FILE`, `show FILE TX` | `GET /plan/file` | the bytes as they are |
/// | `apply`, `apply --all` | `POST /tx/apply`, and then as `wait` | nothing |
/// | `wait`, `wait SECONDS` | `GET /job`, until it doesn't run or there is no further link | nothing |
/// | `status` | `GET /store`, `GET /job` | the version, the job, what is owed and what is pending, by lines |
/// | `verify` | `GET /verify` | a line for each file |
///
/// After `--text` before the first KEY what follows each `=` is a text as it is.
///
/// | Status | Where | Line |
/// |---|---|---|
/// | 0 | a reply of 200 to 299; of `set`, `unset`, `commit`, `apply` and `wait`, a job that is done | what is printed, a body as a line |
/// | 1 | it ran out of memory, or the job did | `settingsctl: memory` |
/// | 2 | the words order nothing, or their question is too long | `settingsctl: usage` |
/// | 3, 5, 10 | the job failed: `disk`, `spawn SERVICE`, any other cause | `settingsctl: CAUSE` |
/// | 4 | only where a link failed | `settingsctl: link` |
/// | 10 | the job doesn't run, and something is owed | `settingsctl: owed` |
/// | 10 | a file of a plan refuses | the lines of the plan |
/// | 12 | only where the output failed, in place of any other status but 1 | what was taken |
/// | 13 | a reply of another status; nothing is at a key of `get` or below it | `settingsctl: refused STATUS BODY` |
/// | 19 | a file is neither current nor owed | the lines of `verify` |
/// | 21 | the input up to its end is no reply (`read_reply`), or tells not what was asked | `settingsctl: bad reply` |
/// | 22 | the input has more than 16,777,216 bytes | `settingsctl: reply too long` |
/// | 24 | each link was used and there is more to ask | `settingsctl: still running` |
pub fn run_client<L: Link, O: Sink>(
    alloc: Global,
    words: &[String],
    links: &mut [L],
    out: &mut O,
) -> u8
    ensures { IsRun (texts words.now) (map L.faults links.old) (map L.faults links.new) (map L.told links.old) (map L.told links.new)
        (O.faults out.old) (O.faults out.new) (O.told out.old) (O.told out.new) result }
{
    let command = match command_of(alloc, words) {
        Ok(Some(command)) => command,
        Ok(None) => return printed(out, 2, b"settingsctl: usage\n"),
        Err(_) => return printed(out, 1, b"settingsctl: memory\n"),
    };
    match carry_out(alloc, &command, links) {
        Ok(ending) => printed(out, ending.status, ending.line.as_slice()),
        Err(Stop::Link) => printed(out, 4, b"settingsctl: link\n"),
        Err(Stop::BadReply) => printed(out, 21, b"settingsctl: bad reply\n"),
        Err(Stop::TooLong) => printed(out, 22, b"settingsctl: reply too long\n"),
        Err(Stop::Unfinished) => printed(out, 24, b"settingsctl: still running\n"),
        Err(Stop::Memory) => printed(out, 1, b"settingsctl: memory\n"),
    }
}
