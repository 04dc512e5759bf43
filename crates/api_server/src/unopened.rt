//! A request is given up where the store could not be opened again.
ghost use Rattle.std.specs.Prelude.{◌≡◌, IfOk};
ghost use Rattle.outside.specs.PathText.{joined};
ghost use Rattle.api_http.specs.Replies.{refused};
ghost use Rattle.api_server.specs.Handled.{fault_of, TellsFault, GivesUp};

use crate::handled::Handled;
use api_http::{Refusal, Reply, print_refusal};
use key_names::Text;
use outside::Path;
use std::alloc::{AllocError, Global};
use store_open::OpenError;

// The path as a text: its names have bytes of ASCII alone.
fn path_text(path: &Path) -> Result<Text, AllocError>
    ensures { IfOk result (λ text. text ≡ joined path.now) }
{
    match String::from_utf8(path.print()?) {
        Ok(text) => Ok(Text::of(text)),
        Err(_) => Err(AllocError),
    }
}

// What is at fault. The only error is out of memory.
fn fault_text(alloc: Global, error: &OpenError) -> Result<Text, AllocError>
    ensures { IfOk result (λ text. text ≡ fault_of error.now) }
{
    match error {
        OpenError::NoStore | OpenError::Failed | OpenError::Memory => {
            Ok(Text::of(String::new(alloc)))
        }
        OpenError::BadLink { path } => path_text(path),
        OpenError::BadJournal { path } => path_text(path),
        OpenError::Damaged { path } => path_text(path),
        OpenError::OldFormat { directory } => path_text(directory),
        OpenError::BadImage {
            file,
            kind: _,
            at: _,
        } => file.copy(),
        OpenError::IllTyped { key } => key.print(),
    }
}

fn store_reply(alloc: Global, error: &OpenError) -> Result<Reply, AllocError>
    ensures { IfOk result (λ reply. reply ≡ refused (Refusal.Store (fault_of error.now))) }
{
    let at = fault_text(alloc, error)?;
    print_refusal(alloc, &Refusal::Store { at })
}

// What is there was refused, or it ran out of memory in reporting it.
fn not_opened(alloc: Global, error: &OpenError) -> Handled
    ensures { TellsFault error.now result }
{
    match store_reply(alloc, error) {
        Ok(reply) => Handled::NotOpened(reply),
        Err(_) => Handled::Memory,
    }
}

/// What a request comes to that is given up, for the store was not opened.
pub(crate) fn given_up(alloc: Global, error: &OpenError) -> Handled
    ensures { GivesUp error.now result }
{
    match error {
        OpenError::Failed => Handled::DiskFault,
        OpenError::Memory => Handled::Memory,
        _ => not_opened(alloc, error),
    }
}
