//! What is counted while requests are served.
ghost use Rattle.std.specs.Prelude.{◌≡◌, ◌+◌, true, false, IfOk, OnOk};
ghost use Rattle.load_input.specs.Counts.{no_counts, with_reply};

use std::alloc::AllocError;

/// How many requests were answered with success and how many were not, how many turns wrote a file, and how many programs
/// were run.
#[derive(Clone, Copy, Debug, Drop)]
pub(crate) struct Counts {
    /// Requests that were answered with success.
    pub(crate) ok: u64,
    /// Requests that were not.
    pub(crate) refused: u64,
    /// Turns that wrote a file.
    pub(crate) written: u64,
    /// Programs that were run.
    pub(crate) runs: u64,
}

// One more, or no room for it.
fn one_more(n: u64) -> Result<u64, AllocError>
    ensures { IfOk result (λ more. more ≡ n + 1) }
{
    n.checked_add(1).ok_or(AllocError)
}

impl Counts {
    /// Nothing was counted.
    pub(crate) fn none() -> Counts
        ensures { result ≡ no_counts }
    {
        Counts {
            ok: 0,
            refused: 0,
            written: 0,
            runs: 0,
        }
    }

    /// A request was answered with success.
    pub(crate) fn count_ok(&mut self) -> Result<(), AllocError>
        ensures { OnOk result (self.new ≡ with_reply true self.old) }
    {
        self.ok = one_more(self.ok)?;
        Ok(())
    }

    /// A request was not.
    pub(crate) fn count_refused(&mut self) -> Result<(), AllocError>
        ensures { OnOk result (self.new ≡ with_reply false self.old) }
    {
        self.refused = one_more(self.refused)?;
        Ok(())
    }

    /// A program was run.
    pub(crate) fn count_run(&mut self) -> Result<(), AllocError>
        ensures { OnOk result (self.new ≡ record self.old { runs = self.old.runs + 1 }) }
    {
        self.runs = one_more(self.runs)?;
        Ok(())
    }

    /// A file was written.
    pub(crate) fn count_written(&mut self) -> Result<(), AllocError>
        ensures { OnOk result (self.new ≡ record self.old { written = self.old.written + 1 }) }
    {
        self.written = one_more(self.written)?;
        Ok(())
    }
}
