//! What ends a seed too soon.
use std::alloc::{AllocError, AllocFailed, Global};

/// What ends a seed too soon.
#[derive(Drop)]
pub enum Trouble {
    /// It ran out of memory.
    Memory,
    /// The program and the machine differ, as the text tells.
    Differs(String),
}

impl From<AllocError> for Trouble {
    fn from(_: AllocError) -> Self {
        Trouble::Memory
    }
}

impl<T: Drop> From<AllocFailed<T>> for Trouble {
    fn from(_: AllocFailed<T>) -> Self {
        Trouble::Memory
    }
}

/// The trouble that this text tells.
pub fn differs(alloc: Global, text: &str) -> Trouble {
    match String::from_str(alloc, text) {
        Ok(text) => Trouble::Differs(text),
        Err(_) => Trouble::Memory,
    }
}

/// What is shown has to be what the machine wants.
pub fn same(alloc: Global, shown: &[u8], wanted: &[u8], at: &str) -> Result<(), Trouble> {
    if shown == wanted {
        return Ok(());
    }
    let shown = String::from_utf8_lossy(alloc, shown)?;
    let wanted = String::from_utf8_lossy(alloc, wanted)?;
    let (shown, wanted) = (shown.as_str(), wanted.as_str());
    Err(Trouble::Differs(format!(in alloc; "{at}: {shown}, not {wanted}")?))
}
