//! Names and words that others have chosen, in a line for a person.
use std::alloc::{AllocError, Global};

/// The text as it is; in double quotes with escapes, as `"a\nb"`, where it is empty or has a control character, so that each is seen, and none makes a line
/// of its own or speaks to the terminal. Or out of memory.
pub fn plain(alloc: Global, text: &str) -> Result<String, AllocError> {
    if text.is_empty() || text.chars().any(|c| c.is_control()) {
        format!(in alloc; "{text:?}")
    } else {
        String::from_str(alloc, text)
    }
}
