//! Where a line holds: `@1-32`, `@40-`, `@33,39`, `@48/new`, and in a loop within a loop `@3/old:5/new`, `@:5`.

/// A turn of a loop: the number of the call that fails or is the last one, and what a crash leaves, if there is one.
#[derive(Clone, Copy)]
pub struct Turn<'a> {
    /// The number.
    pub number: u64,
    /// What the crash leaves; empty where there is none.
    pub kind: &'a str,
}

impl<'a> Turn<'a> {
    /// No loop.
    pub const NONE: Turn<'static> = Turn {
        number: 0,
        kind: "",
    };
}

fn is_in(range: &str, number: u64) -> bool {
    let Some((first, last)) = range.split_once('-') else {
        return range.parse::<u64>() == Ok(number);
    };
    first.parse::<u64>().unwrap_or(0) <= number && number <= last.parse::<u64>().unwrap_or(u64::MAX)
}

// Whether `RANGE` or `RANGE/KIND` says this turn; an empty text says each.
fn says(part: &str, turn: Turn<'_>) -> bool {
    match part.split_once('/') {
        Some((range, kind)) => kind == turn.kind && is_in(range, turn.number),
        None => part.is_empty() || is_in(part, turn.number),
    }
}

/// Whether a line with this condition holds in this turn of the loop around its step and this one of the loop within that.
pub fn holds(when: &str, outer: Turn<'_>, inner: Turn<'_>) -> bool {
    when.split(',').any(|part| {
        let (of_outer, of_inner) = part.split_once(':').unwrap_or((part, ""));
        says(of_outer, outer) && says(of_inner, inner)
    })
}
