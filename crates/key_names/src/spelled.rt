//! The segments that a text spells, and where they break limits.
ghost use Rattle.std.specs.Prelude.{◌≡◌, ◌≢◌, ◌≤◌, ◌==◌, ◌||◌, ◌++◌, ◌∷◌, [], length, if◌then◌else◌};
ghost use Rattle.std.specs.Prelude.{IsTrue, IfOk, IfErr, IfSome, OnOk, Some, None, is_some, MatchOption};
ghost use Rattle.key_names.specs.declared.key_error.KeyFault.TheVariants.{Memory};
ghost use Rattle.key_names.specs.Segment.{is_segment, has_short_name};
ghost use Rattle.key_names.specs.Spelling.{Spells};
ghost use Rattle.key_names.specs.Key.{fits};
ghost use Rattle.key_names.specs.Faults.{GrammarFault, Refuses};
ghost use Rattle.key_names.specs.Reading.{AreMarked};

use crate::file_names::has_short_name;
use crate::head::head_of;
use crate::limits::{MAX_PRINTED, MAX_SEGMENTS};
use crate::printing::printed_len;
use crate::segment_list::Segments;
use crate::{KeyError, KeyFault};
use std::alloc::{AllocError, Global};

/// Segments that a text spells.
#[derive(Drop)]
pub struct Spelled {
    /// The segments, in the text's order.
    pub segments: Segments,
    /// Where the 33rd of them begins.
    pub surplus: Option<usize>,
    /// Where the first with too long a file name begins.
    pub overlong: Option<usize>,
}

fn surplus_with(surplus: Option<usize>, count: usize, start: usize) -> Option<usize>
    ensures { result ≡ (if count == 32 then Some start else surplus) }
{
    if count == MAX_SEGMENTS {
        Some(start)
    } else {
        surplus
    }
}

fn overlong_with(overlong: Option<usize>, segment: &[u8], start: usize) -> Option<usize>
    ensures { result ≡ (if is_some overlong || has_short_name segment.now then overlong else Some start) }
{
    if overlong.is_some() || has_short_name(segment) {
        overlong
    } else {
        Some(start)
    }
}

impl Spelled {
    fn new(alloc: Global) -> Spelled
        ensures segments { result.segments ≡ [] }
        ensures surplus { result.surplus ≡ None }
        ensures overlong { result.overlong ≡ None }
    {
        Spelled {
            segments: Segments::new(alloc),
            surplus: None,
            overlong: None,
        }
    }

    // One segment more, whose spelling begins at `start`.
    fn with(self, segment: &[u8], start: usize) -> Result<Spelled, AllocError>
        requires { IsTrue (is_segment segment.now) }
        ensures segments { IfOk result (λ more. more.segments ≡ self.segments ++ segment.now ∷ []) }
        ensures surplus { IfOk result (λ more. more.surplus
            ≡ (if length self.segments == 32 then Some start else self.surplus)) }
        ensures overlong { IfOk result (λ more. more.overlong
            ≡ (if is_some self.overlong || has_short_name segment.now
            then self.overlong else Some start)) }
    {
        let Spelled {
            segments,
            surplus,
            overlong,
        } = self;
        let surplus = surplus_with(surplus, segments.len(), start);
        let overlong = overlong_with(overlong, segment, start);
        let segments = segments.with(segment)?;
        Ok(Spelled {
            segments,
            surplus,
            overlong,
        })
    }

    /// The first limit that the segments break, and its place in the text that spells them.
    pub fn limit_fault(&self, text: &[u8]) -> Option<KeyError>
        requires spelled { Spells text.now self.now.segments }
        requires marked { AreMarked text.now self.now.segments self.now.surplus self.now.overlong }
        ensures limit { MatchOption result (IsTrue (fits self.now.segments))
            (λ e. Refuses text.now e.kind e.place) }
        ensures place { IfSome result (λ e. e.place ≤ length text.now) }
    {
        if let Some(place) = self.surplus {
            return Some(KeyError {
                kind: KeyFault::TooMany,
                place,
            });
        }
        if let Some(place) = self.overlong {
            return Some(KeyError {
                kind: KeyFault::SegmentTooLong,
                place,
            });
        }
        if printed_len(self.segments.as_str()) > MAX_PRINTED {
            return Some(KeyError {
                kind: KeyFault::TooLong,
                place: text.len(),
            });
        }
        None
    }
}

/// The segments that the text spells, or the first fault of its grammar. It takes one pass.
pub fn spelled_by(alloc: Global, text: &[u8]) -> Result<Spelled, KeyError>
    ensures spelled { IfOk result (λ s. Spells text.now s.segments) }
    ensures marked { IfOk result (λ s. AreMarked text.now s.segments s.surplus s.overlong) }
    ensures refused { IfErr result (λ e. e.kind ≢ Memory → GrammarFault text.now e.kind e.place) }
    ensures place { IfErr result (λ e. e.place ≤ length text.now) }
{
    let mut spelled = Spelled::new(alloc);
    let mut start = 0;
    loop {
        let (_, rest) = text.split_at(start);
        let head = match head_of(rest) {
            Ok(head) => head,
            Err(fault) => {
                return Err(KeyError {
                    kind: fault.kind,
                    place: start + fault.place,
                });
            }
        };
        spelled = spelled.with(head.segment, start)?;
        start += head.len;
        if start == text.len() {
            return Ok(spelled);
        }
        // after the dot
        start += 1;
    }
}
