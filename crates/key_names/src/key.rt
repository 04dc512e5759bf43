//! Keys: lists of segments.
ghost use Rattle.std.specs.Prelude.{◌≡◌, ◌≢◌, ◌<◌, ◌≤◌, ◌↔◌, ℕ, List, [], ◌∷◌, ◌++◌, length, slice_index_or, IfOk, IfErr, IsTrue};
ghost use Rattle.std.specs.List.{list_all};
ghost use Rattle.std.specs.Ordering.{eq_by_cmp};
ghost use Rattle.key_names.specs.Order.{key_cmp};
ghost use Rattle.key_names.specs.Segment.{is_segment};
ghost use Rattle.key_names.specs.Packed.{parts, segments_of, leads};
ghost use Rattle.key_names.specs.Key.{fits, is_key, printed, is_prefix, overlaps};
ghost use Rattle.key_names.specs.Spelling.{SpellsKey};
ghost use Rattle.key_names.specs.Faults.{Refuses, RefusesChild, IsRead, IsRefused};
ghost use Rattle.key_names.specs.declared.key_error.KeyFault.{KeyFault};
ghost use Rattle.key_names.specs.declared.key_error.KeyFault.TheVariants.{Memory};

use crate::limits::child_fault;
use crate::packed_text::{count, segment_at, with_segment};
use crate::printing::printed;
use crate::spelled::spelled_by;
use crate::{KeyError, Text};
use std::alloc::{AllocError, Global};
use std::cmp::Ordering;
use std::marker::Model;
use std::rc::Rc;

/// A key: 1 to 32 segments, each with a file name of at most 127 bytes, whose printed text has at
/// most 1,024 bytes. Keys are ordered as lists of segments; to compare two takes no memory. A key and
/// its copies share their segments.
#[derive(Debug, Drop)]
pub struct Key {
    segments: Rc<Text>,
}

impl Model for Key {
    ghost use Rattle.std.specs.Prelude.{List, ℕ, IsTrue};
    ghost use Rattle.key_names.specs.Key.{is_key};
    ghost use Rattle.key_names.specs.Packed.{segments_of};

    ghost Value = { List (List ℕ) };

    ghost view = { λ k. segments_of k.segments.value };

    ghost invariant = { λ k. IsTrue (is_key (segments_of k.segments.value)) };
}

// Whether a text ends here, or a zero byte is here.
fn ends(rest: &[u8]) -> bool
    ensures { result ≡ leads [] rest.now }
{
    match rest.first() {
        Some(b) => *b == 0,
        None => true,
    }
}

// Whether the other text begins with this one, up to its end or a zero byte.
fn leads(text: &[u8], other: &[u8]) -> bool
    ensures { result ≡ leads text.now other.now }
{
    match other.strip_prefix(text) {
        Some(rest) => ends(rest),
        None => false,
    }
}

impl Key {
    // The key of the segments of the text.
    fn of_packed(alloc: Global, text: Text) -> Result<Key, AllocError>
        requires { IsTrue (is_key (segments_of text)) }
        ensures { IfOk result (λ key. key ≡ segments_of text) }
    {
        let segments = Rc::new(alloc, text)?;
        Ok(Key { segments })
    }

    // Its segments as one text.
    fn packed(&self) -> &str
        ensures parts { parts result.now ≡ self.now }
        ensures segments { segments_of result.now ≡ self.now }
        ensures valid { IsTrue (is_key self.now) }
    {
        self.segments.as_str()
    }

    // The key that the text spells, or the first fault.
    fn of_text(alloc: Global, text: &[u8]) -> Result<Key, KeyError>
        ensures ok { IfOk result (SpellsKey text.now) }
        ensures refused { IfErr result (λ e. e.kind ≢ Memory → Refuses text.now e.kind e.place) }
        ensures place { IfErr result (λ e. e.place ≤ length text.now) }
    {
        let spelled = spelled_by(alloc, text)?;
        match spelled.limit_fault(text) {
            Some(fault) => Err(fault),
            None => Ok(Key::of_packed(alloc, spelled.segments.into_text())?),
        }
    }

    /// The key that the text spells: its segments' spellings joined by dots. A segment is spelled in
    /// quotes, or bare where it has only bare characters (ASCII letters and digits, `_`, `-`).
    ///
    /// Refused are, at the first place in the text: `Empty`, where a segment is wanted and the text
    /// ends, or a dot or `""` is there; `BadByte`, at a byte that can't be there; `Unclosed`, at a
    /// quote after which every byte is allowed in quotes and none closes. Only where the grammar holds
    /// come the limits, in this order: `TooMany` at the 33rd segment, `SegmentTooLong` at the first
    /// segment with a file name over 127 bytes, `TooLong` at the text's end where the printed text has
    /// over 1,024 bytes. It takes one pass over the text.
    pub fn read(alloc: Global, text: &[u8]) -> Result<Key, KeyError>
        ensures ok { IfOk result (SpellsKey text.now) }
        ensures refused { IfErr result (λ e. e.kind ≢ Memory → Refuses text.now e.kind e.place) }
        ensures place { IfErr result (λ e. e.place ≤ length text.now) }

        // So exactly the key that the text spells is read, and exactly the text's fault is answered.
        ensures exact_key { (key : List (List ℕ)) → SpellsKey text.now key → IsRead result key }
        ensures exact_fault { (kind : KeyFault) (place : ℕ) → Refuses text.now kind place
            → IsRefused result kind place }
    {
        Key::of_text(alloc, text)
    }

    // The key of the segments of the text and one more, or the first fault.
    fn extended(alloc: Global, text: &str, segment: &[u8]) -> Result<Key, KeyError>
        requires valid { IsTrue (list_all is_segment (segments_of text.now)) }
        requires fit { IsTrue (fits (segments_of text.now)) }
        ensures ok { IfOk result (λ key. key ≡ segments_of text.now ++ segment.now ∷ []) }
        ensures valid { IfOk result (λ key. IsTrue (is_key key)) }
        ensures refused { IfErr result (λ e. e.kind ≢ Memory
            → RefusesChild (segments_of text.now) segment.now e.kind e.place) }
        ensures exact { (kind : KeyFault) (place : ℕ) → RefusesChild (segments_of text.now) segment.now kind place
            → result ≡ Err (record { kind = kind; place = place }) }
    {
        if let Some(fault) = child_fault(text, segment) {
            return Err(fault);
        }
        let more = with_segment(alloc, text, segment)?;
        Ok(Key::of_packed(alloc, more)?)
    }

    /// The key of one segment. Refused are, in this order: an empty segment (`Empty`); one with a byte
    /// that is not allowed in quotes (`BadByte`, at the first such); and one with a file name over 127
    /// bytes (`SegmentTooLong`). The place is 0 but for `BadByte`. These come before any memory is
    /// asked for; the only other error is out of memory.
    pub fn of_segment(alloc: Global, segment: &[u8]) -> Result<Key, KeyError>
        ensures ok { IfOk result (λ key. key ≡ segment.now ∷ []) }
        ensures valid { IfOk result (λ key. IsTrue (is_key key)) }
        ensures refused { IfErr result (λ e. e.kind ≢ Memory
            → RefusesChild [] segment.now e.kind e.place) }
        ensures exact { (kind : KeyFault) (place : ℕ) → RefusesChild [] segment.now kind place
            → result ≡ Err (record { kind = kind; place = place }) }
    {
        Key::extended(alloc, "", segment)
    }

    /// The key with one segment more. Refused are, in this order: an empty segment (`Empty`); one with
    /// a byte that is not allowed in quotes (`BadByte`, at the first such); and a child that breaks a
    /// limit (`TooMany`, `SegmentTooLong`, `TooLong`). The place is 0 but for `BadByte`. These come
    /// before any memory is asked for; the only other error is out of memory.
    pub fn child(&self, segment: &[u8]) -> Result<Key, KeyError>
        ensures ok { IfOk result (λ key. key ≡ self.now ++ segment.now ∷ []) }
        ensures valid { IfOk result (λ key. IsTrue (is_key key)) }
        ensures refused { IfErr result (λ e. e.kind ≢ Memory
            → RefusesChild self.now segment.now e.kind e.place) }
        ensures exact { (kind : KeyFault) (place : ℕ) → RefusesChild self.now segment.now kind place
            → result ≡ Err (record { kind = kind; place = place }) }
    {
        Key::extended(self.segments.allocator(), self.packed(), segment)
    }

    /// The printed text: the segments joined by dots, in quotes those that hold another byte than bare
    /// characters. It reads back as this key. The only error is out of memory.
    pub fn print(&self) -> Result<Text, AllocError>
        ensures value { IfOk result (λ text. text ≡ printed self.now) }
        ensures reads_back { IfOk result (λ text. SpellsKey text self.now) }
    {
        let text = printed(self.segments.allocator(), self.packed())?;
        Ok(Text::of(text))
    }

    /// How many segments it has, from 1 to 32. It takes a pass over them and no memory.
    pub fn len(&self) -> usize
        ensures count { result ≡ length self.now }
        ensures valid { IsTrue (is_key self.now) }
    {
        count(self.packed())
    }

    /// The segment at this index, counted from 0. It costs the segments before it, and no memory.
    pub fn segment(&self, index: usize) -> &[u8]
        requires { index < length self.now }
        ensures bytes { result.now ≡ slice_index_or self.now index [] }
        ensures valid { IsTrue (is_segment result.now) }
    {
        segment_at(self.packed(), index).as_bytes()
    }

    /// Whether the other key begins with this one's segments, as each key does with its own. It
    /// takes no memory.
    pub fn is_prefix(&self, other: &Key) -> bool
        ensures { result ≡ is_prefix self.now other.now }
    {
        leads(self.packed().as_bytes(), other.packed().as_bytes())
    }

    /// Whether one of the two keys is a prefix of the other. It takes no memory.
    pub fn overlaps(&self, other: &Key) -> bool
        ensures { result ≡ overlaps self.now other.now }
    {
        self.is_prefix(other) || other.is_prefix(self)
    }

    /// A copy that shares the segments: it costs one step and no memory. The only error is out of
    /// memory, answered where there are as many copies as can be counted.
    pub fn copy(&self) -> Result<Key, AllocError>
        ensures { IfOk result (λ key. key ≡ self.now) }
    {
        let segments = self.segments.clone()?;
        Ok(Key { segments })
    }
}

impl PartialEq for Key {
    ghost use Rattle.std.specs.Ordering.{eq_by_cmp};
    ghost use Rattle.key_names.specs.Order.{key_cmp, keys_equal_partly};

    ghost eq = { eq_by_cmp key_cmp };

    ghost laws = { keys_equal_partly };

    fn eq(&self, other: &Key) -> bool
        ensures gives { result ≡ eq_by_cmp key_cmp self.now other.now }
        ensures exact { IsTrue result ↔ (self.now ≡ other.now) }
    {
        self.cmp(other).is_eq()
    }
}

impl Eq for Key {
    ghost use Rattle.key_names.specs.Order.{keys_equal};

    ghost laws = { keys_equal };
}

impl PartialOrd for Key {
    ghost use Rattle.std.specs.Ordering.{as_partial_cmp};
    ghost use Rattle.key_names.specs.Order.{key_cmp, keys_ordered};

    ghost partial_cmp = { as_partial_cmp key_cmp };

    ghost laws = { keys_ordered };

    fn partial_cmp(&self, other: &Key) -> Option<Ordering> {
        Some(self.cmp(other))
    }
}

impl Ord for Key {
    ghost use Rattle.std.proofs.Common.{rules};
    ghost use Rattle.std.specs.Cmp.Rules.{comparing};
    ghost use Rattle.key_names.specs.Order.{key_cmp, key_total};

    ghost cmp = { key_cmp };

    ghost total = { key_total };

    ghost matches_partial_cmp = { Prim.search (comparing, rules) };

    ghost matches_eq = { Prim.search (comparing, rules) };

    fn cmp(&self, other: &Key) -> Ordering {
        self.packed().cmp(other.packed())
    }
}
