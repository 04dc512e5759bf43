//! Patterns of keys.
ghost use Rattle.std.specs.Prelude.{◌≡◌, ◌↔◌, IsTrue, List};
ghost use Rattle.typed_settings.specs.Order.{shape, cells, pattern_cmp, is_like, order_to, is_plainly_before};
ghost use Rattle.key_names.specs.Order.{bytes_cmp, key_cmp};
ghost use Rattle.typed_settings.specs.Pattern.{Reaches, Matches, Meet};

use crate::place::Place;
use key_names::Key;
use std::cmp::Ordering;
use std::marker::Model;

/// A pattern of keys. It keeps its allocator.
#[derive(Debug, Drop)]
pub struct Pattern {
    places: Vec<Place>,
}

impl Model for Pattern {
    ghost use Rattle.std.specs.Prelude.{List};
    ghost use Rattle.typed_settings.specs.declared.place.Place.{Place};

    ghost Value = { List Place };

    ghost view = { λ p. p.places.items };
}

impl Pattern {
    /// The pattern of these places. It takes no memory.
    pub(crate) fn of(places: Vec<Place>) -> Pattern
        ensures { result ≡ places.items }
    {
        Pattern { places }
    }

    /// Its places, borrowed.
    pub(crate) fn as_slice(&self) -> &[Place]
        ensures { result.now ≡ self.now }
    {
        &self.places
    }

    /// Whether the pattern is at least as long as the path and fits its segments from the first. It
    /// takes no memory.
    pub(crate) fn reaches(&self, path: &Key) -> bool
        ensures { IsTrue result ↔ Reaches self.now path.now }
    {
        if self.places.len() < path.len() {
            return false;
        }
        for i in 0..path.len() {
            if !self.places[i].fits(path.segment(i)) {
                return false;
            }
        }
        true
    }

    /// Whether the pattern is as long as the key and fits each of its segments. It takes no memory.
    pub(crate) fn matches(&self, key: &Key) -> bool
        ensures { IsTrue result ↔ Matches self.now key.now }
    {
        self.places.len() == key.len() && self.reaches(key)
    }

    /// Whether no place exists at which both patterns have plain segments that differ. It takes no
    /// memory.
    pub(crate) fn meets(&self, other: &Pattern) -> bool
        ensures { IsTrue result ↔ Meet self.now other.now }
    {
        let len = self.places.len().min(other.places.len());
        for i in 0..len {
            if !self.places[i].agrees(&other.places[i]) {
                return false;
            }
        }
        true
    }

    // Compares the places of the stars.
    fn shape_cmp(&self, other: &Pattern) -> Ordering
        ensures { result ≡ bytes_cmp (shape self.now) (shape other.now) }
    {
        let shape = self.places.iter().map(|place| place.rank());
        shape.cmp(other.places.iter().map(|place| place.rank()))
    }

    /// Compares the segments, place by place; a `*` comes before each. It takes no memory.
    pub(crate) fn cells_cmp(&self, other: &Pattern) -> Ordering
        ensures { result ≡ key_cmp (cells self.now) (cells other.now) }
    {
        let cells = self.places.iter().map(|place| place.cell());
        cells.cmp(other.places.iter().map(|place| place.cell()))
    }

    /// Compares by the places of the stars, and where these are the same by the segments. It takes no
    /// memory.
    pub(crate) fn order(&self, other: &Pattern) -> Ordering
        ensures { result ≡ pattern_cmp self.now other.now }
    {
        self.shape_cmp(other).then(self.cells_cmp(other))
    }

    /// Whether both have their stars at the same places. It takes no memory.
    pub(crate) fn is_like(&self, other: &Pattern) -> bool
        ensures { result ≡ is_like self.now other.now }
    {
        self.shape_cmp(other).is_eq()
    }

    /// How the pattern compares to the key: the first place that doesn't fit its segment decides, by the
    /// bytes. It takes no memory.
    pub(crate) fn order_to(&self, key: &Key) -> Ordering
        ensures { result ≡ order_to self.now key.now }
    {
        for i in 0..self.places.len().min(key.len()) {
            let order = self.places[i].order_to(key.segment(i));
            if order.is_ne() {
                return order;
            }
        }
        Ordering::Equal
    }

    /// Whether the first place at which the patterns differ has two segments, of which this one's comes
    /// first. It takes no memory.
    pub(crate) fn is_plainly_before(&self, other: &Pattern) -> bool
        ensures { result ≡ is_plainly_before self.now other.now }
    {
        for i in 0..self.places.len().min(other.places.len()) {
            match self.places[i].plain_cmp(&other.places[i]) {
                Some(Ordering::Equal) => {}
                Some(order) => return order.is_lt(),
                None => return false,
            }
        }
        false
    }
}
