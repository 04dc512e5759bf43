//! The items of a list, or the children of a map, one after another.
ghost use Rattle.std.specs.Prelude.{◌≡◌, ◌==◌, ◌<◌, [], ◌∷◌, length, slice_index_or, Some, false, IfOk, IfSome, MatchOption, IsTrue};
ghost use Rattle.key_names.specs.Key.{is_prefix};
ghost use Rattle.std.specs.FinMap.{get};
ghost use Rattle.settings_tree.specs.Content.{Contents};
ghost use Rattle.template_eval.specs.Children.{child};
ghost use Rattle.template_eval.specs.Node.{os_path};
ghost use Rattle.template_eval.specs.Kept.{Keeps, IsAhead, Follows};
ghost use Rattle.template_eval.specs.Views.{place_of, places_of, children_of};

use crate::below::next_child;
use crate::children::Children;
use crate::keys::child_key;
use crate::place::Place;
use key_names::Key;
use settings_tree::{Item, LiveView, OsName, Scalar};
use std::alloc::AllocError;

/// The places of items or children that are still to come.
#[derive(Drop)]
pub enum Places<'a> {
    Items(&'a [Item]),
    System(&'a [OsName]),
    Children(Children<'a>),
}

/// A place, and those after it.
#[derive(Drop)]
pub struct Split<'a> {
    pub first: Place<'a>,
    pub rest: Places<'a>,
}

// The child of the parent that the key of this value is, which then keeps the value, or that the key
// is below.
fn child_at<'a>(parent: &Key, key: &'a Key, scalar: &'a Scalar) -> Result<Place<'a>, AllocError>
    requires begins { IsTrue (is_prefix parent.now key.now) }
    requires longer { length parent.now < length key.now }
    requires outside { is_prefix os_path parent.now ≡ false }
    ensures leads { IfOk result
        (λ p. place_of p ≡ child parent.now (slice_index_or key.now (length parent.now) [])) }
    ensures kept { (content : Contents) → get content.values key.now ≡ Some scalar.now
        → IfOk result (Keeps content) }
{
    if key.len() == parent.len() + 1 {
        return Ok(Place::Leaf { key, scalar });
    }
    let child = child_key(parent, key.segment(parent.len()))?;
    Ok(Place::Made(child))
}

fn split_children<'a>(
    content: &'a LiveView<'_>,
    children: Children<'a>,
) -> Result<Option<Split<'a>>, AllocError>
    requires { IsAhead content.now children.after.now children.ahead }
    ensures parts { IfOk result (λ o. MatchOption o (children_of content.now children.entry ≡ [])
        (λ s. children_of content.now children.entry
        ≡ place_of s.first ∷ places_of content.now s.rest)) }
    ensures kept { IfOk result (λ o. IfSome o (λ s. Keeps content.now s.first)) }
    ensures follows { IfOk result (λ o. IfSome o (λ s. Follows content.now s.rest)) }
{
    let mut ahead = children.ahead;
    let Some((key, scalar)) = next_child(content, children.parent, children.after, &mut ahead)
    else {
        return Ok(None);
    };
    let first = child_at(children.parent, key, scalar)?;
    let rest = Children {
        parent: children.parent,
        after: key,
        ahead,
    };
    Ok(Some(Split {
        first,
        rest: Places::Children(rest),
    }))
}

fn split_items<'a>(items: &'a [Item]) -> Option<Split<'a>>
    ensures parts { (content : Contents) → MatchOption result
        (places_of content (Places.Items items.entry) ≡ [])
        (λ s. places_of content (Places.Items items.entry)
        ≡ place_of s.first ∷ places_of content s.rest) }
    ensures kept { (content : Contents) → IfSome result (λ s. Keeps content s.first) }
    ensures follows { (content : Contents) → IfSome result (λ s. Follows content s.rest) }
{
    let (first, rest) = items.split_first()?;
    Some(Split {
        first: Place::Item(first),
        rest: Places::Items(rest),
    })
}

fn split_names<'a>(names: &'a [OsName]) -> Option<Split<'a>>
    ensures parts { (content : Contents) → MatchOption result
        (places_of content (Places.System names.entry) ≡ [])
        (λ s. places_of content (Places.System names.entry)
        ≡ place_of s.first ∷ places_of content s.rest) }
    ensures kept { (content : Contents) → IfSome result (λ s. Keeps content s.first) }
    ensures follows { (content : Contents) → IfSome result (λ s. Follows content s.rest) }
{
    let (first, rest) = names.split_first()?;
    Some(Split {
        first: Place::System(first),
        rest: Places::System(rest),
    })
}

impl<'a> Places<'a> {
    /// The first place and those after it, None exactly where there is none. It is constant for
    /// items and names, and takes a step for each value that it passes, a constant one where the
    /// entries ahead are kept and else a logarithmic one. The only error is out of memory.
    pub fn split_first(self, content: &'a LiveView<'_>) -> Result<Option<Split<'a>>, AllocError>
        requires { Follows content.now self }
        ensures parts { IfOk result (λ o. MatchOption o (places_of content.now self.entry ≡ [])
            (λ s. places_of content.now self.entry
            ≡ place_of s.first ∷ places_of content.now s.rest)) }
        ensures kept { IfOk result (λ o. IfSome o (λ s. Keeps content.now s.first)) }
        ensures follows { IfOk result (λ o. IfSome o (λ s. Follows content.now s.rest)) }
    {
        match self {
            Places::Items(items) => Ok(split_items(items)),
            Places::System(names) => Ok(split_names(names)),
            Places::Children(children) => split_children(content, children),
        }
    }

    /// Whether there is none. It takes no memory.
    pub fn is_empty(&'a self, content: &'a LiveView<'_>) -> bool
        ensures { result ≡ (length (places_of content.now self.now) == 0) }
    {
        match self {
            Places::Items(items) => items.is_empty(),
            Places::System(names) => names.is_empty(),
            Places::Children(children) => {
                next_child(content, children.parent, children.after, &mut None).is_none()
            }
        }
    }
}
