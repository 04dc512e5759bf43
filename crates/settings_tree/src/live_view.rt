//! Live settings to be read, as they are or with what is pending laid over them.
ghost use Rattle.std.specs.Prelude.{◌≡◌, IfSome, IfNone, Some};
ghost use Rattle.std.specs.Option.{option_copied};
ghost use Rattle.std.specs.declared.cmp.Ordering.TheVariants.{Less};
ghost use Rattle.key_names.specs.Order.{key_cmp};
ghost use Rattle.settings_tree.specs.Over.{laid_over};
ghost use Rattle.settings_tree.specs.Walks.{IsLeastBelow, HasNoneBelow, HasNoneUntil, entries_past};

use crate::content::Content;
use crate::steps;
use json_trees::{Pending, Scalar};
use key_names::Key;
use settings_maps::KeyMap;
use std::collections::btree_map::Range;
use std::marker::Model;

/// Live settings to be read, as they are or with values and removals laid over them. It keeps
/// references alone: what it shows is looked up, and never built.
#[derive(Drop)]
pub struct LiveView<'a> {
    live: &'a Content,
    over: Option<&'a KeyMap<Pending>>,
}

impl<'a> Model for LiveView<'a> {
    ghost use Rattle.std.specs.Option.{option_copied};
    ghost use Rattle.settings_tree.specs.Content.{Contents, content_code};
    ghost use Rattle.settings_tree.specs.Over.{shown};

    ghost Value = { Contents };

    ghost coded = { content_code };

    ghost view = { λ v. shown v.live.now (option_copied v.over) };
}

// The entry of the least live key below the prefix that is past `after`, where that key is below the
// end.
fn live_before<'a>(
    live: &'a Content,
    prefix: &Key,
    after: Option<&Key>,
    end: &Key,
) -> Option<(&'a Key, &'a Scalar)>
    ensures least { IfSome result (λ e. IsLeastBelow live.now.values prefix.now (option_copied after.entry) e.0.now e.1.now) }
    ensures before { IfSome result (λ e. key_cmp e.0.now end.now ≡ Less) }
    ensures none { IfNone result (HasNoneUntil live.now.values prefix.now (option_copied after.entry) end.now) }
{
    match live.next_below(prefix, after) {
        Some((key, value)) => {
            if key.cmp(end).is_lt() {
                Some((key, value))
            } else {
                None
            }
        }
        None => None,
    }
}

// What comes next of both: it passes a removal in one step.
fn next_over<'a>(
    live: &'a Content,
    over: &'a KeyMap<Pending>,
    prefix: &Key,
    after: Option<&'a Key>,
) -> Option<(&'a Key, &'a Scalar)>
    ensures least { IfSome result (λ e. IsLeastBelow (laid_over live.now over.now).values prefix.now (option_copied after.entry) e.0.now e.1.now) }
    ensures none { IfNone result (HasNoneBelow (laid_over live.now over.now).values prefix.now (option_copied after.entry)) }
{
    let mut last = after;
    while let Some((key, pending)) = steps::next_below(over, prefix, last) {
        if let Some((before, value)) = live_before(live, prefix, last, key) {
            return Some((before, value));
        }
        match pending {
            Pending::Put(value) => return Some((key, value)),
            Pending::Gone => last = Some(key),
        }
    }
    live.next_below(prefix, last)
}

impl<'a> LiveView<'a> {
    /// The live settings as they are. It takes no memory.
    pub fn of(live: &'a Content) -> LiveView<'a>
        ensures { result ≡ live.now }
    {
        LiveView { live, over: None }
    }

    /// The live settings with these values and removals laid over them, as a commit of these leaves
    /// them. It takes no memory.
    pub fn over(live: &'a Content, over: &'a KeyMap<Pending>) -> LiveView<'a>
        ensures { result ≡ laid_over live.now over.now }
    {
        LiveView {
            live,
            over: Some(over),
        }
    }

    /// The entry of the least key that begins with the prefix, as the prefix itself does, and that is
    /// greater than `after` where it is given; None exactly where there is no such key. It takes a
    /// logarithmic step, and one for each removal that it passes, and no memory.
    pub fn next_below<'b>(
        &'b self,
        prefix: &Key,
        after: Option<&'b Key>,
    ) -> Option<(&'b Key, &'b Scalar)>
        ensures least { IfSome result (λ e. IsLeastBelow self.now.values prefix.now (option_copied after.entry) e.0.now e.1.now) }
        ensures none { IfNone result (HasNoneBelow self.now.values prefix.now (option_copied after.entry)) }
    {
        match self.over {
            Some(over) => next_over(self.live, over, prefix, after),
            None => self.live.next_below(prefix, after),
        }
    }

    /// The entries past this key, rising by key, where nothing is laid over the live settings; None
    /// where something is. The first is a logarithmic step, each other a constant one. It takes no
    /// memory.
    pub fn entries_after(&self, key: &Key) -> Option<Range<'_, Key, Scalar>>
        ensures { IfSome result (λ rest. rest ≡ entries_past self.now.values (Some key.now)) }
    {
        match self.over {
            Some(_) => None,
            None => Some(self.live.entries_after(key)),
        }
    }
}
