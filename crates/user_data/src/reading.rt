//! The pairs of a text.
ghost use Rattle.std.specs.Prelude.{◌≡◌, ◌≢◌, Ok, Err, IfOk, IfErr, All, take};
ghost use Rattle.std.specs.Map.{keys_of};
ghost use Rattle.json_trees.specs.Apart.{AreApart};
ghost use Rattle.settings_tree.specs.Content.{settings_key};
ghost use Rattle.user_data.specs.Pairs.{pairs_of};
ghost use Rattle.user_data.specs.Refused.{Refuses};
ghost use Rattle.user_data.specs.declared.user_data_error.UserDataKind.TheVariants.{Memory};

use crate::document::document_pairs;
use crate::{UserDataError, UserDataKind};
use json_trees::Scalar;
use key_names::{Key, Text};
use std::alloc::Global;
use toml_values::{LocatedFault, refused, table_of};

/// The pairs of user data: each value below `settings` that is no table, with the key that the names down to it are, rising
/// by key. A text without `settings`, or with empty tables alone, has none.
///
/// The first fault is answered, at the names down to it joined by `/`: `NotToml` at `-` where `toml` doesn't read the text;
/// `NotSettings` at the least top-level name other than `settings`, or at `settings` where that is no table; and then, for
/// one entry after another, depth first in the order of TOML's table, which is that of the names' bytes, `BadKey` where the
/// names down to it are together no key, an empty table's too, and else `BadValue` where it is neither a table nor a scalar.
/// `Memory` may come at any place. It takes time linear in the text, up to a logarithm in the number of its entries.
pub fn read(alloc: Global, text: &[u8]) -> Result<Vec<(Key, Scalar)>, UserDataError>
    // What is to be read is defined for each text, so that each answer but out of memory is the only one.
    ensures ok { IfOk result (λ pairs. pairs_of text.now ≡ Ok pairs.items) }
    ensures fault { IfErr result (λ e. e.kind ≢ Memory → pairs_of text.now ≡ Err e) }
    ensures apart { IfOk result (λ pairs. AreApart (keys_of pairs.items)) }
{
    match pairs_of(alloc, text) {
        Ok(pairs) => Ok(pairs),
        Err(LocatedFault::Fault(kind, at)) => Err(UserDataError { kind, at }),
        Err(LocatedFault::Memory) => Err(UserDataError {
            kind: UserDataKind::Memory,
            at: Text::of(String::new(alloc)),
        }),
    }
}

fn pairs_of(alloc: Global, text: &[u8]) -> Result<Vec<(Key, Scalar)>, LocatedFault<UserDataKind>>
    ensures ok { IfOk result (λ pairs. pairs_of text.now ≡ Ok pairs.items) }
    ensures refused { IfErr result (Refuses (pairs_of text.now)) }
    ensures apart { IfOk result (λ pairs. AreApart (keys_of pairs.items)) }
{
    match table_of(alloc, text)? {
        Some(document) => document_pairs(alloc, &document),
        None => Err(refused(alloc, UserDataKind::NotToml, "-")),
    }
}
