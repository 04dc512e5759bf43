//! The generators of a text.
ghost use Rattle.std.specs.Prelude.{◌≡◌, ◌≢◌, ℕ, List, IfOk, IfErr, MatchResult, map};
ghost use Rattle.setting_generators.specs.Generators.{Given, seen};
ghost use Rattle.setting_generators.specs.Reading.{Spells, IsFault};
ghost use Rattle.setting_generators.specs.Refused.{RefusesText};
ghost use Rattle.setting_generators.specs.declared.generators_error.GeneratorsKind.{GeneratorsKind as Kind};
ghost use Rattle.setting_generators.specs.declared.generators_error.GeneratorsKind.TheVariants.{Memory};

use crate::generators::Generators;
use crate::table::generators_of;
use crate::{GeneratorsError, GeneratorsKind};
use key_names::Text;
use std::alloc::Global;
use toml_values::{LocatedFault, refused, table_of};
use typed_settings::Types;

impl Generators {
    /// The generators that a text spells, with these types. Each entry has a name that spells a key, and a text whose words
    /// are the command's.
    ///
    /// The first fault is answered, at the entry's name: `NotToml` at `-` where `toml` doesn't read the text; and then, for
    /// one entry after another, in the order of TOML's table, which is that of the names' bytes, `BadKey` where the name
    /// spells no key, one that doesn't begin with `settings`, or one that an earlier name spells; else `IllTyped` where no row
    /// matches the key; else `BadCommand` where the entry is no text with a word between its spaces. `Memory` may come at
    /// any place. It takes time linear in the text, and for each entry a step logarithmic in their number and the time of
    /// `Types::matches`.
    pub fn read(alloc: Global, text: &[u8], types: &Types) -> Result<Generators, GeneratorsError>
        ensures ok { IfOk result (Spells types.now text.now) }
        ensures fault { IfErr result (λ e. e.kind ≢ Memory → IsFault types.now text.now e.kind e.at) }
        ensures exact { (kind : Kind) (at : List ℕ) → IsFault types.now text.now kind at
            → MatchResult result (λ _. ⊥) (λ e. e.kind ≢ Memory → (e.kind ≡ kind) × (e.at ≡ at)) }
        ensures no_fault { (generators : List Given) → Spells types.now text.now generators → IfErr result (λ e. e.kind ≡ Memory) }
    {
        match read_text(alloc, text, types) {
            Ok(generators) => Ok(generators),
            Err(LocatedFault::Fault(kind, at)) => Err(GeneratorsError { kind, at }),
            Err(LocatedFault::Memory) => Err(GeneratorsError {
                kind: GeneratorsKind::Memory,
                at: Text::of(String::new(alloc)),
            }),
        }
    }
}

fn read_text(
    alloc: Global,
    text: &[u8],
    types: &Types,
) -> Result<Generators, LocatedFault<GeneratorsKind>>
    ensures ok { IfOk result (Spells types.now text.now) }
    ensures refused { IfErr result (RefusesText types.now text.now) }
{
    let Some(table) = table_of(alloc, text)? else {
        return Err(refused(alloc, GeneratorsKind::NotToml, "-"));
    };
    let entries = generators_of(alloc, types, &table)?;
    Ok(Generators { entries })
}
