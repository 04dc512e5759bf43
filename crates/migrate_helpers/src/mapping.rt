//! Mappings of what a store holds.
ghost use Rattle.std.specs.Prelude.{◌≡◌, ◌≢◌, IfOk, IfErr, Result, Ok, Err};
ghost use Rattle.settings_tree.specs.Laid.{KeepsPrefixRule};
ghost use Rattle.settings_tree.specs.declared.held.Held.{Held as World};
ghost use Rattle.migrate_helpers.specs.Kept.{Kept};
ghost use Rattle.migrate_helpers.specs.declared.map_error.MapError.{MapError as Refusal};
ghost use Rattle.migrate_helpers.specs.declared.map_error.MapError.TheVariants.{Memory};

use crate::map_error::MapError;
use settings_tree::Held;

/// A mapping of what a store holds, with a way forward and a way back. Each is a function of what is
/// held. It keeps the prefix rule, the owed keys and the stored image text, or it refuses.
pub trait Mapping {
    /// What the way forward makes of what is held, or its refusal.
    ghost forward_of: { Self → World → Result World Refusal };

    /// What the way back makes of what is held, or its refusal.
    ghost backward_of: { Self → World → Result World Refusal };

    /// What the way forward makes of what is held.
    ///
    /// `Conflict` exactly where the function refuses with it, or `Memory`.
    fn forward(&self, held: &Held) -> Result<Held, MapError>
        ensures ok { IfOk result (λ made. forward_of self.now held.now ≡ Ok made) }
        ensures err { IfErr result (λ e. e ≢ Memory → forward_of self.now held.now ≡ Err e) };

    /// What the way back makes of what is held.
    ///
    /// `Conflict` exactly where the function refuses with it, or `Memory`.
    fn backward(&self, held: &Held) -> Result<Held, MapError>
        ensures ok { IfOk result (λ made. backward_of self.now held.now ≡ Ok made) }
        ensures err { IfErr result (λ e. e ≢ Memory → backward_of self.now held.now ≡ Err e) };

    /// The way forward keeps the prefix rule, the owed keys and the image text.
    ghost keeps_forward: { (m : Self) (h g : World) → KeepsPrefixRule h → forward_of m h ≡ Ok g → Kept h g };

    /// The way back keeps the prefix rule, the owed keys and the image text.
    ghost keeps_backward: { (m : Self) (h g : World) → KeepsPrefixRule h → backward_of m h ≡ Ok g → Kept h g };

    /// The way forward never refuses because it is out of memory.
    ghost refuses_forward: { (m : Self) (h : World) (e : Refusal) → forward_of m h ≡ Err e → e ≢ Memory };

    /// The way back never refuses because it is out of memory.
    ghost refuses_backward: { (m : Self) (h : World) (e : Refusal) → backward_of m h ≡ Err e → e ≢ Memory };
}
