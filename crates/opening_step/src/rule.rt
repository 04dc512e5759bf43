//! A fact of what is held, for calls that need it.
ghost use Rattle.std.specs.Prelude.{None};
ghost use Rattle.settings_tree.specs.Laid.{KeepsPrefixRule};

use settings_tree::Held;

/// What is held keeps the prefix rule, by its types. It does nothing.
pub fn keep_rule(held: &Held)
    ensures { KeepsPrefixRule held.now }
{
    held.live.weak();
    held.pending.next_tx(None);
}
