//! Names of transactions.
ghost use Rattle.std.specs.Prelude.{◌≡◌, ◌↔◌, IfOk, IsTrue, IfSome, IfNone, Ok, None, false};
ghost use Rattle.std.specs.Ordering.{eq_by_cmp};
ghost use Rattle.key_names.specs.Order.{bytes_cmp};
ghost use Rattle.settings_maps.specs.TxName.{is_tx_name};

use key_names::{Text, are_bare};
use std::alloc::{AllocError, Global};
use std::cmp::Ordering;
use std::marker::Model;

/// The name of a transaction: 1 to 64 bare characters, which are `A` to `Z`, `a` to `z`, `0` to `9`,
/// `_` and `-`. Names are ordered by their bytes; to compare two takes no memory.
#[derive(Debug, Drop)]
pub struct TxName {
    name: Text,
}

impl Model for TxName {
    ghost use Rattle.std.specs.Prelude.{List, ℕ, IsTrue};
    ghost use Rattle.settings_maps.specs.TxName.{is_tx_name};

    ghost Value = { List ℕ };

    ghost view = { λ t. t.name };

    ghost invariant = { λ t. IsTrue (is_tx_name t.name) };
}

#[tactic(auto, using(crate::proofs::BareNames::bare_names))]
impl TxName {
    /// The name with these bytes; None exactly where they aren't 1 to 64 bare characters, which is
    /// found before any memory is asked for. The only error is out of memory.
    pub fn read(alloc: Global, text: &[u8]) -> Result<Option<TxName>, AllocError>
        ensures some { IfOk result (λ o. IfSome o (λ name. name ≡ text.now × IsTrue (is_tx_name text.now))) }
        ensures none { IfOk result (λ o. IfNone o (is_tx_name text.now ≡ false)) }
        ensures refused { is_tx_name text.now ≡ false → result ≡ Ok None }
    {
        let Ok(text) = str::from_utf8(text) else {
            return Ok(None);
        };
        if !is_tx_name(text.as_bytes()) {
            return Ok(None);
        }
        let name = Text::from_str(alloc, text)?;
        Ok(Some(TxName { name }))
    }

    /// The name. It takes no memory.
    pub fn as_str(&self) -> &str
        ensures bytes { result.now ≡ self.now }
        ensures valid { IsTrue (is_tx_name self.now) }
    {
        self.name.as_str()
    }

    /// A copy with the same name. The only error is out of memory.
    pub fn copy(&self) -> Result<TxName, AllocError>
        ensures { IfOk result (λ name. name ≡ self.now) }
    {
        let name = self.name.copy()?;
        Ok(TxName { name })
    }
}

fn is_tx_name(bytes: &[u8]) -> bool
    ensures { result ≡ is_tx_name bytes.now }
{
    !bytes.is_empty() && bytes.len() <= 64 && are_bare(bytes)
}

impl PartialEq for TxName {
    ghost use Rattle.std.specs.Ordering.{eq_by_cmp};
    ghost use Rattle.key_names.specs.Order.{bytes_cmp, bytes_equal_partly};

    ghost eq = { eq_by_cmp bytes_cmp };

    ghost laws = { bytes_equal_partly };

    fn eq(&self, other: &TxName) -> bool
        ensures gives { result ≡ eq_by_cmp bytes_cmp self.now other.now }
        ensures exact { IsTrue result ↔ (self.now ≡ other.now) }
    {
        self.name == other.name
    }
}

impl Eq for TxName {
    ghost use Rattle.key_names.specs.Order.{bytes_equal};

    ghost laws = { bytes_equal };
}

impl PartialOrd for TxName {
    ghost use Rattle.std.specs.Ordering.{as_partial_cmp};
    ghost use Rattle.key_names.specs.Order.{bytes_cmp, bytes_ordered};

    ghost partial_cmp = { as_partial_cmp bytes_cmp };

    ghost laws = { bytes_ordered };

    fn partial_cmp(&self, other: &TxName) -> Option<Ordering> {
        Some(self.cmp(other))
    }
}

impl Ord for TxName {
    ghost use Rattle.std.proofs.Common.{rules};
    ghost use Rattle.std.specs.Cmp.Rules.{comparing};
    ghost use Rattle.key_names.specs.Order.{bytes_cmp, bytes_total};

    ghost cmp = { bytes_cmp };

    ghost total = { bytes_total };

    ghost matches_partial_cmp = { Prim.search (comparing, rules) };

    ghost matches_eq = { Prim.search (comparing, rules) };

    fn cmp(&self, other: &TxName) -> Ordering {
        self.name.cmp(&other.name)
    }
}
