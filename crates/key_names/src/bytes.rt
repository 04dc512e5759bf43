//! Bytes that contracts see as a list.
ghost use Rattle.std.specs.Prelude.{◌≡◌, ◌↔◌, IfOk, IsTrue, drop};
ghost use Rattle.std.specs.Ordering.{eq_by_cmp};
ghost use Rattle.key_names.specs.Order.{bytes_cmp};

use std::alloc::AllocError;
use std::cmp::Ordering;
use std::marker::Model;

/// A list of bytes. It keeps the allocator of the `Vec` that it was made of.
#[derive(Debug, Drop)]
pub struct Bytes {
    bytes: Vec<u8>,
}

impl Model for Bytes {
    ghost use Rattle.std.specs.Prelude.{List, ℕ};

    ghost Value = { List ℕ };

    ghost view = { λ b. b.bytes.items };
}

impl Bytes {
    /// These bytes. It takes no memory.
    pub fn of(bytes: Vec<u8>) -> Bytes
        ensures { result ≡ bytes.items }
    {
        Bytes { bytes }
    }

    /// The bytes, borrowed.
    pub fn as_slice(&self) -> &[u8]
        ensures { result.now ≡ self.now }
    {
        &self.bytes
    }

    /// A copy of the bytes. The only error is out of memory.
    pub fn copy(&self) -> Result<Bytes, AllocError>
        ensures { IfOk result (λ bytes. bytes ≡ self.now) }
    {
        let bytes = self.bytes.to_vec(*self.bytes.allocator())?;
        Ok(Bytes { bytes })
    }
}

/// All bytes but the first, and none of none. It takes no memory.
pub fn behind_first(bytes: &[u8]) -> &[u8]
    ensures { result.now ≡ drop 1 bytes.now }
{
    match bytes {
        [] => bytes,
        [_, rest @ ..] => rest,
    }
}

impl PartialEq for Bytes {
    ghost use Rattle.std.specs.Ordering.{eq_by_cmp};
    ghost use Rattle.key_names.specs.Order.{bytes_cmp, bytes_equal_partly};

    ghost eq = { eq_by_cmp bytes_cmp };

    ghost laws = { bytes_equal_partly };

    fn eq(&self, other: &Bytes) -> bool
        ensures gives { result ≡ eq_by_cmp bytes_cmp self.now other.now }
        ensures exact { IsTrue result ↔ (self.now ≡ other.now) }
    {
        self.cmp(other).is_eq()
    }
}

impl Eq for Bytes {
    ghost use Rattle.key_names.specs.Order.{bytes_equal};

    ghost laws = { bytes_equal };
}

impl PartialOrd for Bytes {
    ghost use Rattle.std.specs.Ordering.{as_partial_cmp};
    ghost use Rattle.key_names.specs.Order.{bytes_cmp, bytes_ordered};

    ghost partial_cmp = { as_partial_cmp bytes_cmp };

    ghost laws = { bytes_ordered };

    fn partial_cmp(&self, other: &Bytes) -> Option<Ordering> {
        Some(self.cmp(other))
    }
}

impl Ord for Bytes {
    ghost use Rattle.std.proofs.Common.{rules};
    ghost use Rattle.std.specs.Cmp.Rules.{comparing};
    ghost use Rattle.key_names.specs.Order.{bytes_cmp, bytes_total};

    ghost cmp = { bytes_cmp };

    ghost total = { bytes_total };

    ghost matches_partial_cmp = { Prim.search (comparing, rules) };

    ghost matches_eq = { Prim.search (comparing, rules) };

    fn cmp(&self, other: &Bytes) -> Ordering {
        self.bytes.cmp(&other.bytes)
    }
}
