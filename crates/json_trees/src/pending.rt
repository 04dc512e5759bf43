//! What a pending map holds for a key.
ghost use Rattle.std.specs.Prelude.{◌≡◌, ◌↔◌, IfOk, IsTrue};

use crate::scalar::Scalar;
use std::alloc::AllocError;

/// A value to be set, or a removal.
#[derive(Debug, Drop)]
pub enum Pending {
    /// The key is to have this value.
    Put(Scalar),
    /// The key is to have no value. In JSON it is `null`.
    Gone,
}

impl Pending {
    /// A copy. The only error is out of memory.
    pub fn copy(&self) -> Result<Pending, AllocError>
        ensures { IfOk result (λ pending. pending ≡ self.now) }
    {
        match self {
            Pending::Put(scalar) => Ok(Pending::Put(scalar.copy()?)),
            Pending::Gone => Ok(Pending::Gone),
        }
    }
}

impl PartialEq for Pending {
    ghost use Rattle.json_trees.specs.Equal.{pending_eq};
    ghost use Rattle.json_trees.specs.EqualLaws.{pending_equal_partly};

    ghost eq = { pending_eq };

    ghost laws = { pending_equal_partly };

    fn eq(&self, other: &Pending) -> bool
        ensures gives { result ≡ pending_eq self.now other.now }
        ensures exact { IsTrue result ↔ (self.now ≡ other.now) }
    {
        match (self, other) {
            (Pending::Put(a), Pending::Put(b)) => a == b,
            (Pending::Gone, Pending::Gone) => true,
            _ => false,
        }
    }
}

impl Eq for Pending {
    ghost use Rattle.json_trees.specs.EqualLaws.{pending_equal};

    ghost laws = { pending_equal };
}
