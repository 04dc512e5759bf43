//! The names that a path is made of.
ghost use Rattle.std.specs.Prelude.{◌≡◌, ◌↔◌, IsTrue, IfOk};
ghost use Rattle.std.specs.List.{list_all};
ghost use Rattle.outside.specs.Names.{is_name_byte, is_dots, is_name};

use std::alloc::AllocError;
use std::cmp::Ordering;
use std::marker::Model;

/// A name of a path: 1 to 255 bytes from 0x21 to 0x7E, no slash, and neither `.` nor `..`.
/// Names are ordered by their bytes.
#[derive(Debug, Drop)]
pub struct Name {
    bytes: Vec<u8>,
}

impl Model for Name {
    ghost use Rattle.std.specs.Prelude.{List, ℕ, IsTrue};
    ghost use Rattle.outside.specs.Names.{is_name};

    ghost Value = { List ℕ };

    ghost view = { λ n. n.bytes.items };

    ghost invariant = { λ n. IsTrue (is_name n.bytes.items) };
}

fn is_name_byte(b: u8) -> bool
    ensures { result ≡ is_name_byte b }
{
    33 <= b && b <= 126 && b != b'/'
}

fn are_name_bytes(bytes: &[u8]) -> bool
    ensures { result ≡ list_all is_name_byte bytes.now }
{
    bytes.iter().all(|b| is_name_byte(*b))
}

fn is_dots(bytes: &[u8]) -> bool
    ensures { result ≡ is_dots bytes.now }
{
    match bytes {
        [a] => *a == b'.',
        [a, b] => *a == b'.' && *b == b'.',
        _ => false,
    }
}

/// Whether these bytes are a name of a path.
pub fn is_name(bytes: &[u8]) -> bool
    ensures { result ≡ is_name bytes.now }
{
    let fits = 1 <= bytes.len() && bytes.len() <= 255;
    let allowed = are_name_bytes(bytes);
    let dots = is_dots(bytes);
    fits && allowed && !dots
}

impl Name {
    /// The name with these bytes, which [`is_name`] takes.
    pub fn of(bytes: Vec<u8>) -> Name
        requires { IsTrue (is_name bytes.items) }
        ensures { result ≡ bytes.items }
    {
        Name { bytes }
    }

    /// Its bytes.
    pub fn as_slice(&self) -> &[u8]
        ensures bytes { result.now ≡ self.now }
        ensures valid { IsTrue (is_name self.now) }
    {
        &self.bytes
    }

    /// The same name once more, or out of memory.
    pub fn copy(&self) -> Result<Name, AllocError>
        ensures { IfOk result (λ name. name ≡ self.now) }
    {
        let bytes = self.bytes.to_vec(*self.bytes.allocator())?;
        Ok(Name { bytes })
    }
}

impl PartialEq for Name {
    ghost use Rattle.std.specs.Ordering.{eq_by_cmp};
    ghost use Rattle.outside.specs.Names.{name_cmp};
    ghost use Rattle.outside.specs.Order.{names_equal_partly};

    ghost eq = { eq_by_cmp name_cmp };

    ghost laws = { names_equal_partly };

    fn eq(&self, other: &Name) -> bool
        ensures gives { result ≡ eq_by_cmp name_cmp self.now other.now }
        ensures exact { IsTrue result ↔ (self.now ≡ other.now) }
    {
        self.cmp(other).is_eq()
    }
}

impl Eq for Name {
    ghost use Rattle.outside.specs.Order.{names_equal};

    ghost laws = { names_equal };
}

impl Ord for Name {
    ghost use Rattle.std.proofs.Common.{rules};
    ghost use Rattle.std.specs.Cmp.Rules.{comparing};
    ghost use Rattle.outside.specs.Names.{name_cmp};
    ghost use Rattle.outside.specs.Order.{name_total};

    ghost cmp = { name_cmp };

    ghost total = { name_total };

    ghost matches_partial_cmp = { Prim.search (comparing, rules) };

    ghost matches_eq = { Prim.search (comparing, rules) };

    fn cmp(&self, other: &Name) -> Ordering {
        self.bytes.cmp(&other.bytes)
    }
}

impl PartialOrd for Name {
    ghost use Rattle.std.specs.Ordering.{as_partial_cmp};
    ghost use Rattle.outside.specs.Names.{name_cmp};
    ghost use Rattle.outside.specs.Order.{names_ordered};

    ghost partial_cmp = { as_partial_cmp name_cmp };

    ghost laws = { names_ordered };

    fn partial_cmp(&self, other: &Name) -> Option<Ordering> {
        Some(self.cmp(other))
    }
}
