//! Paths: lists of names.
ghost use Rattle.std.specs.Prelude.{◌≡◌, ◌≢◌, ◌<◌, ◌≤◌, ◌∷◌, ◌++◌, [], true, false, length, ◌↔◌, IsTrue, IfSome, IfNone, IfOk, IfErr, OnOk, OnErr};
ghost use Rattle.outside.specs.Names.{is_name, is_below};
ghost use Rattle.outside.specs.PathText.{joined, added, path_of, Answers};

use crate::PathError;
use crate::name::{Name, is_name};
use crate::path_text::{print_names, push_parts, without_slash};
use std::alloc::{AllocError, Global};
use std::cmp::Ordering;
use std::marker::Model;

/// A path of at most 40 names, the outermost first. Paths are ordered as lists of names.
#[derive(Debug, Drop)]
pub struct Path {
    names: Vec<Name>,
}

impl Model for Path {
    ghost use Rattle.std.specs.Prelude.{List, ℕ, ◌≤◌, length, IsTrue};
    ghost use Rattle.outside.specs.Names.{are_names};

    ghost Value = { List (List ℕ) };

    ghost view = { λ p. p.names.items };

    ghost invariant = { λ p. (length p.names.items ≤ 40) × IsTrue (are_names p.names.items) };
}

fn copy_names(alloc: Global, names: &[Name]) -> Result<Vec<Name>, AllocError>
    ensures { IfOk result (λ copies. copies.items ≡ names.now) }
{
    let mut copies = Vec::new(alloc);
    for name in names {
        copies.push(name.copy()?)?;
    }
    Ok(copies)
}

fn is_above(path: &[Name], other: &[Name]) -> bool
    ensures { result ≡ is_below path.now other.now }
{
    let shorter = path.len() < other.len();
    let begins = other.starts_with(path);
    shorter && begins
}

impl Path {
    /// The most names that a path has.
    pub const MAX_NAMES: usize = 40;

    /// The path of no names. It takes no memory.
    pub fn root(alloc: Global) -> Path
        ensures { result ≡ [] }
    {
        Path {
            names: Vec::new(alloc),
        }
    }

    /// The path whose names the text joins by slashes. A slash at its front is skipped, and where nothing is left
    /// it is the root.
    ///
    /// The refusals are those of [`child`](Path::child), the first in the order of the text.
    pub fn read(alloc: Global, text: &[u8]) -> Result<Path, PathError>
        ensures { Answers result (path_of text.now) }
    {
        let names = without_slash(text);
        let mut path = Path::root(alloc);
        if names.is_empty() {
            return Ok(path);
        }
        match push_parts(&mut path, names) {
            Ok(()) => Ok(path),
            Err(e) => Err(e),
        }
    }

    /// The names joined by slashes, or out of memory.
    pub fn print(&self) -> Result<Vec<u8>, AllocError>
        ensures { IfOk result (λ text. text.items ≡ joined self.now) }
    {
        print_names(*self.names.allocator(), &self.names)
    }

    /// The same path once more, or out of memory.
    pub fn copy(&self) -> Result<Path, AllocError>
        ensures { IfOk result (λ path. path ≡ self.now) }
    {
        let names = copy_names(*self.names.allocator(), &self.names)?;
        Ok(Path { names })
    }

    /// Its names, the outermost first.
    pub fn names(&self) -> &[Name]
        ensures { result.now ≡ self.now }
    {
        &self.names
    }

    /// Whether the other path is strictly below this one.
    pub fn is_above(&self, other: &Path) -> bool
        ensures { result ≡ is_below self.now other.now }
    {
        is_above(&self.names, &other.names)
    }

    /// The path with one name more, or out of memory.
    pub fn join(&self, name: &Name) -> Result<Path, AllocError>
        requires { length self.now < 40 }
        ensures { IfOk result (λ path. path ≡ self.now ++ name.now ∷ []) }
    {
        let mut path = self.copy()?;
        path.push_name(name.copy()?)?;
        Ok(path)
    }

    /// Adds one name at the end. Where it runs out of memory, the path stays as it is.
    pub fn push_name(&mut self, name: Name) -> Result<(), AllocError>
        requires { length self.old < 40 }
        ensures ok { OnOk result (self.new ≡ self.old ++ name ∷ []) }
        ensures same { OnErr result (self.new ≡ self.old) }
    {
        self.names.push(name)?;
        Ok(())
    }

    /// The path with this text as one name more.
    ///
    /// `BadName` exactly where the text is no name, else `TooDeep` exactly where the path has 40 names: both are reported
    /// before any memory is asked for. `Memory` where it ran out of memory.
    pub fn child(&self, name: &[u8]) -> Result<Path, PathError>
        ensures answer { Answers result (added self.now name.now) }
        ensures bad { is_name name.now ≡ false → result ≡ Err PathError.BadName }
        ensures deep { is_name name.now ≡ true → 40 ≤ length self.now → result ≡ Err PathError.TooDeep }
    {
        if let Some(refusal) = self.refusal(name) {
            return Err(refusal);
        }
        let mut path = self.copy()?;
        let name = Name::of(name.to_vec(*self.names.allocator())?);
        path.push_name(name)?;
        Ok(path)
    }

    /// Adds this text as one name at the end. The refusals are those of [`child`](Path::child), and leave the path as
    /// it is.
    pub fn push(&mut self, name: &[u8]) -> Result<(), PathError>
        ensures ok { OnOk result (added self.old name.now ≡ Ok self.new) }
        ensures err { IfErr result (λ e. e ≢ PathError.Memory → added self.old name.now ≡ Err e) }
        ensures same { OnErr result (self.new ≡ self.old) }
        ensures bad { is_name name.now ≡ false → result ≡ Err PathError.BadName }
        ensures deep { is_name name.now ≡ true → 40 ≤ length self.old → result ≡ Err PathError.TooDeep }
    {
        if let Some(refusal) = self.refusal(name) {
            return Err(refusal);
        }
        let name = Name::of(name.to_vec(*self.names.allocator())?);
        self.push_name(name)?;
        Ok(())
    }

    // Why this text can't be one name more, or None where it can.
    fn refusal(&self, name: &[u8]) -> Option<PathError>
        ensures none { IfNone result ((is_name name.now ≡ true) × (length self.now < 40)) }
        ensures some { IfSome result (λ e. added self.now name.now ≡ Err e) }
        ensures bad { is_name name.now ≡ false → result ≡ Some PathError.BadName }
        ensures deep { is_name name.now ≡ true → 40 ≤ length self.now → result ≡ Some PathError.TooDeep }
    {
        if !is_name(name) {
            return Some(PathError::BadName);
        }
        if self.names.len() >= Path::MAX_NAMES {
            return Some(PathError::TooDeep);
        }
        None
    }
}

impl PartialEq for Path {
    ghost use Rattle.std.specs.Ordering.{eq_by_cmp};
    ghost use Rattle.outside.specs.Names.{path_cmp};
    ghost use Rattle.outside.specs.Order.{paths_equal_partly};

    ghost eq = { eq_by_cmp path_cmp };

    ghost laws = { paths_equal_partly };

    fn eq(&self, other: &Path) -> bool
        ensures gives { result ≡ eq_by_cmp path_cmp self.now other.now }
        ensures exact { IsTrue result ↔ (self.now ≡ other.now) }
    {
        self.cmp(other).is_eq()
    }
}

impl Eq for Path {
    ghost use Rattle.outside.specs.Order.{paths_equal};

    ghost laws = { paths_equal };
}

impl Ord for Path {
    ghost use Rattle.std.proofs.Common.{rules};
    ghost use Rattle.std.specs.Cmp.Rules.{comparing};
    ghost use Rattle.outside.specs.Names.{path_cmp};
    ghost use Rattle.outside.specs.Order.{path_total};

    ghost cmp = { path_cmp };

    ghost total = { path_total };

    ghost matches_partial_cmp = { Prim.search (comparing, rules) };

    ghost matches_eq = { Prim.search (comparing, rules) };

    fn cmp(&self, other: &Path) -> Ordering {
        self.names.cmp(&other.names)
    }
}

impl PartialOrd for Path {
    ghost use Rattle.std.specs.Ordering.{as_partial_cmp};
    ghost use Rattle.outside.specs.Names.{path_cmp};
    ghost use Rattle.outside.specs.Order.{paths_ordered};

    ghost partial_cmp = { as_partial_cmp path_cmp };

    ghost laws = { paths_ordered };

    fn partial_cmp(&self, other: &Path) -> Option<Ordering> {
        Some(self.cmp(other))
    }
}
