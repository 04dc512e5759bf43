//! Templates that are kept with their sources.
ghost use Rattle.std.specs.Prelude.{◌≡◌, ◌≢◌, List, ℕ, Some, None, IfOk, IfErr, IfSome, IfNone, OnOk, OnErr, if◌then◌else◌};
ghost use Rattle.std.specs.Option.{option_copied};
ghost use Rattle.std.specs.Str.{bytes_eq};
ghost use Rattle.template_reader.specs.Forest.{tree_in};
ghost use Rattle.template_reader.specs.Parses.{Parses, fault};
ghost use Rattle.template_reader.specs.Kept.{source_of};

use crate::kept::Kept;
use crate::template::read;
use crate::{Template, TemplateError, TemplateKind};
use key_names::{Bytes, Text};
use std::alloc::{AllocError, Global};
use std::collections::BTreeMap;

/// The source of a template, and the template that it is, both borrowed.
#[derive(Clone, Copy, Drop)]
pub struct Parsed<'a> {
    pub source: &'a [u8],
    pub template: &'a Template,
}

/// The templates of configuration files, each with its source. It keeps the allocator that it was
/// made with.
#[derive(Drop)]
pub struct Templates {
    kept: BTreeMap<Vec<u8>, Kept>,
    alloc: Global,
}

impl Templates {
    /// No templates. It takes no memory.
    pub fn new(alloc: Global) -> Templates
        ensures { (file : List ℕ) → source_of result file ≡ None }
    {
        Templates {
            kept: BTreeMap::new(alloc),
            alloc,
        }
    }

    fn keep(&mut self, file: &[u8], source: Bytes, template: Template) -> Result<(), AllocError>
        requires { Parses source (tree_in template.nodes) }
        ensures ok { OnOk result ((name : List ℕ) → source_of self.new name
            ≡ (if bytes_eq name file.now then Some source else source_of self.old name)) }
        ensures err { OnErr result ((name : List ℕ) → source_of self.new name ≡ source_of self.old name) }
    {
        let name = file.to_vec(self.alloc)?;
        self.kept.insert(name, Kept { source, template })?;
        Ok(())
    }

    /// Reads the source, and keeps it and its template for a file that has none. The errors are those
    /// of `read`; after one it has what it had.
    pub fn add(&mut self, file: Text, source: Bytes) -> Result<(), TemplateError>
        requires { source_of self.old file ≡ None }
        ensures ok { OnOk result ((name : List ℕ) → source_of self.new name
            ≡ (if bytes_eq name file then Some source else source_of self.old name)) }
        ensures faultless { OnOk result (fault source ≡ None) }
        ensures refused { IfErr result (λ e. e.kind ≢ TemplateKind.Memory → fault source ≡ Some e) }
        ensures err { OnErr result ((name : List ℕ) → source_of self.new name ≡ source_of self.old name) }
    {
        let template = read(self.alloc, source.as_slice())?;
        self.keep(file.as_str().as_bytes(), source, template)?;
        Ok(())
    }

    /// The source of the file, None exactly where none was added. It is logarithmic and takes no
    /// memory.
    pub fn source(&self, file: &[u8]) -> Option<&[u8]>
        ensures { option_copied result ≡ source_of self.now file.now }
    {
        match self.kept.get(file) {
            Some(kept) => Some(kept.source.as_slice()),
            None => None,
        }
    }

    /// The source of the file and the template that it is, None exactly where none was added. It is
    /// logarithmic and takes no memory.
    pub fn parsed(&self, file: &[u8]) -> Option<Parsed<'_>>
        ensures source { IfSome result (λ p. source_of self.now file.now ≡ Some p.source.now) }
        ensures template { IfSome result (λ p. Parses p.source.now (tree_in p.template.now.nodes)) }
        ensures none { IfNone result (source_of self.now file.now ≡ None) }
    {
        match self.kept.get(file) {
            Some(kept) => Some(Parsed {
                source: kept.source.as_slice(),
                template: &kept.template,
            }),
            None => None,
        }
    }
}
