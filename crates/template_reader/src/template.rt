//! Templates.
ghost use Rattle.std.specs.Prelude.{◌≡◌, ◌≢◌, ◌+◌, ◌<◌, ◌^◌, length, Some, IfOk, IfErr};
ghost use Rattle.template_reader.specs.Forest.{tree_in};
ghost use Rattle.template_reader.specs.Tree.{Tree};
ghost use Rattle.template_reader.specs.Spans.{RiseWithin, spans_of};
ghost use Rattle.template_reader.specs.Parses.{Parses, fault, moved, IsRead, IsRefused};
ghost use Rattle.template_reader.specs.declared.template_error.TemplateError.{TemplateError};

use crate::front::body_start;
use crate::reading::read_body;
use crate::scan::tail;
use crate::{Nodes, TemplateError, TemplateKind};
use std::alloc::Global;

/// A template: its nodes.
#[derive(Drop)]
pub struct Template {
    pub nodes: Nodes,
}

// The fault of a body, seen in a source in which `base` bytes are before it.
fn moved(error: TemplateError, base: usize) -> TemplateError
    requires { base + error.place < 2 ^ 64 }
    ensures { result ≡ moved base error }
{
    TemplateError {
        kind: error.kind,
        place: base + error.place,
    }
}

// The template that the source is, or the first fault.
fn parsed(alloc: Global, source: &[u8]) -> Result<Template, TemplateError>
    ensures ok { IfOk result (λ t. Parses source.now (tree_in t.nodes)) }
    ensures refused { IfErr result (λ e. e.kind ≢ TemplateKind.Memory → fault source.now ≡ Some e) }
{
    let base = body_start(alloc, source)?;
    match read_body(alloc, tail(source, base), base) {
        Ok(nodes) => Ok(Template { nodes }),
        Err(error) => match error.kind {
            TemplateKind::Memory => Err(error),
            _ => Err(moved(error, base)),
        },
    }
}

/// The template that the source is, or the source's first fault in text order; the only other error is
/// out of memory. It takes one pass over the source, after one over the frontmatter.
pub fn read(alloc: Global, source: &[u8]) -> Result<Template, TemplateError>
    ensures ok { IfOk result (λ t. Parses source.now (tree_in t.nodes)) }
    ensures refused { IfErr result (λ e. e.kind ≢ TemplateKind.Memory → fault source.now ≡ Some e) }
    ensures spans { IfOk result (λ t. RiseWithin 0 (spans_of (tree_in t.nodes)) (length source.now)) }

    // So exactly the source's tree is read, and exactly its first fault is answered.
    ensures exact_tree { (t : Tree) → Parses source.now t → IsRead result t }
    ensures exact_fault { (e : TemplateError) → fault source.now ≡ Some e → IsRefused result e }
{
    parsed(alloc, source)
}
