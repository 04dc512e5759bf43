//! Templates rendered, node by node.
ghost use Rattle.std.specs.Prelude.{◌≡◌, ◌≢◌, length, IfErr, IfOk, OnOk, Ok, Err, None, Some};
ghost use Rattle.template_reader.specs.Forest.{tree_of, tree_in, branch_of};
ghost use Rattle.template_reader.specs.Spans.{RiseWithin, spans_of};
ghost use Rattle.settings_tree.specs.Content.{Contents};
ghost use Rattle.template_eval.specs.Place as spots;
ghost use Rattle.template_eval.specs.Written.{path_text};
ghost use Rattle.template_eval.specs.Rendered.{Rendered};
ghost use Rattle.template_eval.specs.Render.{render, is_first, each_of, each_text};
ghost use Rattle.template_eval.specs.Node.{is_true};
ghost use Rattle.template_eval.specs.Lies.{Lies, LiesOne};
ghost use Rattle.template_eval.specs.Kept.{Keeps, KeepsHere, Follows, NodeFollows};
ghost use Rattle.template_eval.specs.Steps.{Adds};
ghost use Rattle.template_eval.specs.Views.{node_of, place_of, places_of, places_in, seen};
ghost use Rattle.template_eval.specs.Views.{found, rendering, rendering_one, each_rendering, places_rendering, firsts_rendering};

use crate::RenderError;
use crate::expressions::push_expr;
use crate::inputs::Inputs;
use crate::node::Node as Found;
use crate::nodes::node;
use crate::place::{Here, Place, place_at};
use crate::places::Places;
use crate::refusals::{missing, not_list};
use crate::scalars::is_true;
use settings_tree::{LiveView, Os};
use std::alloc::{AllocError, Global};
use template_reader::{Node, Nodes, Template, Walk, piece};

// Whether the first part of an if, or of an unless, is rendered.
fn is_first(
    inputs: &Inputs<'_>,
    unless: bool,
    path: &Walk,
    here: Option<&Here<'_>>,
) -> Result<bool, AllocError>
    requires { KeepsHere inputs.now.content.now here }
    ensures { IfOk result
        (λ b. b ≡ is_first unless (is_true (found inputs.now (seen here.entry) path.now))) }
{
    let place = place_at(here, path)?;
    let truth = is_true(inputs.content, node(inputs.content, inputs.os, &place));
    Ok(if unless { !truth } else { truth })
}

// The items of a list or the children of a map, of which an each needs one.
fn listed<'a>(alloc: Global, node: Found<'a>, path: &Walk) -> Result<Places<'a>, RenderError>
    ensures follows { (content : Contents) → NodeFollows content node.entry → IfOk result (Follows content) }
    ensures ok { (content : Contents) (first : spots.Here → Rendered) (other : Rendered) → IfOk result
        (λ places. each_text (path_text path.now) first other (node_of content node.entry)
        ≡ each_of first other (places_of content places)) }
    ensures err { (content : Contents) (first : spots.Here → Rendered) (other : Rendered) → IfErr result
        (λ e. e ≢ RenderError.Memory
        → each_text (path_text path.now) first other (node_of content node.entry) ≡ Err e) }
{
    match node {
        Found::Missing => Err(missing(alloc, path)),
        Found::Atom(_) => Err(not_list(alloc, path)),
        Found::Items(items) => Ok(Places::Items(items)),
        Found::Children(places) => Ok(places),
    }
}

// The nodes, one after another.
#[cycle(render)]
fn push_nodes(
    inputs: &Inputs<'_>,
    nodes: &[Node],
    here: Option<&Here<'_>>,
    out: &mut Vec<u8>,
) -> Result<(), RenderError>
    requires lies { Lies (length inputs.now.source.now) (tree_of nodes.now) }
    requires here { KeepsHere inputs.now.content.now here }
    ensures ok { OnOk result
        (Adds (rendering inputs.now (tree_of nodes.now) (seen here.entry))
        out.old.items out.new.items) }
    ensures err { IfErr result (λ e. e ≢ RenderError.Memory
        → rendering inputs.now (tree_of nodes.now) (seen here.entry) ≡ Err e) }
{
    for node in nodes {
        push_node(inputs, node, here, out)?;
    }
    Ok(())
}

#[cycle(render)]
fn push_node(
    inputs: &Inputs<'_>,
    node: &Node,
    here: Option<&Here<'_>>,
    out: &mut Vec<u8>,
) -> Result<(), RenderError>
    requires lies { LiesOne (length inputs.now.source.now) (branch_of node.now) }
    requires here { KeepsHere inputs.now.content.now here }
    ensures ok { OnOk result
        (Adds (rendering_one inputs.now (branch_of node.now) (seen here.entry))
        out.old.items out.new.items) }
    ensures err { IfErr result (λ e. e ≢ RenderError.Memory
        → rendering_one inputs.now (branch_of node.now) (seen here.entry) ≡ Err e) }
{
    match node {
        Node::Text { span } => {
            out.extend_from_slice(piece(inputs.source, *span))?;
            Ok(())
        }
        Node::Print { expr } => push_expr(inputs, expr, here, out),
        Node::Test {
            unless,
            path,
            first,
            other,
        } => {
            if is_first(inputs, *unless, path, here)? {
                push_nodes(inputs, first.as_slice(), here, out)
            } else {
                push_nodes(inputs, other.as_slice(), here, out)
            }
        }
        Node::Each { path, first, other } => push_each(inputs, path, first, other, here, out),
    }
}

// An each: its first part for each item or child, or its other part where there is none.
#[cycle(render)]
fn push_each(
    inputs: &Inputs<'_>,
    path: &Walk,
    first: &Nodes,
    other: &Nodes,
    here: Option<&Here<'_>>,
    out: &mut Vec<u8>,
) -> Result<(), RenderError>
    requires first { Lies (length inputs.now.source.now) (tree_in first.now) }
    requires other { Lies (length inputs.now.source.now) (tree_in other.now) }
    requires here { KeepsHere inputs.now.content.now here }
    ensures ok { OnOk result
        (Adds (each_rendering inputs.now path.now (tree_in first.now) (tree_in other.now)
        (seen here.entry)) out.old.items out.new.items) }
    ensures err { IfErr result (λ e. e ≢ RenderError.Memory
        → each_rendering inputs.now path.now (tree_in first.now) (tree_in other.now)
        (seen here.entry) ≡ Err e) }
{
    let place = place_at(here, path)?;
    let places = listed(inputs.alloc, node(inputs.content, inputs.os, &place), path)?;
    push_places(inputs, places, first, other, here, out)
}

#[cycle(render)]
fn push_places(
    inputs: &Inputs<'_>,
    places: Places<'_>,
    first: &Nodes,
    other: &Nodes,
    here: Option<&Here<'_>>,
    out: &mut Vec<u8>,
) -> Result<(), RenderError>
    requires follows { Follows inputs.now.content.now places }
    requires first { Lies (length inputs.now.source.now) (tree_in first.now) }
    requires other { Lies (length inputs.now.source.now) (tree_in other.now) }
    requires here { KeepsHere inputs.now.content.now here }
    ensures ok { OnOk result
        (Adds (places_rendering inputs.now (places_in inputs.now places.entry) (tree_in first.now)
        (tree_in other.now) (seen here.entry)) out.old.items out.new.items) }
    ensures err { IfErr result (λ e. e ≢ RenderError.Memory
        → places_rendering inputs.now (places_in inputs.now places.entry) (tree_in first.now)
        (tree_in other.now) (seen here.entry) ≡ Err e) }
{
    if places.is_empty(inputs.content) {
        push_nodes(inputs, other.as_slice(), here, out)
    } else {
        push_firsts(inputs, places, first, out)
    }
}

// The first part of an each, for the place at this index.
#[cycle(render)]
fn push_first(
    inputs: &Inputs<'_>,
    place: Place<'_>,
    index: usize,
    first: &Nodes,
    out: &mut Vec<u8>,
) -> Result<(), RenderError>
    requires lies { Lies (length inputs.now.source.now) (tree_in first.now) }
    requires kept { Keeps inputs.now.content.now place }
    ensures ok { OnOk result
        (Adds (rendering inputs.now (tree_in first.now)
        (Some (record { this = place_of place.entry; index = index }))) out.old.items out.new.items) }
    ensures err { IfErr result (λ e. e ≢ RenderError.Memory
        → rendering inputs.now (tree_in first.now)
        (Some (record { this = place_of place.entry; index = index })) ≡ Err e) }
{
    let here = Here { this: place, index };
    push_nodes(inputs, first.as_slice(), Some(&here), out)
}

// The first part of an each, for each of these places.
#[cycle(render)]
fn push_firsts(
    inputs: &Inputs<'_>,
    places: Places<'_>,
    first: &Nodes,
    out: &mut Vec<u8>,
) -> Result<(), RenderError>
    requires lies { Lies (length inputs.now.source.now) (tree_in first.now) }
    requires follows { Follows inputs.now.content.now places }
    ensures ok { OnOk result
        (Adds (firsts_rendering inputs.now (places_in inputs.now places.entry) (tree_in first.now))
        out.old.items out.new.items) }
    ensures err { IfErr result (λ e. e ≢ RenderError.Memory
        → firsts_rendering inputs.now (places_in inputs.now places.entry) (tree_in first.now) ≡ Err e) }
{
    let mut rest = places;
    let mut index: usize = 0;
    while let Some(split) = rest.split_first(inputs.content)? {
        push_first(inputs, split.first, index, first, out)?;
        rest = split.rest;
        // More places than an index counts don't fit in memory.
        index = index.checked_add(1).ok_or(AllocError)?;
    }
    Ok(())
}

/// The bytes that the template renders to, or the first refusal in order of evaluation. The
/// template was read from the source, so that the spans of its texts lie in it.
///
/// Paths lead through the tree of the live values whose key doesn't begin with `os`, together with
/// `os`, a map of the names of the operating system to their texts; `this` leads on from the item
/// or the child of the innermost `each`. Weak keys count as all others. False are `false`, 0, the
/// empty text, list and map, what is missing, and a child's name `0`.
///
/// It takes time linear in the output and in the values below the paths of the `each`s and
/// `join_map`s, up to a logarithm. It builds no tree, and recurses as deep as the blocks are
/// nested.
pub fn render(
    alloc: Global,
    template: &Template,
    source: &[u8],
    content: &LiveView<'_>,
    os: &Os,
) -> Result<Vec<u8>, RenderError>
    requires { RiseWithin 0 (spans_of (tree_in template.now.nodes)) (length source.now) }
    ensures ok { IfOk result
        (λ out. render content.now os.now source.now (tree_in template.now.nodes) None
        ≡ Ok out.items) }
    ensures err { IfErr result (λ e. e ≢ RenderError.Memory
        → render content.now os.now source.now (tree_in template.now.nodes) None ≡ Err e) }
{
    let inputs = Inputs {
        alloc,
        source,
        content,
        os,
    };
    let mut out = Vec::new(alloc);
    push_nodes(&inputs, template.nodes.as_slice(), None, &mut out)?;
    Ok(out)
}
