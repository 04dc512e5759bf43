//! What expressions print.
ghost use Rattle.std.specs.Prelude.{◌≡◌, ◌≢◌, IfErr, OnOk, Err};
ghost use Rattle.base64.specs.Engines.{standard};
ghost use Rattle.base64.specs.GeneralPurpose.{decode_of};
ghost use Rattle.template_eval.specs.Written.{path_text, literal_text};
ghost use Rattle.template_eval.specs.Render.{node_text, default_text, decoded, decode_text, json_node, join_array_text, join_map_text};
ghost use Rattle.template_eval.specs.Kept.{KeepsHere, NodeFollows};
ghost use Rattle.template_eval.specs.Steps.{Adds};
ghost use Rattle.template_eval.specs.Views.{atom_node, node_in, seen, pair_of, printing, expression};

use crate::RenderError;
use crate::inputs::Inputs;
use crate::joins::{push_children, push_items};
use crate::node::{Atom, Node};
use crate::nodes::node;
use crate::place::{Here, place_at};
use crate::quoting::{push_json, push_json_list};
use crate::refusals::{bad_base64, missing, not_list, not_scalar};
use crate::scalars::{push_atom, push_literal};
use base64::DecodeAllocError;
use base64::engine::general_purpose::STANDARD;
use key_names::Text;
use std::alloc::Global;
use template_reader::{Expr, Literal, Walk};

// Adds the text of a node, which has to be a scalar.
fn push_node(
    inputs: &Inputs<'_>,
    node: &Node<'_>,
    path: &Walk,
    out: &mut Vec<u8>,
) -> Result<(), RenderError>
    ensures ok { OnOk result
        (Adds (node_text (path_text path.now) (node_in inputs.now node.now)) out.old.items out.new.items) }
    ensures err { IfErr result (λ e. e ≢ RenderError.Memory
        → node_text (path_text path.now) (node_in inputs.now node.now) ≡ Err e) }
{
    match node {
        Node::Missing => Err(missing(inputs.alloc, path)),
        Node::Atom(atom) => {
            push_atom(out, *atom)?;
            Ok(())
        }
        Node::Items(_) => Err(not_scalar(inputs.alloc, path)),
        Node::Children(_) => Err(not_scalar(inputs.alloc, path)),
    }
}

// Adds the text of a node, or of the literal where there is nothing.
fn push_default(
    inputs: &Inputs<'_>,
    node: &Node<'_>,
    literal: &Literal,
    path: &Walk,
    out: &mut Vec<u8>,
) -> Result<(), RenderError>
    ensures ok { OnOk result
        (Adds (default_text (literal_text literal.now) (path_text path.now) (node_in inputs.now node.now))
        out.old.items out.new.items) }
    ensures err { IfErr result (λ e. e ≢ RenderError.Memory
        → default_text (literal_text literal.now) (path_text path.now) (node_in inputs.now node.now)
        ≡ Err e) }
{
    match node {
        Node::Missing => {
            push_literal(out, literal)?;
            Ok(())
        }
        _ => push_node(inputs, node, path, out),
    }
}

// Adds the bytes of which the text is the base64.
fn push_decoded(
    alloc: Global,
    text: &[u8],
    path: &Walk,
    out: &mut Vec<u8>,
) -> Result<(), RenderError>
    ensures ok { OnOk result
        (Adds (decoded (path_text path.now) (decode_of standard text.now))
        out.old.items out.new.items) }
    ensures err { IfErr result (λ e. e ≢ RenderError.Memory
        → decoded (path_text path.now) (decode_of standard text.now) ≡ Err e) }
{
    match STANDARD.decode_vec(text, out) {
        Ok(()) => Ok(()),
        Err(DecodeAllocError::OutOfMemory) => Err(RenderError::Memory),
        Err(DecodeAllocError::DecodeError(_)) => Err(bad_base64(alloc, path)),
    }
}

fn push_decoded_atom(
    alloc: Global,
    atom: Atom<'_>,
    path: &Walk,
    out: &mut Vec<u8>,
) -> Result<(), RenderError>
    ensures ok { OnOk result
        (Adds (decode_text (path_text path.now) (atom_node atom.entry))
        out.old.items out.new.items) }
    ensures err { IfErr result (λ e. e ≢ RenderError.Memory
        → decode_text (path_text path.now) (atom_node atom.entry) ≡ Err e) }
{
    match atom {
        Atom::Text(text) => push_decoded(alloc, text.as_str().as_bytes(), path, out),
        Atom::Name(name) => push_decoded(alloc, name.as_bytes(), path, out),
        Atom::Bool(_) => Err(bad_base64(alloc, path)),
        Atom::Int(_) => Err(bad_base64(alloc, path)),
        Atom::Index(_) => Err(bad_base64(alloc, path)),
    }
}

// Adds the bytes of which the text of a node is the base64.
fn push_decoded_node(
    inputs: &Inputs<'_>,
    node: &Node<'_>,
    path: &Walk,
    out: &mut Vec<u8>,
) -> Result<(), RenderError>
    ensures ok { OnOk result
        (Adds (decode_text (path_text path.now) (node_in inputs.now node.now)) out.old.items out.new.items) }
    ensures err { IfErr result (λ e. e ≢ RenderError.Memory
        → decode_text (path_text path.now) (node_in inputs.now node.now) ≡ Err e) }
{
    match node {
        Node::Missing => Err(missing(inputs.alloc, path)),
        Node::Atom(atom) => push_decoded_atom(inputs.alloc, *atom, path, out),
        Node::Items(_) => Err(not_scalar(inputs.alloc, path)),
        Node::Children(_) => Err(not_scalar(inputs.alloc, path)),
    }
}

// Adds a scalar or a list as JSON.
#[tactic(auto, using(crate::proofs::Quoted::atom_json))]
fn push_json_node(
    inputs: &Inputs<'_>,
    node: &Node<'_>,
    path: &Walk,
    out: &mut Vec<u8>,
) -> Result<(), RenderError>
    ensures ok { OnOk result
        (Adds (json_node (path_text path.now) (node_in inputs.now node.now)) out.old.items out.new.items) }
    ensures err { IfErr result (λ e. e ≢ RenderError.Memory
        → json_node (path_text path.now) (node_in inputs.now node.now) ≡ Err e) }
{
    match node {
        Node::Missing => Err(missing(inputs.alloc, path)),
        Node::Atom(atom) => {
            push_json(inputs.alloc, *atom, out)?;
            Ok(())
        }
        Node::Items(items) => {
            push_json_list(inputs.alloc, *items, out)?;
            Ok(())
        }
        Node::Children(_) => Err(not_scalar(inputs.alloc, path)),
    }
}

// Adds the texts of the items of a list, joined.
fn push_array(
    inputs: &Inputs<'_>,
    node: &Node<'_>,
    joiner: &Text,
    path: &Walk,
    out: &mut Vec<u8>,
) -> Result<(), RenderError>
    ensures ok { OnOk result
        (Adds (join_array_text joiner.now (path_text path.now) (node_in inputs.now node.now))
        out.old.items out.new.items) }
    ensures err { IfErr result (λ e. e ≢ RenderError.Memory
        → join_array_text joiner.now (path_text path.now) (node_in inputs.now node.now) ≡ Err e) }
{
    match node {
        Node::Missing => Err(missing(inputs.alloc, path)),
        Node::Items(items) => {
            push_items(*items, joiner.as_str().as_bytes(), out)?;
            Ok(())
        }
        Node::Atom(_) => Err(not_list(inputs.alloc, path)),
        Node::Children(_) => Err(not_list(inputs.alloc, path)),
    }
}

// What `join_map` has besides its path.
#[derive(Clone, Copy, Drop)]
struct MapForm<'a> {
    joiner: &'a Text,
    separator: &'a Text,
    fail: bool,
}

// Adds the children of a map, joined.
fn push_map(
    inputs: &Inputs<'_>,
    node: Node<'_>,
    form: MapForm<'_>,
    path: &Walk,
    out: &mut Vec<u8>,
) -> Result<(), RenderError>
    requires { NodeFollows inputs.now.content.now node }
    ensures ok { OnOk result
        (Adds (join_map_text (pair_of inputs.now form.entry.joiner.now path.now)
        form.entry.separator.now
        form.entry.fail (path_text path.now) (node_in inputs.now node.entry)) out.old.items out.new.items) }
    ensures err { IfErr result (λ e. e ≢ RenderError.Memory
        → join_map_text (pair_of inputs.now form.entry.joiner.now path.now)
        form.entry.separator.now
        form.entry.fail (path_text path.now) (node_in inputs.now node.entry) ≡ Err e) }
{
    match node {
        Node::Missing => {
            if form.fail {
                Err(missing(inputs.alloc, path))
            } else {
                Ok(())
            }
        }
        Node::Children(places) => push_children(
            inputs,
            places,
            form.joiner.as_str().as_bytes(),
            form.separator.as_str().as_bytes(),
            path,
            out,
        ),
        Node::Atom(_) => Err(not_list(inputs.alloc, path)),
        Node::Items(_) => Err(not_list(inputs.alloc, path)),
    }
}

// Adds what the expression prints of what is where its path leads.
fn push_print(
    inputs: &Inputs<'_>,
    expr: &Expr,
    node: Node<'_>,
    out: &mut Vec<u8>,
) -> Result<(), RenderError>
    requires { NodeFollows inputs.now.content.now node }
    ensures ok { OnOk result
        (Adds (printing inputs.now expr.now (node_in inputs.now node.entry)) out.old.items out.new.items) }
    ensures err { IfErr result (λ e. e ≢ RenderError.Memory
        → printing inputs.now expr.now (node_in inputs.now node.entry) ≡ Err e) }
{
    match expr {
        Expr::Plain { path } => push_node(inputs, &node, path, out),
        Expr::Default { literal, path } => push_default(inputs, &node, literal, path, out),
        Expr::Decode { path } => push_decoded_node(inputs, &node, path, out),
        Expr::Json { path } => push_json_node(inputs, &node, path, out),
        Expr::JoinArray { joiner, path } => push_array(inputs, &node, joiner, path, out),
        Expr::JoinMap {
            joiner,
            separator,
            fail,
            path,
        } => {
            let form = MapForm {
                joiner,
                separator,
                fail: *fail,
            };
            push_map(inputs, node, form, path, out)
        }
    }
}

/// Adds what the expression prints, with the item or the child of the innermost each as `here`.
pub fn push_expr(
    inputs: &Inputs<'_>,
    expr: &Expr,
    here: Option<&Here<'_>>,
    out: &mut Vec<u8>,
) -> Result<(), RenderError>
    requires { KeepsHere inputs.now.content.now here }
    ensures ok { OnOk result
        (Adds (expression inputs.now (seen here.entry) expr.now) out.old.items out.new.items) }
    ensures err { IfErr result (λ e. e ≢ RenderError.Memory
        → expression inputs.now (seen here.entry) expr.now ≡ Err e) }
{
    let place = place_at(here, expr.path())?;
    push_print(inputs, expr, node(inputs.content, inputs.os, &place), out)
}
