//! Items and children, joined.
ghost use Rattle.std.specs.Prelude.{◌≡◌, ◌≢◌, ◌++◌, map, IfErr, OnOk, Err};
ghost use Rattle.std.specs.List.{join_by};
ghost use Rattle.template_eval.specs.Written.{item_text};
ghost use Rattle.template_eval.specs.Rendered.{onto, joined};
ghost use Rattle.template_eval.specs.Render.{name_of};
ghost use Rattle.template_eval.specs.Kept.{Keeps, Follows};
ghost use Rattle.template_eval.specs.Steps.{Adds};
ghost use Rattle.template_eval.specs.Views.{place_of, places_in, pair_of};

use crate::RenderError;
use crate::inputs::Inputs;
use crate::keys::last_name;
use crate::node::Node;
use crate::nodes::node;
use crate::place::Place;
use crate::places::Places;
use crate::refusals::{child_missing, child_not_scalar};
use crate::scalars::{push_atom, push_item};
use settings_tree::Item;
use std::alloc::AllocError;
use template_reader::Walk;

/// Adds the texts of the items, joined. The only error is out of memory.
pub fn push_items(items: &[Item], joiner: &[u8], out: &mut Vec<u8>) -> Result<(), AllocError>
    ensures { OnOk result
        (out.new.items ≡ out.old.items ++ join_by item_text joiner.now items.now) }
{
    let Some((first, rest)) = items.split_first() else {
        return Ok(());
    };
    push_item(out, first)?;
    for item in rest {
        out.extend_from_slice(joiner)?;
        push_item(out, item)?;
    }
    Ok(())
}

// The name of a child.
fn name_of<'a>(place: &'a Place<'a>) -> &'a str
    ensures { result.now ≡ name_of (place_of place.now) }
{
    match place {
        Place::At(key) => last_name(key),
        Place::Made(key) => last_name(key),
        Place::Leaf { key, .. } => last_name(key),
        Place::System(name) => name.name.as_str(),
        _ => "",
    }
}

// Adds a child: its name, the joiner and its text.
fn push_child(
    inputs: &Inputs<'_>,
    place: &Place<'_>,
    joiner: &[u8],
    path: &Walk,
    out: &mut Vec<u8>,
) -> Result<(), RenderError>
    requires { Keeps inputs.now.content.now place.now }
    ensures ok { OnOk result
        (Adds (pair_of inputs.now joiner.now path.now (place_of place.now))
        out.old.items out.new.items) }
    ensures err { IfErr result (λ e. e ≢ RenderError.Memory
        → pair_of inputs.now joiner.now path.now (place_of place.now) ≡ Err e) }
{
    let name = name_of(place);
    out.extend_from_slice(name.as_bytes())?;
    out.extend_from_slice(joiner)?;
    match node(inputs.content, inputs.os, place) {
        Node::Atom(atom) => {
            push_atom(out, atom)?;
            Ok(())
        }
        Node::Missing => Err(child_missing(inputs.alloc, path, name)),
        Node::Items(_) => Err(child_not_scalar(inputs.alloc, path, name)),
        Node::Children(_) => Err(child_not_scalar(inputs.alloc, path, name)),
    }
}

// Adds a child after what leads it.
fn push_behind(
    inputs: &Inputs<'_>,
    place: &Place<'_>,
    lead: &[u8],
    joiner: &[u8],
    path: &Walk,
    out: &mut Vec<u8>,
) -> Result<(), RenderError>
    requires { Keeps inputs.now.content.now place.now }
    ensures ok { OnOk result
        (Adds (onto lead.now (pair_of inputs.now joiner.now path.now (place_of place.now)))
        out.old.items out.new.items) }
    ensures err { IfErr result (λ e. e ≢ RenderError.Memory
        → pair_of inputs.now joiner.now path.now (place_of place.now) ≡ Err e) }
{
    out.extend_from_slice(lead)?;
    push_child(inputs, place, joiner, path, out)
}

/// Adds the children, joined by the separator: each its name and its text, joined by the joiner.
pub fn push_children(
    inputs: &Inputs<'_>,
    places: Places<'_>,
    joiner: &[u8],
    separator: &[u8],
    path: &Walk,
    out: &mut Vec<u8>,
) -> Result<(), RenderError>
    requires { Follows inputs.now.content.now places }
    ensures ok { OnOk result
        (Adds (joined separator.now
        (map (pair_of inputs.now joiner.now path.now) (places_in inputs.now places.entry)))
        out.old.items out.new.items) }
    ensures err { IfErr result (λ e. e ≢ RenderError.Memory
        → joined separator.now
        (map (pair_of inputs.now joiner.now path.now) (places_in inputs.now places.entry)) ≡ Err e) }
{
    let mut rest = places;
    let mut lead: &[u8] = &[];
    while let Some(split) = rest.split_first(inputs.content)? {
        push_behind(inputs, &split.first, lead, joiner, path, out)?;
        lead = separator;
        rest = split.rest;
    }
    Ok(())
}
