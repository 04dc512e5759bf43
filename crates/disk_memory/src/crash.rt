//! What a crash leaves.
ghost use Rattle.std.specs.Prelude.{◌∷◌, [], Some, unwrap_or, OnOk};
ghost use Rattle.std.specs.Option.{option_copied};
ghost use Rattle.std.specs.BTreeMap.{get};
ghost use Rattle.outside.specs.Names.{path_cmp};
ghost use Rattle.disk_memory.specs.declared.pick.Pick.TheVariants.{New};
ghost use Rattle.disk_memory.specs.Recorded.{StaysKept, IsUpdated, touched_again, LaysPick, LaysPicks};

use crate::change::{Change, Touch};
use crate::map::set_at;
use crate::node::copy_of;
use crate::{Node, Pick};
use outside::Path;
use std::alloc::AllocError;
use std::collections::BTreeMap;

// The path is touched once more, where this node was.
fn note(
    touches: &mut BTreeMap<Path, Touch>,
    path: &Path,
    node: Option<Node>,
    in_place: bool,
) -> Result<(), AllocError>
    ensures { OnOk result (IsUpdated touches.old touches.new path.now (Some (touched_again (get path_cmp touches.old path.now) node in_place))) }
{
    let touch = match touches.remove(path) {
        Some(touch) => Touch {
            before: touch.before,
            in_place: touch.in_place || in_place,
        },
        None => Touch {
            before: node,
            in_place,
        },
    };
    touches.insert(path.copy()?, touch)?;
    Ok(())
}

// Makes the change once more.
#[tactic(auto, using(crate::proofs::Touches::kept))]
fn follow(
    nodes: &mut BTreeMap<Path, Node>,
    touches: &mut BTreeMap<Path, Touch>,
    change: &Change,
) -> Result<(), AllocError>
    ensures { OnOk result (StaysKept (change.now ∷ []) nodes.old nodes.new touches.old touches.new) }
{
    match change {
        Change::Put(path, node, in_place) => {
            let before = set_at(nodes, path.copy()?, copy_of(node)?)?;
            note(touches, path, before, *in_place)?;
            Ok(())
        }
        Change::Synced => {
            touches.clear();
            Ok(())
        }
    }
}

/// Makes the changes once more, and notes which paths were touched since the last sync.
#[tactic(auto, using(crate::proofs::Touches::kept_nothing))]
pub fn follow_all(
    nodes: &mut BTreeMap<Path, Node>,
    touches: &mut BTreeMap<Path, Touch>,
    changes: &[Change],
) -> Result<(), AllocError>
    ensures { OnOk result (StaysKept changes.now nodes.old nodes.new touches.old touches.new) }
{
    for change in changes {
        follow(nodes, touches, change)?;
    }
    Ok(())
}

// Leaves of the path what the pick says, New where there is none.
#[tactic(auto, using(crate::proofs::Picks::laid))]
fn lay_pick(
    nodes: &mut BTreeMap<Path, Node>,
    path: &Path,
    touch: &Touch,
    pick: Option<&Pick>,
) -> Result<(), AllocError>
    ensures { OnOk result (LaysPick path.now touch.now (unwrap_or (option_copied pick.entry) New) nodes.old nodes.new) }
{
    let node = match pick {
        None | Some(Pick::New) => return Ok(()),
        Some(Pick::Gone) if touch.in_place => None,
        Some(Pick::Torn(bytes)) if touch.in_place => Some(Node::File(bytes.copy()?)),
        Some(_) => copy_of(&touch.before)?,
    };
    set_at(nodes, path.copy()?, node)?;
    Ok(())
}

/// Leaves of each path that was touched what its pick says, in the order of paths.
pub fn lay_picks(
    nodes: &mut BTreeMap<Path, Node>,
    touches: &BTreeMap<Path, Touch>,
    picks: &[Pick],
) -> Result<(), AllocError>
    ensures { OnOk result (LaysPicks picks.now touches.now nodes.old nodes.new) }
{
    let mut choices = picks.iter();
    for (path, touch) in touches.iter() {
        lay_pick(nodes, path, touch, choices.next())?;
    }
    Ok(())
}
