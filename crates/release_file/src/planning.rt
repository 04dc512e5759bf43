//! Plans: the steps from one version to another.
ghost use Rattle.std.specs.Prelude.{◌≡◌, IfOk, IsErrOf};
ghost use Rattle.version_links.specs.declared.version.Version.{Version as Three};
ghost use Rattle.release_file.specs.Chain.{step_of, IsPlan, HasNoPlan};

use crate::chain::way;
use crate::order::is_before;
use crate::plan_error::PlanError;
use crate::release::Release;
use crate::transition::Transition;
use std::alloc::Global;
use version_links::Version;

/// A step of a plan.
#[derive(Clone, Copy, Debug, Drop, PartialEq, Eq)]
pub struct Step {
    /// The version before it.
    pub from: Version,
    /// The version after it.
    pub to: Version,
    /// Whether it takes back a transition.
    pub back: bool,
}

fn step_of(back: bool, transition: &Transition) -> Step
    ensures { result ≡ step_of back transition.now }
{
    if back {
        Step {
            from: transition.to,
            to: transition.from,
            back,
        }
    } else {
        Step {
            from: transition.from,
            to: transition.to,
            back,
        }
    }
}

/// The steps that lead from one version to another by the transitions of the release: forward, from each version the
/// one that goes farthest and not beyond the target; back, those that lead forward from the target, in reverse order.
/// Equal versions give no step.
///
/// `Missing` exactly where the chain forward comes to a version before its target from which none leads on, with that
/// version and the chain's target, which on the way back is `from`. `Memory` where it ran out of memory.
pub fn plan(
    alloc: Global,
    from: &Version,
    to: &Version,
    release: &Release,
) -> Result<Vec<Step>, PlanError>
    ensures ok { IfOk result (λ steps. IsPlan release.now.transitions.items from.now to.now steps.items) }
    ensures missing { (at target : Three) → IsErrOf result (PlanError.Missing at target) → HasNoPlan release.now.transitions.items from.now to.now at target }
{
    let way = way(alloc, &release.transitions, from, to)?;
    let back = is_before(to, from);
    let mut steps = Vec::new(alloc);
    for transition in &way {
        steps.push(step_of(back, transition))?;
    }
    Ok(steps)
}
