//! The steps that lead from one version to another.
ghost use Rattle.std.specs.Prelude.{◌≡◌, ◌↔◌, ◌⊎◌, Contains, IfOk, IfSome, IfNone, IsErrOf, IsTrue, Some, map};
ghost use Rattle.std.specs.List.{list_all};
ghost use Rattle.std.specs.Option.{option_copied};
ghost use Rattle.version_links.specs.declared.version.Version.{Version as Three};
ghost use Rattle.release_file.specs.declared.transition.Transition.{Transition as Known};
ghost use Rattle.release_file.specs.Order.{is_upto};
ghost use Rattle.release_file.specs.Release.{leads_on};
ghost use Rattle.release_file.specs.Chain.{IsFarthest, IsChain, IsMissing, IsWay, HasNoPlan};

use crate::order::{is_before, is_same, is_upto};
use crate::plan_error::PlanError;
use crate::transition::Transition;
use std::alloc::Global;
use version_links::Version;

// The one of two steps that goes farther.
fn farther<'a>(best: Option<&'a Transition>, other: &'a Transition) -> &'a Transition
    ensures one { (result.now ≡ other.now) ⊎ (option_copied best.entry ≡ Some result.now) }
    ensures other { IsTrue (is_upto other.now.to result.now.to) }
    ensures best { IfSome (option_copied best.entry) (λ b. IsTrue (is_upto b.to result.now.to)) }
{
    match best {
        Some(best) if is_upto(&other.to, &best.to) => best,
        _ => other,
    }
}

// The step begins at the version and doesn't go beyond the target.
fn fits(transition: &Transition, at: &Version, target: &Version) -> bool
    ensures { IsTrue result ↔ ((transition.now.from ≡ at.now) × IsTrue (is_upto transition.now.to target.now)) }
{
    is_same(&transition.from, at) && is_upto(&transition.to, target)
}

// The farthest of the steps that begin at the version and don't go beyond the target.
fn farthest<'a>(all: &'a [Transition], at: &Version, target: &Version) -> Option<&'a Transition>
    ensures some { IfSome result (λ t. IsFarthest all.now at.now target.now t.now) }
    ensures none { IfNone result ((t : Known) → Contains all.now t → t.from ≡ at.now → IsTrue (is_upto t.to target.now) → ⊥) }
{
    let mut best = None;
    for t in all {
        if fits(t, at, target) {
            best = Some(farther(best, t));
        }
    }
    best
}

// The chain from a version to a target. It takes a step through all transitions for each that it takes.
fn chain_of<'a>(
    alloc: Global,
    all: &'a [Transition],
    from: &Version,
    target: &Version,
) -> Result<Vec<&'a Transition>, PlanError>
    requires { IsTrue (list_all leads_on all.now) }
    ensures ok { IfOk result (λ chain. IsChain all.now from.now target.now (map (λ t. t.now) chain.items)) }
    ensures missing { (at end : Three) → IsErrOf result (PlanError.Missing at end) → (end ≡ target.now) × IsMissing all.now from.now target.now at }
{
    let mut chain = Vec::new(alloc);
    let mut at = *from;
    while !is_same(&at, target) {
        let Some(next) = farthest(all, &at, target) else {
            return Err(PlanError::Missing {
                at,
                target: *target,
            });
        };
        chain.push(next)?;
        at = next.to;
    }
    Ok(chain)
}

/// The steps that lead from one version to the other, in the order in which they are made: forward, or back from the
/// later version to the earlier one.
pub fn way<'a>(
    alloc: Global,
    all: &'a [Transition],
    from: &Version,
    to: &Version,
) -> Result<Vec<&'a Transition>, PlanError>
    requires { IsTrue (list_all leads_on all.now) }
    ensures ok { IfOk result (λ way. IsWay all.now from.now to.now (map (λ t. t.now) way.items)) }
    ensures missing { (at end : Three) → IsErrOf result (PlanError.Missing at end) → HasNoPlan all.now from.now to.now at end }
{
    if is_before(to, from) {
        let mut chain = chain_of(alloc, all, to, from)?;
        chain.reverse();
        Ok(chain)
    } else {
        chain_of(alloc, all, from, to)
    }
}
