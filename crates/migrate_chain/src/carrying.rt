//! The migrations of a step are carried out.
ghost use Rattle.std.specs.Prelude.{◌≡◌, ◌<◌, length, slice_get, Some, IsTrue, IfErr, OnOk};
ghost use Rattle.release_file.specs.Release.{is_known, names_known, work_of};
ghost use Rattle.migrate_chain.specs.Causes.{HasNamedCause};
ghost use Rattle.migrate_chain.specs.Tasks.{names_in_order, tasks_in};
ghost use Rattle.migrate_chain.specs.Carrying.{IsDone, StopsAt};

use crate::asking::make;
use crate::task_error::TaskError;
use key_names::Text;
use outside::Asker;
use release_file::{Named, Transition, Work};
use settings_tree::Held;
use std::alloc::Global;
use std::mem;

// The name of this index, from the front or from the end.
fn name_at(names: &[Text], back: bool, index: usize) -> &Text
    requires { index < length names.now }
    ensures { slice_get (names_in_order back names.now) index ≡ Some result.now }
{
    if back {
        &names[names.len() - 1 - index]
    } else {
        &names[index]
    }
}

// What the migration of this name does.
fn work_named<'a>(migrations: &'a [Named], name: &Text) -> &'a Work
    requires { IsTrue (is_known migrations.now name.now) }
    ensures { work_of migrations.now name.now ≡ Some result.now }
{
    let mut rest = migrations;
    while let [first, others @ ..] = rest {
        if *name == first.name {
            return &first.work;
        }
        rest = others;
    }
    unreachable!()
}

/// Carries out the migrations of a step on what is held: in their order, and on the way back in reverse order.
pub(crate) fn carry_out<S: Asker>(
    alloc: Global,
    spawner: &mut S,
    migrations: &[Named],
    transition: &Transition,
    back: bool,
    held: &mut Held,
) -> Result<(), TaskError>
    requires { IsTrue (names_known migrations.now transition.now) }
    ensures carried { OnOk result (IsDone (tasks_in migrations.now back transition.now) held.old held.new (S.asked spawner.old) (S.asked spawner.new)) }
    ensures stopped { IfErr result (StopsAt (tasks_in migrations.now back transition.now) held.old (S.asked spawner.old) (S.asked spawner.new)) }
    ensures ran { S.runs spawner.new ≡ S.runs spawner.old }
    ensures cause { HasNamedCause (λ name. TaskError.Failed name) (S.faults spawner.old) (S.faults spawner.new) result }
{
    for index in 0..transition.names.len() {
        let name = name_at(&transition.names, back, index);
        let work = work_named(migrations, name);
        let made = make(alloc, spawner, name, work, back, held)?;
        drop(mem::replace(held, made));
    }
    Ok(())
}
