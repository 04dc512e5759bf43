//! Keys that are noted while a job runs.
ghost use Rattle.std.specs.Prelude.{◌≡◌, ◌+◌, ◌≤◌, ◌<◌, ◌++◌, [], ◌∷◌, reverse};
ghost use Rattle.std.specs.Vec.{vec_len, vec_capacity};
ghost use Rattle.settings_maps.specs.KeyList.{joined};
ghost use Rattle.affected_apply.specs.Noting.{MovesOne};

use key_names::Key;
use std::cmp::Ordering;

// Moves the last key of one to the end of the other, which has room for it.
fn move_last(from: &mut Vec<Key>, to: &mut Vec<Key>)
    requires some { 0 < vec_len from.old }
    requires room { vec_len to.old < vec_capacity to.old }
    ensures moved { MovesOne (reverse from.old.items) (reverse from.new.items) to.old.items to.new.items }
    ensures shorter { vec_len from.new + 1 ≡ vec_len from.old }
    ensures longer { vec_len to.new ≡ vec_len to.old + 1 }
    ensures room { vec_capacity to.old ≤ vec_capacity to.new }
{
    if let Some(key) = from.pop() {
        match to.push(key) {
            Ok(()) => (),
            Err(_) => unreachable!(),
        }
    }
}

// Moves all keys of one, the last one first, to the end of the other, which has room for them.
fn move_all(from: &mut Vec<Key>, to: &mut Vec<Key>)
    requires { vec_len to.old + vec_len from.old ≤ vec_capacity to.old }
    ensures items { to.new.items ≡ to.old.items ++ reverse from.old.items }
    ensures length { vec_len to.new ≡ vec_len to.old + vec_len from.old }
    ensures room { vec_capacity to.old ≤ vec_capacity to.new }
{
    while !from.is_empty() {
        move_last(from, to);
    }
}

// Moves the keys of both, the last ones first, to the end of the third.
fn merge_down(one: &mut Vec<Key>, two: &mut Vec<Key>, all: &mut Vec<Key>)
    requires { vec_len all.old + vec_len one.old + vec_len two.old ≤ vec_capacity all.old }
    ensures { all.new.items ≡ all.old.items ++ joined (reverse one.old.items) (reverse two.old.items) }
{
    while !one.is_empty() && !two.is_empty() {
        match one[one.len() - 1].cmp(&two[two.len() - 1]) {
            Ordering::Less => move_last(one, all),
            Ordering::Equal => {
                move_last(one, all);
                two.pop();
            }
            Ordering::Greater => move_last(two, all),
        }
    }
    move_all(one, all);
    move_all(two, all);
}

/// The keys of either rising list, moved into the third, which is empty and has room for them. It
/// takes a step for each key, and no memory.
pub(crate) fn merged(mut one: Vec<Key>, mut two: Vec<Key>, mut all: Vec<Key>) -> Vec<Key>
    requires empty { all.items ≡ [] }
    requires room { vec_len one + vec_len two ≤ vec_capacity all }
    ensures { result.items ≡ joined one.items two.items }
{
    one.reverse();
    two.reverse();
    merge_down(&mut one, &mut two, &mut all);
    all
}
