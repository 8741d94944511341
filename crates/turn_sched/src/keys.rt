ghost use Rattle.std.specs.Prelude.{◌≡◌, ◌+◌, ◌<◌, ◌≤◌, [], ◌∷◌, ◌++◌, vec_len, vec_capacity};
ghost use Rattle.std.specs.Bool.{OnTrue, OnFalse};
ghost use Rattle.turn_sched.specs.Lists.{contains, without, is_at, other_than, count_of};

/// Takes a key out of a list, and answers whether it was there. The capacity stays.
pub(crate) fn take_out(keys: &mut Vec<u64>, key: u64) -> bool
    ensures found { result ≡ contains keys.old.items key }
    ensures rest { keys.new.items ≡ without keys.old.items key }
    ensures same { OnFalse result (keys.new.items ≡ keys.old.items) }
    ensures fewer { OnTrue result (vec_len keys.new < vec_len keys.old) }
    ensures bound { vec_len keys.new ≤ vec_len keys.old }
    ensures capacity { vec_capacity keys.new ≡ vec_capacity keys.old }
{
    let before = keys.len();
    keys.retain(|k| *k != key);
    keys.len() < before
}

/// Puts a key at the end of a list that has room.
pub(crate) fn put_last(keys: &mut Vec<u64>, key: u64)
    requires { vec_len keys.old < vec_capacity keys.old }
    ensures items { keys.new.items ≡ keys.old.items ++ key ∷ [] }
    ensures len { vec_len keys.new ≡ vec_len keys.old + 1 }
    ensures capacity { vec_capacity keys.old ≤ vec_capacity keys.new }
{
    match keys.push(key) {
        Ok(()) => {}
        Err(_) => unreachable!(),
    }
}

/// Takes the current key out where it is `key`, and answers whether it was.
pub(crate) fn take_current(current: &mut Option<u64>, key: u64) -> bool
    ensures found { result ≡ is_at key current.old }
    ensures rest { current.new ≡ other_than key current.old }
    ensures same { OnFalse result (current.new ≡ current.old) }
    ensures fewer { OnTrue result (count_of current.new < count_of current.old) }
{
    if *current == Some(key) {
        *current = None;
        return true;
    }
    false
}
