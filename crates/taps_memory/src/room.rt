ghost use Rattle.std.specs.Prelude.{◌≡◌, ◌<◌, ◌≤◌, ◌+◌, ◌++◌, ◌∷◌, [], vec_len, vec_capacity};

/// Adds a value where there is room for it.
pub(crate) fn add<T: Drop>(values: &mut Vec<T>, value: T)
    requires { vec_len values.old < vec_capacity values.old }
    ensures items { values.new.items ≡ values.old.items ++ value ∷ [] }
    ensures len { vec_len values.new ≡ vec_len values.old + 1 }
    ensures room { vec_capacity values.old ≤ vec_capacity values.new }
{
    match values.push(value) {
        Ok(()) => {}
        Err(_) => unreachable!(),
    }
}

/// Adds a copy of a value where there is room for it.
pub(crate) fn add_copy<T: Copy>(values: &mut Vec<T>, value: &T)
    requires { vec_len values.old < vec_capacity values.old }
    ensures items { values.new.items ≡ values.old.items ++ value.now ∷ [] }
    ensures len { vec_len values.new ≡ vec_len values.old + 1 }
    ensures room { vec_capacity values.old ≤ vec_capacity values.new }
{
    match values.push(*value) {
        Ok(()) => {}
        Err(_) => unreachable!(),
    }
}
