ghost use Rattle.std.specs.Prelude.{◌≡◌, ◌<◌, ◌≤◌, ◌++◌, ◌∷◌, [], length, vec_capacity, vec_len};

/// Appends an item where there is room for it.
pub(crate) fn push_within<T: Drop>(items: &mut Vec<T>, item: T)
    requires { vec_len items.old < vec_capacity items.old }
    ensures items { items.new.items ≡ items.old.items ++ item ∷ [] }
    ensures capacity { vec_capacity items.old ≤ vec_capacity items.new }
{
    items.push(item).unwrap();
}

/// Writes 0 so many times, in place of what was there.
pub(crate) fn write_zeros(count: usize, into: &mut Vec<u32>)
    requires { count ≤ vec_capacity into.old }
    ensures length { length into.new.items ≡ count }
    ensures capacity { vec_capacity into.old ≤ vec_capacity into.new }
{
    into.clear();
    for done in 0..count {
        push_within(into, 0);
    }
}
