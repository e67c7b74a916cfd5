ghost use Rattle.std.specs.Prelude.{◌≡◌, ◌+◌, ◌^◌, ◌<◌, ◌≤◌, [], ◌∷◌, ◌++◌, length, vec_len, vec_capacity};
ghost use Rattle.vernacular_tree.specs.Contexts.{counted};

/// Appends an item where there is room for it.
pub(crate) fn push_within<T: Drop>(items: &mut Vec<T>, item: T)
    requires { vec_len items.old < vec_capacity items.old }
    ensures items { items.new.items ≡ items.old.items ++ item ∷ [] }
    ensures capacity { vec_capacity items.old ≤ vec_capacity items.new }
{
    items.push(item).unwrap();
}

/// Appends numbers where there is room for them.
pub(crate) fn extend_within(items: &mut Vec<u32>, more: &[u32])
    requires { vec_len items.old + length more.now ≤ vec_capacity items.old }
    ensures items { items.new.items ≡ items.old.items ++ more.now }
    ensures capacity { vec_capacity items.old ≤ vec_capacity items.new }
{
    items.extend_from_slice(more).unwrap();
}

/// Appends as many numbers in a row where there is room for them.
pub(crate) fn count_within(items: &mut Vec<u32>, first: u32, count: u32)
    requires fits { vec_len items.old + count ≤ vec_capacity items.old }
    requires small { first + count ≤ 2 ^ 32 }
    ensures items { items.new.items ≡ items.old.items ++ counted first count }
    ensures capacity { vec_capacity items.old ≤ vec_capacity items.new }
{
    for at in 0..count {
        push_within(items, first + at);
    }
}
