ghost use Rattle.std.specs.Prelude.{◌≡◌, length, slice_get};
ghost use Rattle.std.specs.Option.{option_copied};

/// The item with this number; `None` exactly where there is none.
pub(crate) fn item_at<T: Copy>(items: &[T], number: usize) -> Option<T>
    ensures { result ≡ slice_get items.now number }
{
    items.get(number).copied()
}

/// The item with this number, in its place; `None` exactly where there is none.
pub(crate) fn place_at<T>(items: &[T], number: usize) -> Option<&T>
    ensures { option_copied result ≡ slice_get items.now number }
{
    items.get(number)
}

/// The number of items.
pub(crate) fn count<T: Drop>(items: &Vec<T>) -> usize
    ensures { result ≡ length items.now.items }
{
    items.as_slice().len()
}
