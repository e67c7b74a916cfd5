/// The item at a place, and another one where there is none.
pub(crate) fn item_or<T: Copy>(items: &[T], at: usize, other: T) -> T {
    if at < items.len() { items[at] } else { other }
}

/// Writes an item at a place, where there is such a place.
pub(crate) fn put<T: Copy>(items: &mut [T], at: usize, item: T) {
    if at < items.len() {
        items[at] = item;
    }
}
