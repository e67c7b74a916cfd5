/// The greatest number of choices of elements for the existential variables of a form.
pub(crate) const MOST_OPTIONS: u64 = 4096;

/// How many choices of so many elements there are, where they are at most so many.
pub(crate) fn choices(size: u32, count: u32, most: u64) -> Option<u64> {
    let mut product: u64 = 1;
    for _ in 0..count {
        product = product.checked_mul(u64::from(size))?;
        if product > most {
            return None;
        }
    }
    Some(product)
}
