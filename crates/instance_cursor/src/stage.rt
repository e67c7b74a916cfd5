/// Whether the picks of a cursor are still to be made, or were given, or no others are left.
#[derive(Clone, Copy, Debug)]
pub enum Stage {
    Before,
    Given,
    Over,
}
