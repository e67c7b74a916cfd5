use text_core::Name;

/// What names a universal variable of a form: the name that its quantifier gives it, and its rank
/// among the form's universal variables of that name, from 1.
#[derive(Debug, Drop)]
pub struct Label {
    pub name: Name,
    pub rank: u32,
}
