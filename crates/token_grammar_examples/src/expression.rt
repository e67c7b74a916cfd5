use text_core::{Boxed, List};

/// The value of an expression. Brackets leave no trace in it.
#[derive(Debug, Drop)]
pub enum Expression {
    /// A number.
    Number(u32),
    /// An expression with its sign changed.
    Negated(Boxed<Expression>),
    /// Two expressions or more, added.
    Sum(List<Expression>),
    /// Expressions one after the other.
    Row(List<Expression>),
}
