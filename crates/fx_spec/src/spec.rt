use crate::exprs::Exprs;
use fx_expr::{Formula, Word};

/// A description of what stands at a path.
#[derive(Debug, Drop)]
pub enum Spec {
    File,
    Dir,
    Link,
    /// The part at the path that goes on by the text of the expression.
    Focus(Formula, Box<Spec>),
    /// Two parts of one path; the second sees the value of the first under the name.
    Pair(Word, Box<Spec>, Box<Spec>),
    /// The part once for each element of a set, under the name.
    Comp(Box<Spec>, Word, Formula),
    /// The part, where the entry exists.
    Opt(Box<Spec>),
    /// Whether the expression is true; there is no value where it is false.
    Pred(Formula),
    /// A named description, with the values of its parameters.
    Call(Word, Exprs),
}
