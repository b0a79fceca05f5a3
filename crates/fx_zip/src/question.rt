//! What may be asked at a place.
use fx_expr::Shape;

/// A question at a place.
#[derive(Clone, Copy)]
pub enum Question<'a> {
    /// What the form there gives. A file gives its bytes, or whether it is executable if a truth value is asked for. A
    /// directory gives its names, a link and a focus a text, and a comprehension its set. An option gives whether its
    /// entry is there, and a predicate whether it is true. A pair and a call give nothing. The form is wrong if it
    /// gives nothing, or if it gives another shape.
    Fetch(&'a Shape),
    /// The value, which has to be there. The form is wrong if the description's value has another shape.
    Whole(&'a Shape),
    /// Whether there is a value.
    Validate,
}
