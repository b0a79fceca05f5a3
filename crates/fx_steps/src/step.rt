//! Steps of an address.
use fx_expr::Text;

/// A step from a place to one inside it.
#[derive(Debug, Drop)]
pub enum Step {
    First,
    Second,
    Inside,
    Down,
    Body,
    Elem(Text),
}
