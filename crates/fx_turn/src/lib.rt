//! A value that threads take turns with. Whoever takes a turn gets a value whose history begins with all that its seat had
//! seen, and holds as many of the seat's entries as its view says.
#![tactic(auto)]

mod kept;
mod order;
mod plays;
mod seat;
mod steps;
mod turn;
mod view;

pub use kept::Kept;
pub use seat::Seat;
pub use turn::Turn;
pub use view::View;
