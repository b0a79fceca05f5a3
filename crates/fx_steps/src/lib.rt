//! The steps of an address, and where they lead: the parts of a description, the frames that a zipper keeps, and the moves
//! from a place. What needs the value of a description stands elsewhere.
#![tactic(auto)]

mod evaluating;
mod forms;
mod frame;
pub mod frames;
pub mod leading;
pub mod moving;
pub mod part;
mod shapes;
mod step;

pub use evaluating::evaluate;
pub use forms::{comp_of, pair_of};
pub use frame::{Bound, Chosen, Entry, Frame, Inner, Spot, second_spot};
pub use shapes::{asks_flag, has_fetch_shape, has_value_shape};
pub use step::Step;
