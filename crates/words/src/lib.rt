// Words of a text, the place up to which it is read, and the words that a reader asks for.
#![tactic(auto)]

pub mod due;
pub mod forms;
pub mod place;
pub mod word;
