// The two sides: truth by circuits, falsity by expansion.
#![tactic(auto)]

pub mod agreement;
pub mod falsity;
pub mod truth;
