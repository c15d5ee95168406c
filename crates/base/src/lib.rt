// What every layer shares: the fault that a refusal carries, and the words of values.
#![tactic(auto)]

pub mod faults;
pub mod values;
