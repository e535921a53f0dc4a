// What holds of words and instructions as a whole, on functions that also run.
#![tactic(auto)]

pub mod words;
