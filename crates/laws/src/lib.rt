// What holds of the definitions of several crates together.
#![tactic(auto)]

pub mod examples;
mod isolation;
