// The arithmetic of the WUT-4: each function answers the 16-bit result and the four flags together.
#![tactic(auto)]

pub mod arithmetic;
pub mod flags;
pub mod logic;
