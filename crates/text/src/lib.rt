// Text at the command line: words read from it, and instructions written in assembler form.
#![tactic(auto)]

pub mod assembly;
pub mod number;
