// The instruction set of the WUT-4: what each of the 65,536 words means, and the word of each instruction.
#![tactic(auto)]

pub mod decode;
pub mod encode;
pub mod instr;
pub mod refusal;
