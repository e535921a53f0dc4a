// The machine: a processor over a memory, cold or fired, and its calls.
#![tactic(auto)]

pub mod calls;
pub mod cold;
pub mod fired;
pub mod report;
mod running;

pub use cold::Cold;
pub use fired::Fired;
pub use report::{Reason, Report};
