// Paged physical memory: what a memory is, three memories, and the calls that fill and read over one page.
#![tactic(auto)]

mod bytes;
pub mod flat;
pub mod image;
pub mod joined;
pub mod kind;
pub mod memory;
pub mod page;
pub mod write;

pub use flat::Flat;
pub use image::Image;
pub use joined::Joined;
pub use kind::Kind;
pub use memory::{Memory, NotWritten};
