// The processor: its state, and one step of it, which is judged before anything changes.
#![tactic(auto)]

pub mod access;
pub mod action;
mod commit;
pub mod context;
pub mod event;
pub mod items;
pub mod judge;
mod plan;
pub mod processor;
pub mod queue;
mod registers;
mod rows;
mod sets;
pub mod special;
pub mod state;
mod step;
