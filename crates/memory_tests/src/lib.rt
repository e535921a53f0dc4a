// Tests of the memories at their edges.
#![tactic(auto)]

mod any;
mod flat;
mod image;
mod joined;
mod page;
mod tail;
