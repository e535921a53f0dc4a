// A fired machine. Its calls are in calls.rt.
use memory::Memory;
use processor::processor::Processor;

// A machine that runs. It is moved: cooling it consumes it. Its contracts see it by `view_of` of specs/Views.antt and not
// by an `impl Model`: a memory's kinds and bytes are functions of page and address, and a `Value` cannot hold a function.
#[derive(Drop)]
pub struct Fired<M: Memory> {
    pub(crate) processor: Processor,
    pub(crate) memory: M,
}
