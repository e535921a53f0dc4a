// The processor's state.
use crate::context::Context;
use crate::queue::Queue;
use alu::flags::Flags;

// How many register sets there are: the kernel's, which is set 0, and those of the user contexts.
pub const SET_COUNT: usize = 16;

// What a user program computes with.
#[derive(Clone, Copy, Default)]
pub struct Registers {
    // r0 to r7
    pub general: [u16; 8],
    pub link: u16,
    pub flags: Flags,
}

// The map words, one for each page of the 16-bit address space: sixteen for code and sixteen for data.
#[derive(Clone, Copy)]
pub struct Maps {
    pub codes: [u16; 16],
    pub datas: [u16; 16],
}

#[derive(Clone, Copy)]
pub struct RegSet {
    pub file: Registers,
    pub maps: Maps,
}

// User mode has the number 0, kernel mode 1.
#[derive(Clone, Copy, Debug, Default, PartialEq, Eq)]
pub enum Mode {
    #[default]
    User,
    Kernel,
}

// What an entry to the kernel leaves for it.
#[derive(Clone, Copy, Default)]
pub struct EntryRecord {
    // where to return to
    pub irr: u16,
    // the cause
    pub icr: u16,
    // the address, for causes that have one
    pub idr: u16,
    // the mode before the entry
    pub isr: Mode,
}

#[derive(Clone, Copy, Default)]
pub struct Control {
    pub pc: u16,
    pub mode: Mode,
    // interrupt enable
    pub ie: bool,
    // the trace bit T
    pub trace: bool,
    pub entry: EntryRecord,
    pub halted: bool,
    // an interrupt waits
    pub waiting: bool,
    // the steps made, modulo 2^32
    pub counter: u32,
}

#[derive(Drop)]
pub struct State {
    pub sets: [RegSet; SET_COUNT],
    // the current user context, a set's number
    pub context: Context,
    pub control: Control,
    // bytes for the program to read
    pub input: Queue,
    // bytes that it has written
    pub output: Queue,
}
