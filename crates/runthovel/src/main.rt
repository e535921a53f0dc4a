// The program: runthovel COMMAND ARGUMENT…
#![tactic(auto)]

mod bench;
mod checking;
mod command;
mod decoding;
mod failure;
mod script;

use crate::failure::Failure;
use std::process::ExitCode;
use std::rt::Runtime;
use std::{env, io};

fn run(rt: &(impl Runtime + AllocGlobal)) -> Result<(), Failure> {
    let all = env::args(rt)?.skip(1).collect::<Vec<String>>(rt.alloc())?;
    match all.as_slice() {
        [only] if only.as_str() == "script" => script::carry_out(rt),
        words => command::perform(rt, words),
    }
}

// A failure is printed here, as a script prints it: an `Err` would be printed by its `Debug`.
fn main(rt: HostRuntime) -> io::Result<ExitCode> {
    match run(&rt) {
        Ok(()) => Ok(ExitCode::SUCCESS),
        Err(failure) => {
            eprintln!(rt; "runthovel: {failure}")?;
            Ok(ExitCode::FAILURE)
        }
    }
}
