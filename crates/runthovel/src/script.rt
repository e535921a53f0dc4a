// runthovel script
use crate::command;
use crate::failure::Failure;
use std::io::{BufRead, BufReader};
use std::rt::{Clock, Files};

// One line: the command, what it prints, and how it failed if it did.
fn carry_out_line(
    rt: &(impl Print + Files + Clock + AllocGlobal),
    line: &str,
) -> Result<(), Failure> {
    if line.is_empty() || line.starts_with('#') {
        return Ok(());
    }
    println!(rt; "> {line}")?;
    let words: Vec<String> = line
        .split_whitespace()
        .map(|word| String::from_str(rt.alloc(), word))
        .try_collect(rt.alloc())?;
    if let Err(failure) = command::perform(rt, words.as_slice()) {
        println!(rt; "runthovel: {failure}")?;
    }
    Ok(())
}

pub(crate) fn carry_out(
    rt: &(impl Input + Print + Files + Clock + AllocGlobal),
) -> Result<(), Failure> {
    for line in BufReader::new(rt.alloc(), rt.reader())?.lines(rt.alloc()) {
        carry_out_line(rt, line?.as_str())?;
    }
    Ok(())
}
