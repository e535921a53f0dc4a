// One command with its arguments.
use crate::failure::Failure;
use crate::{bench, checking, decoding};
use std::rt::{Clock, Files};

const USAGE: &str = "usage: runthovel COMMAND

commands:
  decode WORD…    print each word and its instruction, or that it is illegal;
                  a word is a number from 0 to 65535, decimal or after 0x
  check FILE…     read each file as a memory image, and print for each of its pages
                  of 4,096 bytes the offset of its first illegal word, if it has one
  script          carry out the commands that standard input has, one on a line;
                  each is printed before what it prints, a line that begins
                  with # is passed over, and a command that fails is told and
                  does not end the script
  help, --help    print this text
";

fn print_usage(rt: &impl Print) -> Result<(), Failure> {
    print!(rt; "{USAGE}")?;
    Ok(())
}

// Is one of the arguments a question for help?
fn asks_for_help(arguments: &[String]) -> bool {
    arguments
        .iter()
        .any(|argument| argument.as_str() == "--help")
}

// Carries out the command that the first word names, with the other words for its arguments; with no word, says which there are.
pub(crate) fn perform(
    rt: &(impl Print + Files + Clock + AllocGlobal),
    words: &[String],
) -> Result<(), Failure> {
    let [command, arguments @ ..] = words else {
        return print_usage(rt);
    };
    if asks_for_help(arguments) {
        return print_usage(rt);
    }
    // a match and no table of functions: the commands' functions do not take the same parameters
    match command.as_str() {
        "help" | "--help" | "-h" => print_usage(rt),
        // not listed by --help while the program has no command that runs a machine
        "bench" => bench::run(rt),
        "check" => checking::check_files(rt, arguments),
        "decode" => decoding::decode_words(rt, arguments),
        _ => Err(Failure::UnknownCommand(command.clone()?)),
    }
}
