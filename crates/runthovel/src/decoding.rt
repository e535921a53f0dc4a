// runthovel decode WORD…
use crate::failure::Failure;
use isa::decode::decode;
use text::assembly::Assembly;
use text::number::parse_word;

// The word that an argument names.
fn word(argument: &String) -> Result<u16, Failure> {
    parse_word(argument.as_str()).try_ok_or_else(|| Ok(Failure::NotAWord(argument.clone()?)))
}

fn print_word(rt: &impl Print, word: u16) -> Result<(), Failure> {
    match decode(word) {
        Ok(instr) => println!(rt; "0x{word:04X}  {}", Assembly(instr))?,
        Err(_) => println!(rt; "0x{word:04X}  illegal")?,
    }
    Ok(())
}

// Decodes the words that the arguments name; all are read before any is printed.
pub(crate) fn decode_words(
    rt: &(impl Print + AllocGlobal),
    arguments: &[String],
) -> Result<(), Failure> {
    if arguments.is_empty() {
        return Err(Failure::NoWords);
    }
    let words: Vec<u16> = arguments.iter().map(word).try_collect(rt.alloc())?;
    words.into_iter().try_for_each(|word| print_word(rt, word))
}
