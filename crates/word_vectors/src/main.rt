// Runs all 65,536 words: each is legal or illegal as standard input, another emulator's list of its illegal words, says,
// and each legal one, decoded and encoded, gives the word back.
#![tactic(auto)]

use anyhow::{Context, Result};
use isa::decode::decode;
use std::collections::HashSet;
use text::number::parse_word;
use word_laws::words::{is_illegal, word_again};

#[cfg(test)]
mod tests;

// The words that the lines of standard input name.
fn listed_words(rt: &(impl Input + AllocGlobal)) -> Result<HashSet<u16>> {
    let mut words = HashSet::new(rt.alloc());
    for line in rt.lines(rt.alloc()) {
        words.insert(parse_word(line?.as_str()).context("a line of standard input is no word")?)?;
    }
    Ok(words)
}

// How many of the 65,536 words pass the test.
fn count_words<F: FnMut(&u16) -> bool + Drop>(test: F) -> usize
    requires { (state : F) (word : _) → F.pre state word }
{
    (0..=u16::MAX).filter(test).count()
}

fn main(rt: HostRuntime) -> Result<()> {
    let listed = listed_words(&rt)?;
    let legal = count_words(|word| decode(*word).is_ok());
    let illegal = count_words(|word| decode(*word).is_err());
    let disagreeing = count_words(|word| {
        let refused = decode(*word).is_err();
        refused != listed.contains(word) || refused != is_illegal(*word)
    });
    let written_back = count_words(|word| word_again(*word) == Ok(*word));
    println!(rt; "{legal} legal, {illegal} illegal")?;
    println!(rt; "{disagreeing} disagree with the other emulator")?;
    println!(rt; "{written_back} written back")?;
    Ok(())
}
