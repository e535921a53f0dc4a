// What keeps a command from being carried out.
use std::alloc::AllocError;
use std::io;
use thiserror::Error;

#[derive(Debug, Drop, Error)]
pub enum Failure {
    #[error("there is no command '{0}'; 'runthovel --help' lists them")]
    UnknownCommand(String),
    #[error("decode wants at least one word; 'runthovel --help' says more")]
    NoWords,
    #[error("'{0}' is not a word: a number from 0 to 65535, decimal or after 0x")]
    NotAWord(String),
    #[error("check wants at least one file; 'runthovel --help' says more")]
    NoFiles,
    #[error("files that could not be checked: {0}")]
    Unchecked(usize),
    #[error("a measured program stopped before its time")]
    NoProgram,
    #[error("out of memory")]
    OutOfMemory(#[from(alloc)] AllocError),
    #[error(transparent)]
    Io(#[from] io::Error),
}
