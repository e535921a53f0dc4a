// runthovel check FILE…
use crate::failure::Failure;
use memory::Image;
use memory::page::proofread;
use std::rt::Files;
use std::{fs, io};
use thiserror::Error;

// Why a file gives no image.
#[derive(Debug, Drop, Error)]
enum NoImage {
    #[error("cannot be read: {0}")]
    Unreadable(#[from] io::Error),
    #[error("is empty")]
    Empty,
}

// The bytes of a file, at least one.
fn read_image(rt: &(impl Files + AllocGlobal), path: &str) -> Result<Vec<u8>, NoImage> {
    let bytes = fs::read(rt, path)?;
    if bytes.is_empty() {
        return Err(NoImage::Empty);
    }
    Ok(bytes)
}

// One page of an image.
fn print_page(rt: &impl Print, image: &Image, page: u64) -> Result<(), Failure> {
    match proofread(image, page) {
        Ok(Some(offset)) => println!(rt; "  page {page}: first illegal word at offset {offset}")?,
        Ok(None) => println!(rt; "  page {page}: no illegal word")?,
        Err(refusal) => println!(rt; "  page {page}: refused with {}", refusal.number())?,
    }
    Ok(())
}

// The pages of an image, and how many bytes come after them.
fn print_image(rt: &impl Print, path: &str, image: &Image) -> Result<(), Failure> {
    let pages = image.page_count();
    let after = image.tail().len();
    println!(rt; "{path}: pages: {pages}, bytes after them: {after}")?;
    (0..pages).try_for_each(|page| print_page(rt, image, page))
}

// One file: its pages, or why it gives no image.
fn check_file(
    rt: &(impl Print + Files + AllocGlobal),
    path: &str,
) -> Result<Result<(), NoImage>, Failure> {
    match read_image(rt, path) {
        Ok(bytes) => print_image(rt, path, &Image::new(bytes.as_slice())).map(Ok),
        Err(reason) => {
            println!(rt; "{path}: {reason}")?;
            Ok(Err(reason))
        }
    }
}

pub(crate) fn check_files(
    rt: &(impl Print + Files + AllocGlobal),
    paths: &[String],
) -> Result<(), Failure> {
    if paths.is_empty() {
        return Err(Failure::NoFiles);
    }
    let unchecked = paths
        .iter()
        .try_fold(0usize, |unchecked, path| -> Result<usize, Failure> {
            let outcome = check_file(rt, path.as_str())?;
            Ok(unchecked.saturating_add(usize::from(outcome.is_err())))
        })?;
    if unchecked > 0 {
        return Err(Failure::Unchecked(unchecked));
    }
    Ok(())
}
