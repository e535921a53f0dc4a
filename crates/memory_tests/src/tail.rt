// The bytes that come back from a flat memory after code over any memory was at work on it.
ghost use Rattle.std.specs.Prelude.{◌≡◌, length};
ghost use Rattle.memory.specs.Bytes.{bytes_after};

use crate::any::{byte_at, zeros};
use memory::Flat;
use memory::page::load;
use std::test::Fail;

// Loads one page of the content, if it can be loaded. What is after the whole pages stays as it is.
fn load_into(content: Vec<u8>, page: u64, bytes: &[u8]) -> Vec<u8>
    ensures len { length result.items ≡ length content.items }
    ensures tail { bytes_after result.items ≡ bytes_after content.items }
{
    let mut m = Flat::new(content);
    let _ = load(&mut m, page, bytes);
    m.into_bytes()
}

#[test]
fn a_tail_stays(rt: HostRuntime) -> Result<(), Fail> {
    let mut content = zeros(rt.alloc(), 4096)?;
    content.push(7)?;
    let mut page = zeros(rt.alloc(), 4095)?;
    page.push(1)?;
    let bytes = load_into(content, 0, &page);
    assert_eq!(rt; bytes.len(), 4097);
    assert_eq!(rt;
        (byte_at(&bytes, 4095), byte_at(&bytes, 4096)),
        (Some(1), Some(7))
    );
    Ok(())
}
