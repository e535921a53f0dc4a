use crate::any::{byte_at, refusal_number, word, zeros};
use memory::page::{load, proofread};
use memory::{Flat, Image, Joined, write};
use std::alloc::{AllocError, Global};
use std::test::Fail;

// A page of one word again and again.
fn page_of(heap: Global, low: u8, high: u8) -> Result<Vec<u8>, AllocError> {
    (0..2048).flat_map(|_| [low, high]).collect(heap)
}

#[test]
fn load_fills_its_page_alone(rt: HostRuntime) -> Result<(), Fail> {
    let mut m = Flat::new(zeros(rt.alloc(), 12_289)?);
    assert_eq!(rt;
        refusal_number(load(&mut m, 1, &page_of(rt.alloc(), 0x34, 0x12)?)),
        None
    );
    assert_eq!(rt; (word(&m, 4094), word(&m, 4096)), (Some(0), Some(0x1234)));
    assert_eq!(rt; (word(&m, 8190), word(&m, 8192)), (Some(0x1234), Some(0)));
    let bytes = m.into_bytes();
    assert_eq!(rt; bytes.len(), 12_289);
    assert_eq!(rt;
        (
            byte_at(&bytes, 4095),
            byte_at(&bytes, 4096),
            byte_at(&bytes, 8191),
            byte_at(&bytes, 8192),
        ),
        (Some(0), Some(0x34), Some(0x12), Some(0))
    );
    assert_eq!(rt; byte_at(&bytes, 12_288), Some(0));
    Ok(())
}

#[test]
fn load_wants_one_page_first(rt: HostRuntime) -> Result<(), Fail> {
    let fixed = zeros(rt.alloc(), 4096)?;
    let mut m = Joined::new(Flat::new(zeros(rt.alloc(), 4096)?), Image::new(&fixed), 1);
    let mut page = page_of(rt.alloc(), 1, 1)?;
    assert_eq!(rt; refusal_number(load(&mut m, 1, &page)), Some(4));
    assert_eq!(rt; refusal_number(load(&mut m, 2, &page)), Some(4));
    assert_eq!(rt; refusal_number(load(&mut m, u64::MAX, &page)), Some(4));
    page.push(1)?;
    assert_eq!(rt; refusal_number(load(&mut m, 0, &page)), Some(3));
    assert_eq!(rt; refusal_number(load(&mut m, 1, &page)), Some(3));
    page.truncate(4095);
    assert_eq!(rt; refusal_number(load(&mut m, 0, &page)), Some(3));
    assert_eq!(rt; refusal_number(load(&mut m, u64::MAX, &page)), Some(3));
    assert_eq!(rt; refusal_number(load(&mut m, 0, &[])), Some(3));
    assert_eq!(rt;
        (word(&m, 0), word(&m, 4094), word(&m, 4096)),
        (Some(0), Some(0), Some(0))
    );
    Ok(())
}

#[test]
fn load_goes_through_a_join(rt: HostRuntime) -> Result<(), Fail> {
    let mut m = Joined::new(
        Flat::new(zeros(rt.alloc(), 4096)?),
        Flat::new(zeros(rt.alloc(), 8192)?),
        2,
    );
    assert_eq!(rt;
        refusal_number(load(&mut m, 3, &page_of(rt.alloc(), 0x78, 0x56)?)),
        None
    );
    let (first, second) = m.into_parts();
    assert_eq!(rt; (word(&first, 0), word(&second, 4094)), (Some(0), Some(0)));
    assert_eq!(rt;
        (word(&second, 4096), word(&second, 8190)),
        (Some(0x5678), Some(0x5678))
    );
    Ok(())
}

#[test]
fn proofread_finds_the_first(rt: HostRuntime) -> Result<(), Fail> {
    let mut m = Flat::new(zeros(rt.alloc(), 8192)?);
    assert_eq!(rt; proofread(&m, 1).ok().unwrap_or(None), Some(0));
    assert_eq!(rt;
        refusal_number(load(&mut m, 1, &page_of(rt.alloc(), 1, 0)?)),
        None
    );
    assert_eq!(rt; proofread(&m, 1).ok(), Some(None));
    assert!(rt; write::put_word(&mut m, 8190, 0xFFFF).is_ok());
    assert_eq!(rt; proofread(&m, 1).ok(), Some(Some(4094)));
    assert!(rt; write::put_word(&mut m, 6000, 0).is_ok());
    assert_eq!(rt; proofread(&m, 1).ok(), Some(Some(1904)));
    assert!(rt; write::put_word(&mut m, 4096, 0xFF48).is_ok());
    assert_eq!(rt; proofread(&m, 1).ok(), Some(Some(0)));
    Ok(())
}

#[test]
fn proofread_refuses_an_absent_page(rt: HostRuntime) -> Result<(), Fail> {
    let fixed = page_of(rt.alloc(), 1, 0)?;
    let m = Joined::new(Flat::new(zeros(rt.alloc(), 4097)?), Image::new(&fixed), 2);
    assert_eq!(rt; proofread(&m, 0).ok(), Some(Some(0)));
    assert_eq!(rt; refusal_number(proofread(&m, 1)), Some(4));
    assert_eq!(rt; proofread(&m, 2).ok(), Some(None));
    assert_eq!(rt; refusal_number(proofread(&m, 3)), Some(4));
    assert_eq!(rt; refusal_number(proofread(&m, 4096)), Some(4));
    assert_eq!(rt; refusal_number(proofread(&m, u64::MAX)), Some(4));
    Ok(())
}
