use crate::any::{byte_at, census, ends_at_the_last_page, refuses, word, zeros};
use memory::{Flat, Kind, Memory, write};
use std::test::Fail;

#[test]
fn no_bytes(rt: HostRuntime) -> Result<(), Fail> {
    let mut m = Flat::new(zeros(rt.alloc(), 0)?);
    assert_eq!(rt; census(&m), (0, 0));
    assert_eq!(rt; word(&m, 0), None);
    assert!(rt; refuses(&mut m, 0));
    assert!(rt; ends_at_the_last_page(&mut m));
    assert_eq!(rt; m.into_bytes().len(), 0);
    Ok(())
}

#[test]
fn bytes_at_the_edges_of_a_page(rt: HostRuntime) -> Result<(), Fail> {
    let mut m = Flat::new(zeros(rt.alloc(), 8192)?);
    assert_eq!(rt; census(&m), (0, 2));
    assert!(rt; write::put_byte(&mut m, 0, 1).is_ok());
    assert!(rt; write::put_byte(&mut m, 4095, 2).is_ok());
    assert!(rt; write::put_byte(&mut m, 4096, 3).is_ok());
    assert!(rt; write::put_byte(&mut m, 8191, 4).is_ok());
    assert!(rt; refuses(&mut m, 8192));
    assert_eq!(rt; word(&m, 0), Some(0x0001));
    assert_eq!(rt; word(&m, 4094), Some(0x0200));
    assert_eq!(rt; word(&m, 4096), Some(0x0003));
    assert_eq!(rt; word(&m, 8190), Some(0x0400));
    assert_eq!(rt; word(&m, 8192), None);
    let bytes = m.into_bytes();
    assert_eq!(rt; bytes.len(), 8192);
    assert_eq!(rt;
        (
            byte_at(&bytes, 0),
            byte_at(&bytes, 4095),
            byte_at(&bytes, 4096),
            byte_at(&bytes, 8191),
        ),
        (Some(1), Some(2), Some(3), Some(4))
    );
    Ok(())
}

#[test]
fn words_at_the_edges_of_a_page(rt: HostRuntime) -> Result<(), Fail> {
    let mut m = Flat::new(zeros(rt.alloc(), 8192)?);
    assert!(rt; write::put_word(&mut m, 4094, 0x1234).is_ok());
    assert!(rt; write::put_word(&mut m, 4096, 0x5678).is_ok());
    assert!(rt; write::put_word(&mut m, 8190, 0x9ABC).is_ok());
    assert!(rt; write::put_word(&mut m, 8192, 0xFFFF).is_err());
    assert_eq!(rt; word(&m, 4092), Some(0));
    assert_eq!(rt; word(&m, 4098), Some(0));
    let bytes = m.into_bytes();
    assert_eq!(rt; bytes.len(), 8192);
    assert_eq!(rt;
        (
            byte_at(&bytes, 4093),
            byte_at(&bytes, 4094),
            byte_at(&bytes, 4095),
        ),
        (Some(0), Some(0x34), Some(0x12))
    );
    assert_eq!(rt;
        (
            byte_at(&bytes, 4096),
            byte_at(&bytes, 4097),
            byte_at(&bytes, 4098),
        ),
        (Some(0x78), Some(0x56), Some(0))
    );
    assert_eq!(rt;
        (
            byte_at(&bytes, 8189),
            byte_at(&bytes, 8190),
            byte_at(&bytes, 8191),
        ),
        (Some(0), Some(0xBC), Some(0x9A))
    );
    Ok(())
}

#[test]
fn odd_addresses(rt: HostRuntime) -> Result<(), Fail> {
    let mut m = Flat::new(zeros(rt.alloc(), 8192)?);
    assert_eq!(rt; word(&m, 1), None);
    assert_eq!(rt; word(&m, 4095), None);
    assert!(rt; write::put_word(&mut m, 1, 0x0101).is_err());
    assert!(rt; write::put_word(&mut m, 4095, 0x0101).is_err());
    assert_eq!(rt; (word(&m, 0), word(&m, 2)), (Some(0), Some(0)));
    assert_eq!(rt; (word(&m, 4094), word(&m, 4096)), (Some(0), Some(0)));
    assert!(rt; write::put_byte(&mut m, 4095, 9).is_ok());
    assert_eq!(rt; (word(&m, 4094), word(&m, 4096)), (Some(0x0900), Some(0)));
    Ok(())
}

#[test]
fn a_tail_of_one_byte(rt: HostRuntime) -> Result<(), Fail> {
    let mut content = zeros(rt.alloc(), 4096)?;
    content.push(7)?;
    let mut m = Flat::new(content);
    assert_eq!(rt; census(&m), (0, 1));
    assert_eq!(rt; m.kind(1), Kind::Absent);
    assert_eq!(rt; word(&m, 4096), None);
    assert!(rt; refuses(&mut m, 4096));
    assert!(rt; write::put_word(&mut m, 4094, 0xFFFF).is_ok());
    let bytes = m.into_bytes();
    assert_eq!(rt; bytes.len(), 4097);
    assert_eq!(rt;
        (byte_at(&bytes, 4095), byte_at(&bytes, 4096)),
        (Some(255), Some(7))
    );
    Ok(())
}

#[test]
fn a_tail_of_one_byte_less_than_a_page(rt: HostRuntime) -> Result<(), Fail> {
    let mut content = zeros(rt.alloc(), 8190)?;
    content.push(7)?;
    let mut m = Flat::new(content);
    assert_eq!(rt; census(&m), (0, 1));
    assert!(rt; refuses(&mut m, 4096));
    assert!(rt; refuses(&mut m, 8190));
    let bytes = m.into_bytes();
    assert_eq!(rt; bytes.len(), 8191);
    assert_eq!(rt;
        (byte_at(&bytes, 4096), byte_at(&bytes, 8190)),
        (Some(0), Some(7))
    );
    Ok(())
}

#[test]
fn less_than_a_page(rt: HostRuntime) -> Result<(), Fail> {
    let mut m = Flat::new(zeros(rt.alloc(), 4095)?);
    assert_eq!(rt; census(&m), (0, 0));
    assert!(rt; refuses(&mut m, 0));
    assert_eq!(rt; m.into_bytes().len(), 4095);
    Ok(())
}

#[test]
fn more_than_all_pages(rt: HostRuntime) -> Result<(), Fail> {
    let mut content = zeros(rt.alloc(), 16_777_216 + 4096)?;
    assert_eq!(rt; content.len(), 16_781_312);
    content[16_777_216] = 5;
    let mut m = Flat::new(content);
    assert_eq!(rt; census(&m), (0, 4096));
    assert_eq!(rt; m.kind(4095), Kind::Writable);
    assert!(rt; ends_at_the_last_page(&mut m));
    assert!(rt; write::put_word(&mut m, 16_777_214, 0x0201).is_ok());
    assert_eq!(rt; word(&m, 16_777_214), Some(0x0201));
    let bytes = m.into_bytes();
    assert_eq!(rt; bytes.len(), 16_781_312);
    assert_eq!(rt;
        (
            byte_at(&bytes, 16_777_214),
            byte_at(&bytes, 16_777_215),
            byte_at(&bytes, 16_777_216),
        ),
        (Some(1), Some(2), Some(5))
    );
    Ok(())
}
