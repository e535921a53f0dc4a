use crate::any::{census, ends_at_the_last_page, refuses, word, zeros};
use memory::{Image, Kind, Memory};
use std::test::Fail;

#[test]
fn no_bytes(rt: HostRuntime) {
    let mut m = Image::new(&[]);
    assert_eq!(rt; census(&m), (0, 0));
    assert_eq!(rt; word(&m, 0), None);
    assert!(rt; ends_at_the_last_page(&mut m));
    assert_eq!(rt; m.into_slice().len(), 0);
}

#[test]
fn pages_and_a_tail(rt: HostRuntime) -> Result<(), Fail> {
    let mut content = zeros(rt.alloc(), 8193)?;
    assert_eq!(rt; content.len(), 8193);
    content[4094] = 0x34;
    content[4095] = 0x12;
    content[4096] = 0x78;
    content[4097] = 0x56;
    content[8191] = 0x9A;
    content[8192] = 7;
    let mut m = Image::new(&content);
    assert_eq!(rt; census(&m), (2, 0));
    assert_eq!(rt; (m.kind(1), m.kind(2)), (Kind::Fixed, Kind::Absent));
    assert_eq!(rt;
        (word(&m, 4094), word(&m, 4096)),
        (Some(0x1234), Some(0x5678))
    );
    assert_eq!(rt; (word(&m, 0), word(&m, 8190)), (Some(0), Some(0x9A00)));
    assert_eq!(rt;
        (word(&m, 4095), word(&m, 8191), word(&m, 8192)),
        (None, None, None)
    );
    assert!(rt;
        refuses(&mut m, 0)
            && refuses(&mut m, 4095)
            && refuses(&mut m, 8190)
            && refuses(&mut m, 8192)
    );
    assert_eq!(rt; m.into_slice().len(), 8193);
    Ok(())
}

#[test]
fn less_than_a_page(rt: HostRuntime) -> Result<(), Fail> {
    let content = zeros(rt.alloc(), 4095)?;
    let m = Image::new(&content);
    assert_eq!(rt; census(&m), (0, 0));
    assert_eq!(rt; word(&m, 0), None);
    Ok(())
}

#[test]
fn more_than_all_pages(rt: HostRuntime) -> Result<(), Fail> {
    let content = zeros(rt.alloc(), 16_777_216 + 4096)?;
    let mut m = Image::new(&content);
    assert_eq!(rt; census(&m), (4096, 0));
    assert_eq!(rt; word(&m, 16_777_214), Some(0));
    assert!(rt; ends_at_the_last_page(&mut m));
    Ok(())
}
