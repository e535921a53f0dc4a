use crate::any::{byte_at, census, ends_at_the_last_page, refuses, word, zeros};
use memory::{Flat, Image, Joined, Kind, Memory, write};
use std::test::Fail;

#[test]
fn first_then_second(rt: HostRuntime) -> Result<(), Fail> {
    let fixed = zeros(rt.alloc(), 8192)?;
    let mut m = Joined::new(Flat::new(zeros(rt.alloc(), 8192)?), Image::new(&fixed), 2);
    assert_eq!(rt; census(&m), (2, 2));
    assert_eq!(rt;
        (m.kind(1), m.kind(2), m.kind(4)),
        (Kind::Writable, Kind::Fixed, Kind::Absent)
    );
    assert!(rt; write::put_word(&mut m, 8190, 0x0201).is_ok());
    assert!(rt; refuses(&mut m, 8192));
    assert_eq!(rt; (word(&m, 8190), word(&m, 8192)), (Some(0x0201), Some(0)));
    assert_eq!(rt; (word(&m, 16_382), word(&m, 16_384)), (Some(0), None));
    assert!(rt; ends_at_the_last_page(&mut m));
    let (first, second) = m.into_parts();
    assert_eq!(rt; second.into_slice().len(), 8192);
    let bytes = first.into_bytes();
    assert_eq!(rt; bytes.len(), 8192);
    assert_eq!(rt;
        (
            byte_at(&bytes, 8189),
            byte_at(&bytes, 8190),
            byte_at(&bytes, 8191),
        ),
        (Some(0), Some(1), Some(2))
    );
    Ok(())
}

#[test]
fn second_is_shifted(rt: HostRuntime) -> Result<(), Fail> {
    let fixed = zeros(rt.alloc(), 8192)?;
    let mut m = Joined::new(Image::new(&fixed), Flat::new(zeros(rt.alloc(), 8192)?), 1);
    assert_eq!(rt; census(&m), (1, 2));
    assert!(rt; refuses(&mut m, 4094));
    assert!(rt; write::put_byte(&mut m, 4096, 1).is_ok());
    assert!(rt; write::put_word(&mut m, 8190, 0x0302).is_ok());
    assert!(rt; write::put_byte(&mut m, 12_287, 4).is_ok());
    assert!(rt; write::put_word(&mut m, 8191, 0xFFFF).is_err());
    assert_eq!(rt;
        (word(&m, 4096), word(&m, 8190), word(&m, 12_286)),
        (Some(1), Some(0x0302), Some(0x0400))
    );
    let (_first, second) = m.into_parts();
    let bytes = second.into_bytes();
    assert_eq!(rt; bytes.len(), 8192);
    assert_eq!(rt;
        (
            byte_at(&bytes, 0),
            byte_at(&bytes, 4094),
            byte_at(&bytes, 4095),
            byte_at(&bytes, 8191),
        ),
        (Some(1), Some(2), Some(3), Some(4))
    );
    Ok(())
}

#[test]
fn at_page_0_only_the_second_shows(rt: HostRuntime) -> Result<(), Fail> {
    let mut m = Joined::new(
        Flat::new(zeros(rt.alloc(), 4096)?),
        Flat::new(zeros(rt.alloc(), 8192)?),
        0,
    );
    assert_eq!(rt; census(&m), (0, 2));
    assert!(rt; write::put_word(&mut m, 0, 0x0201).is_ok());
    assert_eq!(rt; word(&m, 0), Some(0x0201));
    let (first, second) = m.into_parts();
    assert_eq!(rt;
        (word(&first, 0), word(&second, 0)),
        (Some(0), Some(0x0201))
    );
    Ok(())
}

#[test]
fn a_gap_above_the_first(rt: HostRuntime) -> Result<(), Fail> {
    let mut m = Joined::new(
        Flat::new(zeros(rt.alloc(), 4097)?),
        Flat::new(zeros(rt.alloc(), 4096)?),
        3,
    );
    assert_eq!(rt; census(&m), (0, 2));
    assert_eq!(rt;
        (m.kind(0), m.kind(1), m.kind(2), m.kind(3)),
        (Kind::Writable, Kind::Absent, Kind::Absent, Kind::Writable)
    );
    assert!(rt; refuses(&mut m, 4096) && refuses(&mut m, 12_286));
    assert!(rt; write::put_word(&mut m, 12_288, 0x0201).is_ok());
    let (_first, second) = m.into_parts();
    assert_eq!(rt; word(&second, 0), Some(0x0201));
    Ok(())
}

#[test]
fn the_last_page(rt: HostRuntime) -> Result<(), Fail> {
    let mut m = Joined::new(
        Flat::new(zeros(rt.alloc(), 4096)?),
        Flat::new(zeros(rt.alloc(), 8192)?),
        4095,
    );
    assert_eq!(rt; census(&m), (0, 2));
    assert!(rt; ends_at_the_last_page(&mut m));
    assert!(rt; write::put_word(&mut m, 16_777_214, 0x0201).is_ok());
    let (_first, second) = m.into_parts();
    assert_eq!(rt;
        (word(&second, 4094), word(&second, 4096)),
        (Some(0x0201), Some(0))
    );
    Ok(())
}

#[test]
fn above_the_last_page(rt: HostRuntime) -> Result<(), Fail> {
    let mut m = Joined::new(
        Flat::new(zeros(rt.alloc(), 4096)?),
        Flat::new(zeros(rt.alloc(), 8192)?),
        4096,
    );
    assert_eq!(rt; census(&m), (0, 1));
    assert!(rt; ends_at_the_last_page(&mut m));
    let (first, second) = m.into_parts();
    let mut n = Joined::new(first, second, u64::MAX);
    assert_eq!(rt; census(&n), (0, 1));
    assert!(rt; refuses(&mut n, 4096));
    assert!(rt; ends_at_the_last_page(&mut n));
    Ok(())
}

#[test]
fn pages_of_the_second_above_the_last(rt: HostRuntime) -> Result<(), Fail> {
    let mut m = Joined::new(
        Flat::new(zeros(rt.alloc(), 8192)?),
        Flat::new(zeros(rt.alloc(), 16_777_216)?),
        1,
    );
    assert_eq!(rt; census(&m), (0, 4096));
    assert!(rt; ends_at_the_last_page(&mut m));
    assert!(rt; write::put_byte(&mut m, 16_777_215, 1).is_ok());
    let (_first, second) = m.into_parts();
    assert_eq!(rt;
        (word(&second, 16_773_118), word(&second, 16_777_214)),
        (Some(0x0100), Some(0))
    );
    Ok(())
}

#[test]
fn a_join_of_a_join(rt: HostRuntime) -> Result<(), Fail> {
    let fixed = zeros(rt.alloc(), 8192)?;
    let inner = Joined::new(Flat::new(zeros(rt.alloc(), 4096)?), Image::new(&fixed), 1);
    let mut m = Joined::new(inner, Flat::new(zeros(rt.alloc(), 4096)?), 2);
    assert_eq!(rt; census(&m), (1, 2));
    assert_eq!(rt;
        (m.kind(0), m.kind(1), m.kind(2), m.kind(3)),
        (Kind::Writable, Kind::Fixed, Kind::Writable, Kind::Absent)
    );
    assert!(rt; write::put_word(&mut m, 4094, 0x0201).is_ok());
    assert!(rt; refuses(&mut m, 4096));
    assert!(rt; write::put_byte(&mut m, 8192, 3).is_ok());
    assert!(rt; ends_at_the_last_page(&mut m));
    let (inner, last) = m.into_parts();
    assert_eq!(rt;
        (word(&inner, 4094), word(&inner, 8192)),
        (Some(0x0201), Some(0))
    );
    assert_eq!(rt; word(&last, 0), Some(3));
    Ok(())
}
