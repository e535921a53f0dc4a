// What may be done with a page.
#[derive(Clone, Copy, Debug, PartialEq, Eq)]
pub enum Kind {
    // the page has no bytes
    Absent,
    // its bytes can be read
    Fixed,
    // its bytes can be read and written
    Writable,
}
