/// Where the bytes of an operation begin.
#[derive(Clone, Copy, Debug)]
pub struct Place {
    pub seq: u64,
    pub start: usize,
}
