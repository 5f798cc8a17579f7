/// Where a row lies: its key among the keys, and its value among the block's bytes.
#[derive(Clone, Copy, Debug)]
pub struct Place {
    pub key: usize,
    pub key_end: usize,
    pub value: usize,
    /// Behind the value, where the next entry begins.
    pub end: usize,
}
