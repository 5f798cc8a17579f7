/// Where a block lies in a file, without its type byte. A length of 0 means that it is left out.
#[derive(Clone, Copy, Debug)]
pub struct Part {
    pub at: u64,
    pub len: u64,
}

/// What a footer names.
#[derive(Clone, Copy, Debug)]
pub struct Layout {
    pub spans: Part,
    pub index: Part,
}
