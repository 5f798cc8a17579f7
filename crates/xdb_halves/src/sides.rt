use xdb_key::Extent;

/// The extents of what a view holds on either side of a span. A side where it holds nothing has none.
#[derive(Debug, Drop)]
pub struct Halves {
    /// Of what lies before the span's start.
    pub left: Option<Extent>,
    /// Of what lies from the span's end on.
    pub right: Option<Extent>,
}
