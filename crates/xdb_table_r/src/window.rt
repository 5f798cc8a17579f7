use xdb_key::Bound;

/// What a view shows of a table: keys from `lo` on and below `hi`, and where `synthetic` isn't 0, this number
/// in place of all numbers.
#[derive(Drop)]
pub struct Window {
    pub lo: Bound,
    pub hi: Bound,
    pub synthetic: u64,
}
