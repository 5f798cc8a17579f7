// What clauses see of a desk's looks.

/// What a desk has seen of its slot. Only clauses speak of it: no value is made.
pub struct Story {
    /// How often it has looked. Each look is one exchange.
    pub looks: u64,
    /// Whether a look has found the result. The first look after the delivery does.
    pub found: bool,
}
