// What is ordered.

/// A kind of work: what is given for it, and what comes of it.
pub trait Work: Send + Sync {
    type In: Drop + Send + Sync;

    type Out: Drop + Send;

    // A result that answers the given.
    ghost fits: { Self.In → Self.Out → Type 0 };
}
