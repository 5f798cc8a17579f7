/// How a script is run, which decides what may stand in it.
#[derive(Clone, Copy, Debug, PartialEq, Eq)]
pub enum ScriptForm {
    /// One line after the other, by one thread.
    Run,
    /// By workers, who do the owner's work themselves: the owner doesn't speak, and no question is in parts.
    Threads,
}
