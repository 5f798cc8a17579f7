ghost use Rattle.std.specs.Prelude.{◌≡◌};
ghost use Rattle.xdb_gen.specs.Rules.{rule_of};

/// What an operation is for.
#[derive(Clone, Copy, Debug, PartialEq, Eq)]
pub enum Rule {
    /// The memtables are flushed, and a level is compacted.
    Upkeep,
    /// A load excises some keys.
    Load,
    /// A snapshot is made, and an older one is dropped.
    Snapshot,
    /// A client changes the map or asks.
    Command,
}

impl Rule {
    /// The first rule that fits the operation of this number.
    pub fn of(operation: u32) -> Self
        ensures { result ≡ rule_of operation }
    {
        if operation % 500 == 0 {
            Rule::Upkeep
        } else if operation % 700 == 0 {
            Rule::Load
        } else if operation % 900 == 0 {
            Rule::Snapshot
        } else {
            Rule::Command
        }
    }
}
