ghost use Rattle.std.specs.Prelude.{◌≡◌};
ghost use Rattle.xdb_snap.specs.Changes.{making_group, made};

use xdb_key::{KeyRange, Name, SnapState};
use xdb_plain::Items;

/// An open snapshot, as `EventuallyFileOnlySnapshot` in Pebble: protected ranges, seen as they were at its
/// making.
#[derive(Debug, Drop)]
pub struct Snap<H, T> {
    pub name: Name,
    /// Each ends before the next begins, or where it begins.
    pub ranges: Items<KeyRange>,
    /// The next sequence number at its making: it sees what is numbered below.
    pub mark: u64,
    pub state: SnapState,
    /// The last group of memtables that touched its ranges at its making; 0 where none did.
    pub group: u64,
    /// Its hold of a version, once it is file-only.
    pub hold: Option<H>,
    /// Room for that hold, until it is used.
    pub ticket: Option<T>,
}

impl<H, T> Snap<H, T> {
    /// A snapshot with room for its hold.
    pub(crate) fn new(
        name: Name,
        ranges: Vec<KeyRange>,
        mark: u64,
        state: SnapState,
        ticket: T,
    ) -> Self
        ensures { result ≡ made name ranges.items mark state ticket }
    {
        let group = making_group(&state);
        Snap {
            name,
            ranges: Items::new(ranges),
            mark,
            state,
            group,
            hold: None,
            ticket: Some(ticket),
        }
    }
}

/// The group of a snapshot that is made in this state.
fn making_group(state: &SnapState) -> u64
    ensures { result ≡ making_group state.now }
{
    match state {
        SnapState::Pinned { group } => *group,
        SnapState::FileOnly | SnapState::Excised { .. } => 0,
    }
}
