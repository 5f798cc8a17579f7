use crate::Name;

/// What a snapshot stands on.
#[derive(Clone, Copy, Debug)]
pub enum SnapState {
    /// On the memtables too: on those up to this group.
    Pinned { group: u64 },
    /// On a version of its own alone.
    FileOnly,
    /// Refused from now on: the load cut out keys of its ranges before it was file-only.
    Excised { load: Name },
}
