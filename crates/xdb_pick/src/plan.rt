ghost use Rattle.std.specs.Prelude.{◌≡◌};

use std::marker::Model;
use xdb_key::KeyRange;

/// A compaction that may begin: from which level it takes, which tables, over which keys.
#[derive(Debug, Drop)]
pub struct Plan {
    pub(crate) level: usize,
    pub(crate) inputs: Vec<(u8, u64)>,
    pub(crate) hull: KeyRange,
    pub(crate) floor: Vec<KeyRange>,
}

impl Model for Plan {
    ghost use Rattle.xdb_edit.specs.Plans.{Planned};
    ghost use Rattle.xdb_pick.specs.Hulls.{plan};

    ghost Value = { Planned };

    ghost view = { λ p. plan p.level p.inputs.items p.hull p.floor.items };
}

impl Plan {
    /// The level that it takes from. It writes to the next.
    pub fn level(&self) -> usize
        ensures { result ≡ self.now.level }
    {
        self.level
    }

    /// The tables that it takes, by level and number, rising.
    pub fn inputs(&self) -> &[(u8, u64)]
        ensures { result.now ≡ self.now.inputs }
    {
        &self.inputs
    }

    /// The keys that it is over.
    pub fn hull(&self) -> &KeyRange
        ensures { result.now ≡ self.now.hull }
    {
        &self.hull
    }

    /// The bounds of the tables below the level that it writes to, level after level.
    pub fn floor(&self) -> &[KeyRange]
        ensures { result.now ≡ self.now.floor }
    {
        &self.floor
    }

    /// Its inputs, its hull and its floor, without memory.
    pub fn into_parts(self) -> (Vec<(u8, u64)>, KeyRange, Vec<KeyRange>)
        ensures inputs { result.0.items ≡ self.inputs }
        ensures hull { result.1 ≡ self.hull }
        ensures floor { result.2.items ≡ self.floor }
    {
        (self.inputs, self.hull, self.floor)
    }
}
