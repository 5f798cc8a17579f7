ghost use Rattle.std.specs.Prelude.{◌≡◌, IfOk};

use crate::Items;
use std::alloc::AllocError;
use xdb_key::{Key, Val};

/// Pairs of a key and its value.
pub type Pairs = Items<(Key, Val)>;

/// The answer to a question.
#[derive(Debug, Drop)]
pub enum Answer {
    /// The value of the key.
    Value(Val),
    /// The key has no value.
    Absent,
    /// The pairs of a range.
    Found(Pairs),
    /// The pair at a cursor's place.
    Pair(Key, Val),
    /// A cursor's place is before the first pair or behind the last.
    End,
}

impl Answer {
    pub fn copy(&self) -> Result<Self, AllocError>
        ensures { IfOk result (λ answer. answer ≡ self.now) }
    {
        match self {
            Answer::Value(value) => Ok(Answer::Value(value.copy()?)),
            Answer::Absent => Ok(Answer::Absent),
            Answer::Found(pairs) => Ok(Answer::Found(copy_pairs(pairs)?)),
            Answer::Pair(key, value) => {
                let key = key.copy()?;
                let value = value.copy()?;
                Ok(Answer::Pair(key, value))
            }
            Answer::End => Ok(Answer::End),
        }
    }
}

fn copy_pairs(pairs: &Pairs) -> Result<Pairs, AllocError>
    ensures { IfOk result (λ copy. copy ≡ pairs.now) }
{
    let mut copy = Vec::with_capacity(pairs.allocator(), pairs.list().len())?;
    for (key, value) in pairs.list() {
        copy.push((key.copy()?, value.copy()?))?;
    }
    Ok(Items::new(copy))
}
