ghost use Rattle.std.specs.Prelude.{◌≡◌, IfOk};

use std::alloc::AllocError;
use xdb_key::{Key, KeyRange, Name};

/// What a client asks: of what stands now, or at the snapshot of a name.
#[derive(Debug, Drop)]
pub enum Question {
    /// The value of a key.
    Get {
        key: Key,
        at: Option<Name>,
    },
    /// The first pairs of a range, as many as `most`, from 1 to 1,000.
    Scan {
        range: KeyRange,
        most: u32,
        at: Option<Name>,
    },
    /// The last pairs of a range, from the last one down.
    RScan {
        range: KeyRange,
        most: u32,
        at: Option<Name>,
    },
    /// The pair at the place to which a cursor moves.
    Move {
        cursor: Name,
        step: Step,
    },
}

impl Question {
    pub fn copy(&self) -> Result<Self, AllocError>
        ensures { IfOk result (λ question. question ≡ self.now) }
    {
        match self {
            Question::Get { key, at } => {
                let key = key.copy()?;
                Ok(Question::Get { key, at: *at })
            }
            Question::Scan { range, most, at } => {
                let range = range.copy()?;
                Ok(Question::Scan {
                    range,
                    most: *most,
                    at: *at,
                })
            }
            Question::RScan { range, most, at } => {
                let range = range.copy()?;
                Ok(Question::RScan {
                    range,
                    most: *most,
                    at: *at,
                })
            }
            Question::Move { cursor, step } => {
                let step = step.copy()?;
                Ok(Question::Move {
                    cursor: *cursor,
                    step,
                })
            }
        }
    }
}

/// Where a cursor moves.
#[derive(Debug, Drop)]
pub enum Step {
    First,
    Last,
    Next,
    Prev,
    /// To the first pair whose key isn't below this one.
    Seek { key: Key },
    /// To the last pair whose key is below this one.
    SeekLt { key: Key },
}

impl Step {
    pub fn copy(&self) -> Result<Self, AllocError>
        ensures { IfOk result (λ step. step ≡ self.now) }
    {
        match self {
            Step::First => Ok(Step::First),
            Step::Last => Ok(Step::Last),
            Step::Next => Ok(Step::Next),
            Step::Prev => Ok(Step::Prev),
            Step::Seek { key } => Ok(Step::Seek { key: key.copy()? }),
            Step::SeekLt { key } => Ok(Step::SeekLt { key: key.copy()? }),
        }
    }
}

/// Where a cursor stands among the pairs of its range.
#[derive(Debug, Drop)]
pub enum Place {
    Before,
    On { key: Key },
    After,
}
