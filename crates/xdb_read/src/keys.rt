//! The keys that an answer looks at.
ghost use Rattle.std.specs.Prelude.{◌≡◌, IfOk};
ghost use Rattle.xdb_key.specs.Bounds.{key_hull};
ghost use Rattle.xdb_read.specs.Asked.{common};

use std::alloc::AllocError;
use xdb_key::{Key, KeyRange, greater, lesser};

/// The range of the key alone; None where the bounds don't hold it.
pub fn hull_in(bounds: &KeyRange, key: &Key) -> Result<Option<KeyRange>, AllocError>
    ensures { IfOk result (λ hull. hull ≡ common bounds.now (key_hull key.now)) }
{
    let hull = key.hull()?;
    common(bounds, &hull)
}

/// What two ranges have in common; None where they don't meet.
pub fn common(a: &KeyRange, b: &KeyRange) -> Result<Option<KeyRange>, AllocError>
    ensures { IfOk result (λ both. both ≡ common a.now b.now) }
{
    if !a.meets(b) {
        return Ok(None);
    }
    let lo = greater(a.lo(), b.lo()).copy()?;
    let hi = lesser(a.hi(), b.hi()).copy()?;
    let Ok(both) = KeyRange::new(lo, hi) else {
        unreachable!()
    };
    Ok(Some(both))
}
