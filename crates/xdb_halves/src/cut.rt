ghost use Rattle.std.specs.Prelude.{◌≡◌, IfOk, IfSome, IsErrOf, IsTrue};
ghost use Rattle.xdb_key.specs.Bounds.{covers};
ghost use Rattle.xdb_key.specs.Entries.{IsReach};
ghost use Rattle.xdb_device.specs.Counted.{Counted};
ghost use Rattle.xdb_table_r.specs.Reaches.{TellsOf};
ghost use Rattle.xdb_table_r.specs.Views.{keys_of};
ghost use Rattle.xdb_halves.specs.Beside.{AreHalvesOf, HasNone, LieBeside, rows_beside};

use crate::Halves;
use xdb_device::Reader;
use xdb_key::{Extent, KeyRange};
use xdb_table_r::{TableNo, View};

/// The halves that are left of a view where a span is taken out of it. Each has the least range with
/// the hulls of the points and with the spans on its side, spans cut to that side, and the least and
/// the greatest of their numbers.
///
/// Each side that has keys of the view is read for itself, and one that has none isn't.
///
/// # Errors
///
/// - `ReadFault`: the device failed.
/// - `Damaged`: a point block isn't in the grammar; `at` is the place of the first such block of the
///   file, on whichever side it lies.
/// - `Memory`: an allocation failed.
pub fn halves<R: Reader>(
    view: &View<R::File>,
    span: &KeyRange,
    dev: &mut R,
) -> Result<Halves, TableNo>
    ensures counted { Counted R.faults R.misses R.frame dev.old dev.new
        (IsErrOf result TableNo.ReadFault) }
    ensures told { R.told dev.new ≡ R.told dev.old }
    // Where the span covers the view's bounds, nothing is read, and neither half is there.
    ensures alone { IsTrue (covers span.now (keys_of view.now)) → dev.new ≡ dev.old }
    ensures nothing { IsTrue (covers span.now (keys_of view.now)) → IfOk result HasNone }
    ensures within { IfOk result (LieBeside (keys_of view.now) span.now) }
    // Over a file that tells its bytes, the halves are those of what it holds, or the first
    // defect is named.
    ensures tells { IfSome (R.File.bytes view.now.table.file) (λ b.
        TellsOf view.now.table.backing (AreHalvesOf view.now span.now)
        result (rows_beside view.now span.now b)) }
{
    let left = view.extent_left_of(span.lo(), dev)?;
    begins_below_its_end(&left);
    let right = view.extent_right_of(span.hi(), dev)?;
    begins_below_its_end(&right);
    Ok(Halves { left, right })
}

/// What every extent keeps, for the proof alone: with its start comes that this is below its end. So
/// no extent lies within a side without keys.
fn begins_below_its_end(half: &Option<Extent>)
    ensures { IfSome half.now IsReach }
{
    if let Some(extent) = half {
        let _lo = extent.lo();
    }
}
