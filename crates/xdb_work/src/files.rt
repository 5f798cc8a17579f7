ghost use Rattle.std.specs.Prelude.{◌≡◌, ◌+◌, ◌≤◌, [], ◌∷◌, ◌++◌, length, vec_capacity, IfOk, IfSome, IsErrOf};
ghost use Rattle.xdb_device.specs.Counted.{Counted};
ghost use Rattle.xdb_device.specs.Told.{Created};

use xdb_device::{DevNo, Device};

/// Creates the file, and names its number among those that were tried, for which there is room.
pub fn create<D: Device>(
    dev: &mut D,
    num: u64,
    bytes: &[u8],
    tried: &mut Vec<u64>,
) -> Result<D::File, DevNo>
    requires { length tried.old.items + 1 ≤ vec_capacity tried.old }
    ensures tried { tried.new.items ≡ tried.old.items ++ num ∷ [] }
    ensures capacity { vec_capacity tried.old ≤ vec_capacity tried.new }
    ensures counted { Counted D.faults D.misses D.frame dev.old dev.new
        (IsErrOf result DevNo.Failed) }
    ensures told { Created num bytes.now result (D.told dev.old) (D.told dev.new) }
    ensures size { IfOk result (λ file. D.File.size file ≡ length bytes.now) }
    ensures bytes { IfOk result (λ file. IfSome (D.File.bytes file) (λ told. told ≡ bytes.now)) }
{
    put(tried, num);
    dev.create(num, bytes)
}

/// Puts the item behind the others. There is room for it.
pub fn put<T: Drop>(items: &mut Vec<T>, item: T)
    requires { length items.old.items + 1 ≤ vec_capacity items.old }
    ensures put { items.new.items ≡ items.old.items ++ item ∷ [] }
    ensures capacity { vec_capacity items.old ≤ vec_capacity items.new }
{
    if items.push(item).is_err() {
        unreachable!();
    }
}
