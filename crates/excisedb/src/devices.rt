//! The devices that files are kept on.
ghost use Rattle.std.specs.Prelude.{◌≡◌, vec_len, IfOk};

use std::alloc::AllocError;
use std::rt::Files;
use xdb_device::DirDevice;

/// As many as there may be workers.
pub const DEVICES: usize = 16;

/// Devices over the current folder.
pub fn of_folder<R: Files + AllocGlobal + Copy>(rt: R) -> Result<Vec<DirDevice<R>>, AllocError>
    ensures { IfOk result (λ devs. vec_len devs ≡ 16) }
{
    let mut devs = Vec::new(rt.alloc());
    for _dev in 0..DEVICES {
        devs.push(DirDevice::new(rt))?;
    }
    Ok(devs)
}
