// A whole file, read piece by piece.
ghost use Rattle.std.specs.Prelude.{◌≡◌, OnOk, OnErr, IsErrOf};
ghost use Rattle.xdb_device.specs.Counted.{Counted};
ghost use Rattle.xdb_device.specs.Files.{AddsFrom};
ghost use Rattle.xdb_device.specs.Streams.{Grew};

use crate::{DevNo, FileRef, Reader};

// The most bytes that one read takes.
const PIECE: u64 = 65_536;

/// Adds all the bytes of a file. After an error `out` is as before. The file's length bounds the
/// number of reads.
pub fn read_whole<R: Reader>(reader: &mut R, file: &R::File, out: &mut Vec<u8>) -> Result<(), DevNo>
    ensures counted { Counted R.faults R.misses R.frame reader.old reader.new (IsErrOf result DevNo.Failed) }
    ensures told { R.told reader.new ≡ R.told reader.old }

    ensures grew { OnOk result (Grew (R.File.size file.now) out.old.items out.new.items) }
    ensures read { OnOk result (AddsFrom (R.File.bytes file.now) 0 (R.File.size file.now) out.old.items out.new.items) }

    ensures err { OnErr result (out.new.items ≡ out.old.items) }
{
    let start = out.len();
    let end = file.len();
    let mut off = 0;
    while off < end {
        let len = (end - off).min(PIECE);
        match reader.read_at(file, off, len as u32, out) {
            Ok(()) => off += len,
            Err(cause) => {
                out.truncate(start);
                return Err(cause);
            }
        }
    }
    Ok(())
}
