// Sources and sinks of bytes, and the loops over them.
ghost use Rattle.std.specs.Prelude.{◌≡◌, ℕ, ◌+◌, ◌<◌, ◌≤◌, Option, List, length, take, Ok, IfOk, OnOk, OnErr, IfErr, IsErrOf};
ghost use Rattle.std.specs.Io.KnownBytes.{prepend_known, append_known, IsAtEnd};
ghost use Rattle.xdb_device.specs.Faults.{Rose};
ghost use Rattle.xdb_device.specs.Streams.{Grew};

use crate::DevNo;

/// Where bytes come from.
pub trait Source {
    /// How often it failed. It never falls, and stands still at the greatest u64.
    ghost faults: { Self → ℕ };

    /// The bytes that are left, where the source tells them.
    ghost left: { Self → Option (List ℕ) };

    /// Adds the next bytes, at most `most`, and answers how many; 0 exactly at the end.
    fn pull(&mut self, out: &mut Vec<u8>, most: usize) -> Result<usize, DevNo>
        requires { 1 ≤ most }
        ensures later { faults self.old ≤ faults self.new }
        ensures failed { IsErrOf result DevNo.Failed → Rose (faults self.old) (faults self.new) }
        ensures still { OnOk result (faults self.new ≡ faults self.old) }
        ensures still_memory { IsErrOf result DevNo.Memory → faults self.new ≡ faults self.old }

        ensures grew { IfOk result (λ n. Grew n out.old.items out.new.items × (n ≤ most)) }
        ensures taken { OnOk result (prepend_known out.new.items (left self.new) ≡ prepend_known out.old.items (left self.old)) }
        ensures end { result ≡ Ok 0 → IsAtEnd (left self.old) }

        ensures err { OnErr result ((out.new.items ≡ out.old.items) × (left self.new ≡ left self.old)) };
}

/// Where bytes go.
pub trait Sink {
    /// How often it failed. It never falls, and stands still at the greatest u64.
    ghost faults: { Self → ℕ };

    /// The bytes that were written, where the sink tells them.
    ghost written: { Self → Option (List ℕ) };

    /// Writes the first bytes of the piece, and answers how many.
    fn push(&mut self, bytes: &[u8]) -> Result<usize, DevNo>
        requires { 1 ≤ length bytes.now }
        ensures later { faults self.old ≤ faults self.new }
        ensures failed { IsErrOf result DevNo.Failed → Rose (faults self.old) (faults self.new) }
        ensures still { OnOk result (faults self.new ≡ faults self.old) }
        ensures still_memory { IsErrOf result DevNo.Memory → faults self.new ≡ faults self.old }

        ensures count { IfOk result (λ n. (1 ≤ n) × (n ≤ length bytes.now)) }
        ensures appended { IfOk result (λ n. written self.new ≡ append_known (written self.old) (take n bytes.now)) }

        ensures err { OnErr result (written self.new ≡ written self.old) };
}

/// Pulls until the source ends or `most` bytes were added, and answers how many.
/// After an error the bytes that came before it are in `out`. Each turn but the last adds a byte.
pub fn read_up_to<S: Source>(source: &mut S, out: &mut Vec<u8>, most: usize) -> Result<usize, DevNo>
    ensures later { S.faults source.old ≤ S.faults source.new }
    ensures failed { IsErrOf result DevNo.Failed → Rose (S.faults source.old) (S.faults source.new) }
    ensures still { OnOk result (S.faults source.new ≡ S.faults source.old) }
    ensures still_memory { IsErrOf result DevNo.Memory → S.faults source.new ≡ S.faults source.old }

    ensures grew { IfOk result (λ n. Grew n out.old.items out.new.items × (n ≤ most)) }
    ensures front { take (length out.old.items) out.new.items ≡ out.old.items }
    ensures bound { length out.new.items ≤ length out.old.items + most }
    ensures taken { prepend_known out.new.items (S.left source.new) ≡ prepend_known out.old.items (S.left source.old) }
    ensures end { IfOk result (λ n. n < most → IsAtEnd (S.left source.new)) }
{
    let mut taken = 0;
    while taken < most {
        let count = source.pull(out, most - taken)?;
        if count == 0 {
            break;
        }
        taken += count;
    }
    Ok(taken)
}

/// A text that was written in part.
#[derive(Clone, Copy, Debug, PartialEq, Eq)]
pub struct ShortWrite {
    pub cause: DevNo,
    /// How many of its bytes were written.
    pub count: usize,
}

/// Pushes until all bytes are written. Each turn but the last writes a byte.
pub fn write_all<K: Sink>(sink: &mut K, bytes: &[u8]) -> Result<(), ShortWrite>
    ensures later { K.faults sink.old ≤ K.faults sink.new }
    ensures failed { IfErr result (λ e. e.cause ≡ DevNo.Failed → Rose (K.faults sink.old) (K.faults sink.new)) }
    ensures still { OnOk result (K.faults sink.new ≡ K.faults sink.old) }
    ensures still_memory { IfErr result (λ e. e.cause ≡ DevNo.Memory → K.faults sink.new ≡ K.faults sink.old) }

    ensures written { OnOk result (K.written sink.new ≡ append_known (K.written sink.old) bytes.now) }
    ensures short { IfErr result (λ e. (e.count < length bytes.now) × (K.written sink.new ≡ append_known (K.written sink.old) (take e.count bytes.now))) }
{
    let mut count = 0;
    while count < bytes.len() {
        match sink.push(&bytes[count..]) {
            Ok(n) => count += n,
            Err(cause) => return Err(ShortWrite { cause, count }),
        }
    }
    Ok(())
}
