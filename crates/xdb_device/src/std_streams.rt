// Standard input and output, as a source and a sink.
ghost use Rattle.std.specs.Prelude.{◌≡◌, ◌≤◌, length, take, Ok, IfOk, OnErr};
ghost use Rattle.std.specs.Io.{appended_bytes};
ghost use Rattle.std.specs.Io.KnownBytes.{Appends, Consumes, IsAtEnd};
ghost use Rattle.xdb_device.specs.StdStreams.{source_faults, input_of, sink_faults, output_of};
ghost use Rattle.xdb_device.specs.Faults.{raised};
ghost use Rattle.xdb_device.specs.Streams.{Grew};

use crate::{DevNo, Sink, Source};
use std::io::{Read, Stdin, Stdout, Write};

// The most bytes that one pull reads.
const PIECE: usize = 8192;

/// Standard input, or another reader. It tells no bytes.
#[derive(Drop)]
pub struct StdSource<R = Stdin> {
    input: R,
    faults: u64,
}

impl<R: Read> StdSource<R> {
    ghost use Rattle.std.specs.Prelude.{◌≡◌};

    pub fn new(input: R) -> Self
        ensures faults { source_faults result ≡ 0 }
        ensures input { input_of result ≡ input }
    {
        StdSource { input, faults: 0 }
    }
}

impl<R: Read> Source for StdSource<R> {
    ghost use Rattle.std.specs.Prelude.{None};

    ghost faults = { source_faults };

    ghost left = { λ _. None };

    fn pull(&mut self, out: &mut Vec<u8>, most: usize) -> Result<usize, DevNo>
        requires { 1 ≤ most }
        ensures counted { source_faults self.new ≡ raised result (source_faults self.old) }
        ensures grew { IfOk result (λ n. Grew n out.old.items out.new.items × (n ≤ most)) }
        ensures err { OnErr result (out.new.items ≡ out.old.items) }

        // What it adds is what the reader gave; 0 only at its end.
        ensures given { IfOk result (λ _. Consumes (R.remaining (input_of self.old)) (R.remaining (input_of self.new))
            (appended_bytes out.old.items out.new.items)) }
        ensures end { result ≡ Ok 0 → IsAtEnd (R.remaining (input_of self.new)) }
    {
        let room = most.min(PIECE);
        // Room first, so that no byte is read and then lost.
        out.try_reserve(room)?;
        let mut piece = [0; PIECE];
        match self.input.read(&mut piece[..room]) {
            Ok(count) => {
                if out.extend_from_slice(&piece[..count]).is_err() {
                    unreachable!();
                }
                Ok(count)
            }
            Err(_) => {
                self.faults = self.faults.saturating_add(1);
                Err(DevNo::Failed)
            }
        }
    }
}

/// Standard output, or another writer. It tells no bytes.
#[derive(Drop)]
pub struct StdSink<W = Stdout> {
    output: W,
    faults: u64,
}

impl<W: Write> StdSink<W> {
    ghost use Rattle.std.specs.Prelude.{◌≡◌};

    pub fn new(output: W) -> Self
        ensures faults { sink_faults result ≡ 0 }
        ensures output { output_of result ≡ output }
    {
        StdSink { output, faults: 0 }
    }
}

impl<W: Write> Sink for StdSink<W> {
    ghost use Rattle.std.specs.Prelude.{None};

    ghost faults = { sink_faults };

    ghost written = { λ _. None };

    // A write that takes nothing is a failure too: what is left would never go.
    fn push(&mut self, bytes: &[u8]) -> Result<usize, DevNo>
        requires { 1 ≤ length bytes.now }
        ensures counted { sink_faults self.new ≡ raised result (sink_faults self.old) }
        ensures count { IfOk result (λ n. (1 ≤ n) × (n ≤ length bytes.now)) }

        // What it says that it wrote is what the writer took.
        ensures taken { IfOk result (λ n. Appends (W.contents (output_of self.old)) (W.contents (output_of self.new)) (take n bytes.now)) }
    {
        match self.output.write(bytes) {
            Ok(count) if count > 0 => Ok(count),
            _ => {
                self.faults = self.faults.saturating_add(1);
                Err(DevNo::Failed)
            }
        }
    }
}
