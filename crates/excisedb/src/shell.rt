//! From what the runtime hands over to the exit code.
ghost use Rattle.std.specs.Prelude.{◌≡◌, ◌≢◌, ◌<◌, vec_len, IfOk, IsErr};
ghost use Rattle.std.specs.Process.{exit_status};
ghost use Rattle.xdb_device.specs.Faults.{Rose};
ghost use Rattle.xdb_engine.specs.Files.{AreTold};
ghost use Rattle.excisedb.specs.Devices.{devices_of};
ghost use Rattle.excisedb.specs.Ends.{Ends, run_words};
ghost use Rattle.excisedb.specs.Exits.{Exits};
ghost use Rattle.excisedb.specs.Words.{words_of, LacksMemory};

use crate::status::Status;
use crate::top::top;
use crate::words;
use std::alloc::{AllocError, Global};
use std::env::Args;
use std::io;
use std::process::ExitCode;
use xdb_device::{Device, Sink, Source};

/// The whole call of the program: its arguments, its standard input and output, and its devices,
/// each as it was made. Words that aren't text are no words.
pub fn exit_code<S: Source, K: Sink, D: Device + Drop>(
    alloc: Global,
    args: io::Result<Args>,
    script: &mut S,
    out: &mut K,
    devs: &mut Result<Vec<D>, AllocError>,
) -> ExitCode
    requires devices { IfOk devs.old (λ devs. vec_len devs ≡ 16) }

    // What was read and written, by the exit code.
    ensures exits { Exits (exit_status result) (words_of args)
        (S.left script.old) (S.left script.new) (K.written out.old) (K.written out.new)
        (AreTold D.File.bytes)
        (devices_of D.faults D.told devs.old) (devices_of D.faults D.told devs.new) }

    // 3 and 4 exactly where the counts of faults say so.
    ensures read_fault { exit_status result ≡ 3 → Rose (S.faults script.old) (S.faults script.new) }
    ensures read_failed { S.faults script.old < S.faults script.new → exit_status result ≡ 3 }
    ensures write_fault { exit_status result ≡ 4 → Rose (K.faults out.old) (K.faults out.new) }
    ensures write_failed { K.faults out.old < K.faults out.new → exit_status result ≡ 4 }

    // 5 where there was no memory for the words or for the devices.
    ensures no_words { LacksMemory args → exit_status result ≡ 5 }
    ensures no_devices { IsErr devs.old → exit_status result ≡ 5 }

    ensures alone { words_of args ≢ run_words → script.new ≡ script.old }
{
    ExitCode::from(status(alloc, args, script, out, devs).code())
}

fn status<S: Source, K: Sink, D: Device + Drop>(
    alloc: Global,
    args: io::Result<Args>,
    script: &mut S,
    out: &mut K,
    devs: &mut Result<Vec<D>, AllocError>,
) -> Status
    requires devices { IfOk devs.old (λ devs. vec_len devs ≡ 16) }
    ensures ends { Ends result (words_of args)
        (S.left script.old) (S.left script.new) (K.written out.old) (K.written out.new)
        (AreTold D.File.bytes)
        (devices_of D.faults D.told devs.old) (devices_of D.faults D.told devs.new) }
    ensures read_fault { result ≡ Status.ReadFault → Rose (S.faults script.old) (S.faults script.new) }
    ensures read_failed { S.faults script.old < S.faults script.new → result ≡ Status.ReadFault }
    ensures write_fault { result ≡ Status.WriteFault → Rose (K.faults out.old) (K.faults out.new) }
    ensures write_failed { K.faults out.old < K.faults out.new → result ≡ Status.WriteFault }
    ensures no_words { LacksMemory args → result ≡ Status.Memory }
    ensures no_devices { IsErr devs.old → result ≡ Status.Memory }
    ensures alone { words_of args ≢ run_words → script.new ≡ script.old }
{
    match (words::given(alloc, args), devs) {
        (Ok(words), Ok(devs)) => top(alloc, &words, script, out, devs),
        _ => Status::Memory,
    }
}
