ghost use Rattle.std.specs.Prelude.{◌≡◌, vec_len, IfOk};

use crate::devices::DEVICES;
use crate::shell::exit_code;
use crate::status::Status;
use std::alloc::{AllocError, Global};
use std::env::Args;
use std::io;
use std::io::ErrorKind;
use std::process::ExitCode;
use std::test::Fail;
use xdb_device::{MemSink, MemSource, SureDevice};

const USAGE: &[u8] = b"usage: excisedb run | threads --workers N | gen --ops N --seed X\n";

const SCRIPT: &[u8] = b"c1 put a 1\nc1 get a\n";

const REPLIES: &[u8] = b"c1 put a 1 -> done\nc1 get a -> value 1\n";

fn devices(alloc: Global) -> Result<Vec<SureDevice>, AllocError>
    ensures { IfOk result (λ devs. vec_len devs ≡ 16) }
{
    let mut devs = Vec::new(alloc);
    for _dev in 0..DEVICES {
        devs.push(SureDevice::new(alloc))?;
    }
    Ok(devs)
}

/// The program's name and one word.
fn args(alloc: Global, word: &str) -> io::Result<Args> {
    let mut args = Vec::new(alloc);
    args.push(String::from_str(alloc, "excisedb")?)?;
    args.push(String::from_str(alloc, word)?)?;
    Ok(args.into_iter())
}

/// Whether a call on a script of two lines ends with this code and has written this text. The numbers
/// say which pull and which push fail, and a push takes five bytes.
fn exit_is(
    alloc: Global,
    args: io::Result<Args>,
    (pull, push): (u64, u64),
    code: u8,
    text: &[u8],
) -> Result<bool, AllocError> {
    let mut source = MemSource::new(SCRIPT.to_vec(alloc)?, [pull].to_vec(alloc)?);
    let mut sink = MemSink::new(alloc, 5, [push].to_vec(alloc)?);
    let mut devs = devices(alloc);
    let exit = exit_code(alloc, args, &mut source, &mut sink, &mut devs);
    Ok(exit == ExitCode::from(code) && sink.bytes() == text)
}

#[test]
fn faults_of_the_outside(rt: HostRuntime) -> Result<(), Fail> {
    let rows: [(&str, (u64, u64), u8, &[u8]); 7] = [
        ("run", (0, 0), 0, REPLIES),
        // the first pull fails, and one in mid-stream
        ("run", (1, 0), 3, b""),
        ("run", (2, 0), 3, b""),
        // the first push fails, and the second
        ("run", (0, 1), 4, b""),
        ("run", (0, 2), 4, b"c1 pu"),
        // other words leave the source alone
        ("walk", (1, 0), 1, USAGE),
        ("walk", (1, 2), 4, b"usage"),
    ];
    for (word, fails, code, text) in rows {
        let right = exit_is(rt.alloc(), args(rt.alloc(), word), fails, code, text)?;
        assert!(rt; right, "at {word}, code {code}");
    }
    Ok(())
}

#[test]
fn words_that_cannot_be_had(rt: HostRuntime) -> Result<(), Fail> {
    let rows: [(ErrorKind, u8, &[u8]); 2] = [
        // they aren't text
        (ErrorKind::InvalidData, 1, USAGE),
        (ErrorKind::OutOfMemory, 5, b""),
    ];
    for (kind, code, text) in rows {
        let right = exit_is(rt.alloc(), Err(kind.into()), (1, 0), code, text)?;
        assert!(rt; right, "code {code}");
    }
    Ok(())
}

#[test]
fn codes(rt: HostRuntime) {
    for (status, code) in [
        (Status::Done, 0),
        (Status::Words, 1),
        (Status::Script, 2),
        (Status::ReadFault, 3),
        (Status::WriteFault, 4),
        (Status::Memory, 5),
    ] {
        assert!(rt; status.code() == code);
    }
}
