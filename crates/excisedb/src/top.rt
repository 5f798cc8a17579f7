//! From words and a script to what is written.
ghost use Rattle.std.specs.Prelude.{◌≡◌, ◌≢◌, ◌<◌, map, string_bytes, vec_len, IfOk, IsTrue};
ghost use Rattle.xdb_device.specs.Faults.{Rose};
ghost use Rattle.xdb_engine.specs.Files.{AreTold};
ghost use Rattle.excisedb.specs.Devices.{device_seen, devices_seen};
ghost use Rattle.excisedb.specs.Ends.{run_words, usage_text, refusal_text, why_word, Ends};
ghost use Rattle.excisedb.specs.Outcome.{Replies, RepliesTo, IsSent};

use crate::status::Status;
use crate::words;
use itoa::Buffer;
use std::alloc::{AllocError, Global};
use xdb_device::{DevNo, Device, Sink, Source, read_up_to, write_all};
use xdb_plain::Script;
use xdb_run::{RunNo, first_unbuilt, run_script};
use xdb_script::{ScriptForm, ScriptNo, Why, parse};

const USAGE: &[u8] = b"usage: excisedb run | threads --workers N | gen --ops N --seed X\n";

/// The most bytes that are read: with one more than this a script is too long.
const MOST: usize = 1_048_577;

/// Runs the command that the words say, on the script that the source has, and writes its text.
/// The whole text is made before the first byte is written. `run` keeps its files on the first device;
/// no command that writes one is built yet.
pub fn top<S: Source, K: Sink, D: Device>(
    alloc: Global,
    words: &[String],
    script: &mut S,
    out: &mut K,
    devs: &mut Vec<D>,
) -> Status
    requires devices { vec_len devs.old ≡ 16 }

    // What was read and written, by the status.
    ensures ends { Ends result (map string_bytes words.now)
        (S.left script.old) (S.left script.new) (K.written out.old) (K.written out.new)
        (AreTold D.File.bytes)
        (devices_seen D.faults D.told devs.old.items) (devices_seen D.faults D.told devs.new.items) }

    // Faults are told only where they came about, and everywhere there.
    ensures read_fault { result ≡ Status.ReadFault → Rose (S.faults script.old) (S.faults script.new) }
    ensures read_failed { S.faults script.old < S.faults script.new → result ≡ Status.ReadFault }
    ensures write_fault { result ≡ Status.WriteFault → Rose (K.faults out.old) (K.faults out.new) }
    ensures write_failed { K.faults out.old < K.faults out.new → result ≡ Status.WriteFault }

    // Other words leave the source alone.
    ensures alone { map string_bytes words.now ≢ run_words → script.new ≡ script.old }

    ensures devices { devs.new.items ≡ devs.old.items }
{
    if !words::are_run(words) {
        return send(out, USAGE, Status::Words);
    }
    let mut bytes = Vec::new(alloc);
    match read_up_to(script, &mut bytes, MOST) {
        Ok(_) => {}
        Err(DevNo::Failed) => return Status::ReadFault,
        Err(DevNo::Memory) => return Status::Memory,
    }
    match reply_to(alloc, bytes, &mut devs[0]) {
        Ok((status, text)) => send(out, &text, status),
        Err(AllocError) => Status::Memory,
    }
}

/// The text that the bytes of a script get, and the status that it goes with.
fn reply_to<D: Device>(
    alloc: Global,
    bytes: Vec<u8>,
    dev: &mut D,
) -> Result<(Status, Vec<u8>), AllocError>
    ensures reply { IfOk result (λ reply. Replies (AreTold D.File.bytes)
        (device_seen D.faults D.told dev.old) (device_seen D.faults D.told dev.new)
        bytes.items reply.0 reply.1.items) }
    ensures device { dev.new ≡ dev.old }
{
    match parse(alloc, &bytes, ScriptForm::Run) {
        Ok(script) => {
            // The run has no need of them.
            drop(bytes);
            reply_to_script(alloc, script, dev)
        }
        Err(ScriptNo::BadLine { line, why }) => {
            let text = refusal(alloc, line, why)?;
            Ok((Status::Script, text))
        }
        Err(ScriptNo::Memory) => Err(AllocError),
    }
}

/// The same of a script.
fn reply_to_script<D: Device>(
    alloc: Global,
    script: Script,
    dev: &mut D,
) -> Result<(Status, Vec<u8>), AllocError>
    ensures reply { IfOk result (λ reply. RepliesTo (AreTold D.File.bytes)
        (device_seen D.faults D.told dev.old) (device_seen D.faults D.told dev.new)
        script reply.0 reply.1.items) }
    ensures device { dev.new ≡ dev.old }
{
    match first_unbuilt(&script) {
        Some(line) => {
            let text = refusal(alloc, line, Why::Verb)?;
            Ok((Status::Script, text))
        }
        None => match run_script(alloc, script, dev) {
            Ok(history) => {
                let text = xdb_text::text(alloc, history.notes())?;
                Ok((Status::Done, text))
            }
            Err(RunNo::Memory) => Err(AllocError),
        },
    }
}

/// `line N: WHY`.
fn refusal(alloc: Global, line: u64, why: Why) -> Result<Vec<u8>, AllocError>
    ensures { IfOk result (λ text. text.items ≡ refusal_text (line, why)) }
{
    let mut text = b"line ".to_vec(alloc)?;
    text.extend_from_slice(Buffer::new().format(line).as_bytes())?;
    text.extend_from_slice(b": ")?;
    text.extend_from_slice(why_word(why))?;
    text.push(b'\n')?;
    Ok(text)
}

fn why_word(why: Why) -> &'static [u8]
    ensures { result.now ≡ why_word why }
{
    match why {
        Why::Long => b"long",
        Why::Spaces => b"spaces",
        Why::Who => b"who",
        Why::Verb => b"verb",
        Why::Shape => b"shape",
        Why::Token => b"token",
        Why::Length => b"length",
        Why::Name => b"name",
        Why::Number => b"number",
        Why::Range => b"range",
        Why::Table => b"table",
        Why::Order => b"order",
    }
}

/// Writes a text, and answers its status where it was written whole.
fn send<K: Sink>(out: &mut K, text: &[u8], status: Status) -> Status
    ensures sent { IsSent status text.now (K.written out.old) (K.written out.new) result }
    ensures fault { result ≡ Status.WriteFault → status ≢ Status.WriteFault → Rose (K.faults out.old) (K.faults out.new) }
    ensures failed { K.faults out.old < K.faults out.new → result ≡ Status.WriteFault }
{
    match write_all(out, text) {
        Ok(()) => status,
        Err(short) => match short.cause {
            DevNo::Failed => Status::WriteFault,
            DevNo::Memory => Status::Memory,
        },
    }
}
