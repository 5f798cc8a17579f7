//! The words after the program's name.
ghost use Rattle.std.specs.Prelude.{◌≡◌, ◌↔◌, IsTrue, IsErr, IsOk, IfOk, drop, map, string_bytes, codes};
ghost use Rattle.std.specs.Vec.Iter.{into_iter_items};
ghost use Rattle.excisedb.specs.Ends.{run_words};
ghost use Rattle.excisedb.specs.Words.{words_of, ArentText, LacksMemory};

use std::alloc::{AllocError, Global};
use std::env::Args;
use std::io;
use std::io::ErrorKind;

/// The words behind the program's name, and no words where they aren't text.
pub fn given(alloc: Global, args: io::Result<Args>) -> Result<Vec<String>, AllocError>
    ensures words { IfOk result (λ words. map string_bytes words.items ≡ words_of args) }
    ensures memory { LacksMemory args → IsErr result }
    ensures no_text { ArentText args → IsOk result }
{
    match args {
        Ok(args) => behind_name(alloc, args),
        Err(error) if error.kind() == ErrorKind::OutOfMemory => Err(AllocError),
        Err(_) => Ok(Vec::new(alloc)),
    }
}

fn behind_name(alloc: Global, args: Args) -> Result<Vec<String>, AllocError>
    ensures words { IfOk result (λ words. words.items ≡ drop 1 (into_iter_items args)) }
{
    args.skip(1).collect(alloc)
}

/// Whether the words are the one command.
pub fn are_run(words: &[String]) -> bool
    ensures { IsTrue result ↔ (map string_bytes words.now ≡ run_words) }
{
    match words {
        [word] => is_run(word.as_bytes()),
        _ => false,
    }
}

fn is_run(word: &[u8]) -> bool
    ensures { IsTrue result ↔ (word.now ≡ codes "run") }
{
    word == b"run".as_slice()
}
