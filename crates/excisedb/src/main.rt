//! A log-structured merge storage engine with ingest-and-excise, driven by scripts.
#![tactic(auto)]

mod devices;
mod laws;
mod shell;
mod status;
#[cfg(test)]
mod tests;
mod top;
mod words;

use shell::exit_code;
use std::env;
use std::process::ExitCode;
use xdb_device::{StdSink, StdSource};

fn main(rt: HostRuntime) -> ExitCode {
    let mut script = StdSource::new(rt.stdin());
    let mut out = StdSink::new(rt.stdout());
    let mut devs = devices::of_folder(rt);
    exit_code(rt.alloc(), env::args(&rt), &mut script, &mut out, &mut devs)
}
