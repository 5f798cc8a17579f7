//! The commands of a generated script, by the number of their operation and a number that was drawn.
ghost use Rattle.std.specs.Prelude.{◌≡◌, ◌<◌, [], ◌∷◌, IfOk};
ghost use Rattle.xdb_gen.specs.Commands.{command_by, put, del, del_span, get, scan, load_open, load_name, snap_name, key_range};

use crate::words::{key, key_range, load_name, snap_name, value};
use std::alloc::{AllocError, Global};
use xdb_key::{Op, Ops};
use xdb_plain::{Cmd, CommitForm, Items, Question};

/// The command of a kind below 10.
pub fn command_by(alloc: Global, kind: u32, operation: u32, drawn: u32) -> Result<Cmd, AllocError>
    requires { drawn < 1000 }
    ensures { IfOk result (λ cmd. cmd ≡ command_by kind operation drawn) }
{
    match kind {
        0..=4 => put(alloc, operation, drawn),
        5 => del(alloc, drawn),
        6 => del_span(alloc, drawn),
        7 | 8 => get(alloc, drawn),
        _ => scan(alloc, drawn),
    }
}

fn put(alloc: Global, operation: u32, drawn: u32) -> Result<Cmd, AllocError>
    ensures { IfOk result (λ cmd. cmd ≡ put operation drawn) }
{
    let key = key(alloc, drawn)?;
    let value = value(alloc, operation)?;
    commit(alloc, CommitForm::Put, Op::Set { key, value })
}

fn del(alloc: Global, drawn: u32) -> Result<Cmd, AllocError>
    ensures { IfOk result (λ cmd. cmd ≡ del drawn) }
{
    let key = key(alloc, drawn)?;
    commit(alloc, CommitForm::Del, Op::Del { key })
}

fn del_span(alloc: Global, drawn: u32) -> Result<Cmd, AllocError>
    requires { drawn < 1000 }
    ensures { IfOk result (λ cmd. cmd ≡ del_span drawn) }
{
    let range = key_range(alloc, drawn, drawn + 5)?;
    commit(alloc, CommitForm::DelSpan, Op::DelSpan { range })
}

fn commit(alloc: Global, form: CommitForm, op: Op) -> Result<Cmd, AllocError>
    ensures { IfOk result (λ cmd. cmd ≡ Cmd.Commit form (op ∷ [])) }
{
    let mut ops = Vec::with_capacity(alloc, 1)?;
    ops.push(op)?;
    let ops = Ops::new(ops);
    Ok(Cmd::Commit { form, ops })
}

fn get(alloc: Global, drawn: u32) -> Result<Cmd, AllocError>
    ensures { IfOk result (λ cmd. cmd ≡ get drawn) }
{
    let key = key(alloc, drawn)?;
    let question = Question::Get { key, at: None };
    Ok(Cmd::Ask {
        question,
        parted: false,
    })
}

fn scan(alloc: Global, drawn: u32) -> Result<Cmd, AllocError>
    requires { drawn < 1000 }
    ensures { IfOk result (λ cmd. cmd ≡ scan drawn) }
{
    let range = key_range(alloc, drawn, drawn + 50)?;
    let question = Question::Scan {
        range,
        most: 10,
        at: None,
    };
    Ok(Cmd::Ask {
        question,
        parted: false,
    })
}

/// Opens a load of no tables, which excises ten keys.
pub fn load_open(alloc: Global, operation: u32, drawn: u32) -> Result<Cmd, AllocError>
    requires { drawn < 1000 }
    ensures { IfOk result (λ cmd. cmd ≡ load_open operation drawn) }
{
    let load = load_name(alloc, operation)?;
    let span = key_range(alloc, drawn, drawn + 10)?;
    Ok(Cmd::Load {
        load,
        tables: Items::new(Vec::new(alloc)),
        span: Some(span),
    })
}

pub fn install(alloc: Global, operation: u32) -> Result<Cmd, AllocError>
    ensures { IfOk result (λ cmd. cmd ≡ Cmd.Install (load_name operation)) }
{
    let load = load_name(alloc, operation)?;
    Ok(Cmd::Install { load })
}

/// Makes a snapshot of the keys from `k0000` to `k9999`.
pub fn snap(alloc: Global, operation: u32) -> Result<Cmd, AllocError>
    ensures { IfOk result (λ cmd. cmd ≡ Cmd.Snap (snap_name operation) (key_range 0 9999 ∷ [])) }
{
    let name = snap_name(alloc, operation)?;
    let mut ranges = Vec::with_capacity(alloc, 1)?;
    ranges.push(key_range(alloc, 0, 9999)?)?;
    Ok(Cmd::Snap {
        name,
        ranges: Items::new(ranges),
    })
}

pub fn drop_snap(alloc: Global, operation: u32) -> Result<Cmd, AllocError>
    ensures { IfOk result (λ cmd. cmd ≡ Cmd.Drop (snap_name operation)) }
{
    let name = snap_name(alloc, operation)?;
    Ok(Cmd::Drop { name })
}
