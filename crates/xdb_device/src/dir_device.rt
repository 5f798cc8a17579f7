// A device that keeps its files in the current folder.
ghost use Rattle.std.specs.Prelude.{◌≡◌, ◌+◌, ◌≤◌, ◌++◌, length, vec_len, codes, string_bytes, IfOk, OnOk, OnErr};
ghost use Rattle.std.specs.Fmt.{decimal};
ghost use Rattle.xdb_device.specs.DirFile.{dir_num, dir_size};
ghost use Rattle.xdb_device.specs.Faults.{raised, raised_by};
ghost use Rattle.xdb_device.specs.Streams.{Grew};

use crate::{DevNo, Device, FileRef, Reader};
use std::alloc::{AllocError, Global};
use std::io::{ErrorKind, Read, Seek, SeekFrom};
use std::marker::Model;
use std::rt::Files;
use std::{fs, io};

/// A file of a folder, by its number. It tells no bytes.
#[derive(Debug, Drop)]
pub struct DirFile {
    num: u64,
    len: u64,
}

impl FileRef for DirFile {
    ghost use Rattle.std.specs.Prelude.{None};
    ghost use Rattle.xdb_device.specs.DirFile.{dir_size, no_told_size};

    ghost size = { dir_size };

    ghost bytes = { λ _. None };

    fn share(&self) -> Result<Self, AllocError>
        ensures { IfOk result (λ file. file ≡ self.now) }
    {
        Ok(DirFile {
            num: self.num,
            len: self.len,
        })
    }

    fn len(&self) -> u64 {
        self.len
    }

    ghost told_size = { λ file told same. no_told_size (dir_size file) told same };
}

// The name of the file that has the number.
fn file_name(alloc: Global, num: u64) -> Result<String, AllocError>
    ensures { IfOk result (λ name. string_bytes name ≡ decimal num ++ codes ".xdb") }
{
    format!(in alloc; "{num}.xdb")
}

// Bytes of a file, all that are asked for.
fn read_part<R: Files + AllocGlobal>(rt: &R, num: u64, off: u64, len: u32) -> io::Result<Vec<u8>>
    ensures { IfOk result (λ part. vec_len part ≡ len) }
{
    let name = file_name(rt.alloc(), num)?;
    let mut file = fs::open(rt, name.as_str())?;
    file.seek(SeekFrom::Start(off))?;
    let mut part = vec![in rt.alloc(); 0; len as usize]?;
    file.read_exact(&mut part)?;
    Ok(part)
}

// Makes a file with these bytes, in the place of an old one.
fn write_file<R: Files + AllocGlobal>(rt: &R, num: u64, bytes: &[u8]) -> io::Result<()> {
    let name = file_name(rt.alloc(), num)?;
    fs::write(rt, name.as_str(), bytes)
}

// Removes a file, if it is there.
fn remove_file<R: Files + AllocGlobal>(rt: &R, num: u64) -> io::Result<()> {
    let name = file_name(rt.alloc(), num)?;
    match fs::remove_file(rt, name.as_str()) {
        Err(error) if error.kind() == ErrorKind::NotFound => Ok(()),
        answer => answer,
    }
}

/// A device whose file n is `n.xdb` in the current folder. It opens the file at each call, replaces
/// an old one of that name, and tells nothing.
#[derive(Drop)]
pub struct DirDevice<R> {
    rt: R,
    faults: u64,
}

impl<R> Model for DirDevice<R> {
    ghost use Rattle.std.specs.Prelude.{ℕ};

    ghost Value = { ℕ };

    ghost view = { λ d. d.faults };
}

impl<R> DirDevice<R> {
    ghost use Rattle.std.specs.Prelude.{◌≡◌};

    pub fn new(rt: R) -> Self
        ensures { result ≡ 0 }
    {
        DirDevice { rt, faults: 0 }
    }
}

// Counts a failure, unless memory was wanting.
fn cause_of(faults: &mut u64, error: &io::Error) -> DevNo
    ensures { faults.new ≡ raised_by result faults.old }
{
    if error.kind() == ErrorKind::OutOfMemory {
        return DevNo::Memory;
    }
    *faults = faults.saturating_add(1);
    DevNo::Failed
}

impl<R: Files + AllocGlobal> Reader for DirDevice<R> {
    ghost use Rattle.std.specs.Prelude.{[]};
    ghost use Rattle.xdb_device.specs.Told.{nothing_told};

    type File = DirFile;

    ghost faults = { λ d. d };

    ghost misses = { λ d. d };

    ghost frame = { λ _. [] };

    ghost told = { λ _. nothing_told };

    ghost told_beside = { λ d none. none };

    fn read_at(
        &mut self,
        file: &DirFile,
        off: u64,
        len: u32,
        out: &mut Vec<u8>,
    ) -> Result<(), DevNo>
        requires { off + len ≤ dir_size file.now }
        ensures counted { self.new ≡ raised result self.old }
        ensures grew { OnOk result (Grew len out.old.items out.new.items) }
        ensures err { OnErr result (out.new.items ≡ out.old.items) }
    {
        match read_part(&self.rt, file.num, off, len) {
            Ok(part) => Ok(out.extend_from_slice(&part)?),
            Err(error) => Err(cause_of(&mut self.faults, &error)),
        }
    }
}

impl<R: Files + AllocGlobal> Device for DirDevice<R> {
    fn create(&mut self, num: u64, bytes: &[u8]) -> Result<DirFile, DevNo>
        ensures counted { self.new ≡ raised result self.old }
        ensures num { IfOk result (λ file. dir_num file ≡ num) }
        ensures size { IfOk result (λ file. dir_size file ≡ length bytes.now) }
    {
        match write_file(&self.rt, num, bytes) {
            Ok(()) => Ok(DirFile {
                num,
                len: bytes.len() as u64,
            }),
            Err(error) => Err(cause_of(&mut self.faults, &error)),
        }
    }

    fn remove(&mut self, num: u64) -> Result<(), DevNo>
        ensures counted { self.new ≡ raised result self.old }
    {
        match remove_file(&self.rt, num) {
            Ok(()) => Ok(()),
            Err(error) => Err(cause_of(&mut self.faults, &error)),
        }
    }
}
