use crate::{DevNo, Device, DirDevice, DirFile, FileRef, Reader, read_whole};
use std::fs;
use std::test::Fail;

type Folder = DirDevice<HostRuntime>;

// Reads a part that lies within the file.
fn read_part(
    dev: &mut Folder,
    file: &DirFile,
    off: u64,
    len: u32,
    out: &mut Vec<u8>,
) -> Result<(), DevNo> {
    if off > file.len() || u64::from(len) > file.len() - off {
        return Err(DevNo::Memory);
    }
    dev.read_at(file, off, len, out)
}

// A file in the place of a longer one, which is then shorter than it was when it was made.
fn replaces(dev: &mut Folder, out: &mut Vec<u8>) -> Result<bool, DevNo> {
    let old = dev.create(900_001, b"an older text")?;
    let file = dev.create(900_001, b"text")?.share()?;
    read_whole(dev, &file, out)?;
    read_part(dev, &file, 1, 2, out)?;
    Ok(old.len() == 13 && read_part(dev, &old, 3, 5, out) == Err(DevNo::Failed))
}

// A file that was removed, and is removed again.
fn misses(dev: &mut Folder, out: &mut Vec<u8>) -> Result<bool, DevNo> {
    let file = dev.create(900_001, b"text")?;
    dev.remove(900_001)?;
    let missing = read_part(dev, &file, 1, 2, out) == Err(DevNo::Failed);
    dev.remove(900_001)?;
    Ok(missing)
}

#[test]
fn files_of_a_folder(rt: HostRuntime) -> Result<(), Fail> {
    let mut dev = DirDevice::new(rt);
    let mut out = Vec::new(rt.alloc());
    let replaced = replaces(&mut dev, &mut out)?;
    let stands = fs::exists(&rt, "900001.xdb")?;
    let missing = misses(&mut dev, &mut out)?;
    let gone = !fs::exists(&rt, "900001.xdb")?;
    assert!(rt; replaced && stands && missing && gone && out.as_slice() == b"textex".as_slice());
    Ok(())
}
