use crate::{
    DevNo, Device, DirDevice, FaultBook, FaultShare, FileRef, MemDevice, Reader, SureDevice,
    WorkCause, WorkFault, read_whole,
};
use std::alloc::{AllocError, Global};
use std::marker::Brand;
use std::sync::ledger::Ledger;
use std::test::Fail;

// What the calls on a file of five bytes answer, where the second and fourth call of these fail.
fn reads_are(dev: &mut MemDevice, out: &mut Vec<u8>) -> Result<bool, DevNo> {
    let file = dev.create(7, b"seven")?;
    Ok(
        dev.create(8, b"eight").is_err()
            && file.len() == 5
            && read_in(dev, &file, out) == Ok(())
            && read_in(dev, &file, out) == Err(DevNo::Failed)
            && out.as_slice() == b"eve".as_slice(),
    )
}

fn read_in<D: Device>(dev: &mut D, file: &D::File, out: &mut Vec<u8>) -> Result<(), DevNo> {
    if file.len() < 4 {
        return Ok(());
    }
    dev.read_at(file, 1, 3, out)
}

fn removals_are(dev: &mut MemDevice) -> bool {
    dev.remove(9) == Ok(())
        && dev.remove(7) == Err(DevNo::Failed)
        && dev.remove(7) == Ok(())
        && dev.created() == [7, 8].as_slice()
        && dev.removed() == [9, 7].as_slice()
        && dev.calls() == 7
}

#[test]
fn the_calls_that_are_named_fail_and_no_others(rt: HostRuntime) -> Result<(), Fail> {
    let mut out = Vec::new(rt.alloc());
    let mut dev = MemDevice::new(rt.alloc(), [2, 4, 6].to_vec(rt.alloc())?);
    let right = reads_are(&mut dev, &mut out)? && removals_are(&mut dev);
    assert!(rt; right);
    Ok(())
}

// Makes a file, reads it through a share of it, and removes it.
fn round<D: Device>(dev: &mut D, bytes: &[u8], out: &mut Vec<u8>) -> Result<bool, DevNo> {
    let shared = share_of(dev.create(3, bytes)?)?;
    read_whole(dev, &shared, out)?;
    dev.remove(3)?;
    Ok(out.as_slice() == bytes)
}

fn share_of<F: FileRef>(file: F) -> Result<F, AllocError> {
    file.share()
}

#[test]
fn a_device_that_never_fails(rt: HostRuntime) -> Result<(), Fail> {
    let mut out = Vec::new(rt.alloc());
    let right = round(&mut SureDevice::new(rt.alloc()), b"three", &mut out)?;
    assert!(rt; right);
    Ok(())
}

// Whether a file of this length is made, read and removed by so many calls.
fn calls_are(alloc: Global, len: usize, calls: u64) -> Result<bool, DevNo> {
    let mut dev = MemDevice::new(alloc, Vec::new(alloc));
    let bytes = vec![in alloc; 7; len]?;
    let mut out = Vec::new(alloc);
    Ok(round(&mut dev, &bytes, &mut out)? && dev.calls() == calls)
}

#[test]
fn a_piece_has_at_most_65_536_bytes(rt: HostRuntime) -> Result<(), Fail> {
    for (len, calls) in [(0, 2), (1, 3), (65_536, 3), (65_537, 4), (131_073, 5)] {
        let right = calls_are(rt.alloc(), len, calls)?;
        assert!(rt; right);
    }
    Ok(())
}

// Makes, reads and removes files, each under a number of its own.
fn many_rounds(dev: &mut MemDevice, rounds: u64, out: &mut Vec<u8>) -> Result<(), DevNo> {
    for num in 0..rounds {
        let file = dev.create(num, b"file")?;
        out.clear();
        read_whole(dev, &file, out)?;
        dev.remove(num)?;
    }
    Ok(())
}

#[test]
fn four_thousand_files(rt: HostRuntime) -> Result<(), Fail> {
    let mut out = Vec::new(rt.alloc());
    let mut dev = MemDevice::new(rt.alloc(), Vec::new(rt.alloc()));
    many_rounds(&mut dev, 4_000, &mut out)?;
    let right = dev.calls() == 12_000
        && dev.created().len() == 4_000
        && dev.removed().len() == 4_000
        && out.as_slice() == b"file".as_slice();
    assert!(rt; right);
    Ok(())
}

#[test]
fn work_names_its_cause(rt: HostRuntime) {
    assert!(rt; WorkCause::from(DevNo::Failed) == WorkCause::Fault);
    assert!(rt; WorkCause::from(DevNo::Memory) == WorkCause::Memory);
}

// What a worker takes with it into its thread.
fn crosses<T: Send>() {}

fn all_cross<L: Ledger + Send + Sync>() {
    crosses::<MemDevice>();
    crosses::<SureDevice>();
    crosses::<DirDevice<HostRuntime>>();
    crosses::<FaultBook<L>>();
    crosses::<FaultShare<L>>();
    crosses::<WorkFault>();
}

#[test]
fn devices_and_shares_cross_threads() {
    all_cross::<Brand>();
}
