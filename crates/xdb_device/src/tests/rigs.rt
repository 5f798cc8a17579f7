ghost use Rattle.std.specs.Prelude.{◌≡◌, ◌≤◌, IsErrOf};
ghost use Rattle.xdb_device.specs.Counted.{Counted};
ghost use Rattle.xdb_device.specs.Faults.{Rose};
ghost use Rattle.xdb_device.specs.Told.{Removed};

use crate::{DevNo, Device, FaultBook, FaultShare, MemDevice, Reader, Rig, SureDevice, read_whole};
use std::alloc::Global;
use std::marker::Brand;
use std::process::Abort;
use std::sync::ledger::{Blank, Ledger};
use std::test::Fail;

// Work that knows nothing of rigs.
fn clear<D: Device>(dev: &mut D, num: u64) -> Result<(), DevNo>
    ensures counted { Counted D.faults D.misses D.frame dev.old dev.new (IsErrOf result DevNo.Failed) }
    ensures told { Removed num result (D.told dev.old) (D.told dev.new) }
{
    dev.remove(num)
}

// What such work does through a rig is known of the device after it.
fn clear_through<D: Device, L: Ledger>(
    dev: &mut D,
    share: FaultShare<L>,
    num: u64,
) -> (Result<(), DevNo>, FaultShare<L>)
    requires { share ≡ 0 }
    ensures later { D.faults dev.old ≤ D.faults dev.new }
    ensures failed { IsErrOf result.0 DevNo.Failed → Rose (D.faults dev.old) (D.faults dev.new) }
    ensures frame { D.frame dev.new ≡ D.frame dev.old }
    ensures told { Removed num result.0 (D.told dev.old) (D.told dev.new) }
    ensures amount { result.1 ≡ 0 }
{
    let mut rig = Rig::new(dev, share);
    let answer = clear(&mut rig, num);
    (answer, rig.into_share())
}

// A reader that knows nothing of rigs.
fn length_read<R: Reader>(reader: &mut R, file: &R::File, alloc: Global) -> Result<usize, DevNo> {
    let mut out = Vec::new(alloc);
    read_whole(reader, file, &mut out)?;
    Ok(out.len())
}

// The calls 2 and 4 fail: the first through one rig, the second through a rig over it.
fn fail_twice<L: Ledger>(
    rt: &impl Abort,
    alloc: Global,
    book: &mut FaultBook<L>,
    first: FaultShare<L>,
    second: FaultShare<L>,
) -> Result<Vec<FaultShare<L>>, Fail>
    requires first { first ≡ 0 }
    requires second { second ≡ 0 }
{
    let mut dev = MemDevice::new(alloc, [2, 4].to_vec(alloc)?);
    let mut rig = Rig::new(&mut dev, first);
    let file = rig.create(7, b"seven")?;
    assert!(rt; length_read(&mut rig, &file, alloc) == Err(DevNo::Failed));
    assert!(rt; rig.risen() == 1);
    assert!(rt; rig.spent() == 0);
    book.charge(&mut rig);
    assert!(rt; rig.spent() == 1);

    let mut outer = Rig::new(&mut rig, second);
    assert!(rt; length_read(&mut outer, &file, alloc) == Ok(5));
    assert!(rt; outer.remove(7) == Err(DevNo::Failed));
    assert!(rt; outer.risen() == 1);
    assert!(rt; outer.spent() == 0);
    book.charge(&mut outer);
    assert!(rt; outer.removal().copied() == Some((7, Err(DevNo::Failed))));
    let second = outer.into_share();

    assert!(rt; rig.risen() == 2);
    assert!(rt; rig.remove(7) == Ok(()));
    assert!(rt; rig.removal().copied() == Some((7, Ok(()))));
    let mut shares = Vec::new(alloc);
    shares.push(rig.into_share())?;
    shares.push(second)?;
    assert!(rt; dev.calls() == 5);
    Ok(shares)
}

fn run<L: Ledger>(rt: &impl Abort, alloc: Global, blank: Blank) -> Result<(), Fail>
    requires name { blank.name ≡ L.name }
    requires parts { blank.parts ≡ L.parts }
    requires two { blank.parts ≡ 2 }
{
    let (mut book, mut shares) = FaultBook::<L>::split(alloc, blank, 2)?;
    if let (Some(first), Some(second)) = (shares.pop(), shares.pop()) {
        let (answer, first) = clear_through(&mut SureDevice::new(alloc), first, 7);
        assert!(rt; answer == Ok(()));
        let shares = fail_twice(rt, alloc, &mut book, first, second)?;
        assert!(rt; shares.len() == 2);
        book.sum(shares);
    }
    Ok(())
}

#[test]
fn failures_are_booked_through_two_rigs(rt: HostRuntime) -> Result<(), Fail> {
    run::<Brand>(&rt, rt.alloc(), Blank::new(2))
}
