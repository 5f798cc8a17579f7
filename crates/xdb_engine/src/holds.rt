//! Holds of versions, with the memory for what notes tell of them.
ghost use Rattle.std.specs.Prelude.{◌≡◌, [], ◌∷◌, Some, IfOk, IfSome, OnErr};
ghost use Rattle.xdb_vset.specs.Hold.{Hold};
ghost use Rattle.xdb_engine.specs.Holds.{HoldsCurrent, IsHoldIn, LetsGo, release_notes, taking_note};

use std::alloc::{AllocError, Global};
use std::marker::Model;
use xdb_device::FileRef;
use xdb_plain::{HoldNote, Items};
use xdb_vset::{HoldId, VersionSet};

/// A hold of a version, and what the note that lets go of it tells, so that this takes no memory.
#[derive(Drop)]
pub struct VersionHold {
    hold: HoldId,
    release: Items<HoldNote>,
}

impl Model for VersionHold {
    ghost use Rattle.std.specs.Prelude.{◌≡◌, [], ◌∷◌};
    ghost use Rattle.xdb_vset.specs.Hold.{Hold};
    ghost use Rattle.xdb_engine.specs.Holds.{release_note};

    ghost Value = { Hold };

    ghost view = { λ h. h.hold };

    ghost invariant = { λ h. h.release ≡ release_note h.hold ∷ [] };
}

/// Holds the current version. Beside it comes what the note of the step tells.
pub fn hold_current<F: FileRef>(
    alloc: Global,
    files: &mut VersionSet<F>,
) -> Result<(VersionHold, Items<HoldNote>), AllocError>
    ensures holds { IfOk result (λ taken. HoldsCurrent files.old files.new taken.0) }
    ensures note { IfOk result (λ taken. taken.1 ≡ taking_note taken.0 ∷ []) }
    ensures unchanged { OnErr result (files.new ≡ files.old) }
{
    // With the current version comes what holds of every set.
    let _current = files.current();
    let mut taking = Vec::with_capacity(alloc, 1)?;
    let mut release = Vec::with_capacity(alloc, 1)?;
    let ticket = files.ticket()?;
    let hold = files.hold(ticket);
    let (id, version) = (hold.id(), hold.version());
    taking.push_reserved(HoldNote::Hold { id, version });
    release.push_reserved(HoldNote::Release { id });
    let release = Items::new(release);
    Ok((VersionHold { hold, release }, Items::new(taking)))
}

/// Gives the hold back, if there is one, and answers what the note of the step tells. It takes no memory.
pub fn let_go<F: FileRef>(
    alloc: Global,
    files: &mut VersionSet<F>,
    hold: Option<VersionHold>,
) -> Items<HoldNote>
    requires { IfSome hold (IsHoldIn files.old) }
    ensures goes { LetsGo hold files.old files.new }
    ensures note { result ≡ release_notes hold }
{
    match hold {
        None => Items::new(Vec::new(alloc)),
        Some(VersionHold { hold, release }) => {
            files.release(hold);
            release
        }
    }
}
