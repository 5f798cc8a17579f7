//! Generated scripts: the script of a number of operations and a seed, for load.
#![tactic(auto)]

ghost use Rattle.std.specs.Prelude.{◌≡◌, IfOk, IsTrue};
ghost use Rattle.xdb_gen.specs.Generated.{generated};
ghost use Rattle.xdb_plain.specs.Scripts.{is_script};

mod commands;
mod draft;
mod draws;
pub mod laws;
pub mod rows;
mod rule;
#[cfg(test)]
mod tests;
mod words;

use draft::Draft;
pub use std::alloc::AllocError as Memory;
use std::alloc::{AllocError, Global};
use xdb_plain::Script;

/// The script of so many operations. Operations are numbered from 1, and each makes the lines of the first
/// rule that fits:
///
/// - a multiple of 500: `db seal`, `db flush`, `db compact auto`;
/// - a multiple of 700: a load that excises ten keys, around a seal and a flush;
/// - a multiple of 900: a snapshot, where the one of 900 operations before is dropped first;
/// - else a put (5 of 10), a delete, a range delete, a get (2 of 10) or a scan.
///
/// Keys are `k0000` to `k1049` (a snapshot has `k0000` to `k9999`). What is chosen comes from a linear
/// congruential generator modulo 2^32, which starts at the seed; its constants are those of Press et al.,
/// "Numerical Recipes", for quick generators, and a draw takes the upper 16 bits.
///
/// The script isn't bound by the size that a script in bytes may have. The only error is that an
/// allocation failed.
pub fn generate(alloc: Global, ops: u32, seed: u32) -> Result<Script, AllocError>
    ensures lines { IfOk result (λ script. script ≡ generated ops seed) }
    ensures script { IfOk result (λ script. IsTrue (is_script script)) }
{
    let mut draft = Draft::new(alloc, seed);
    for said in 0..ops {
        draft.say_operation(said + 1)?;
    }
    Ok(draft.into_script())
}
