ghost use Rattle.std.specs.Prelude.{◌≡◌, IfOk};
ghost use Rattle.std.specs.List.Sorted.{IsNonDecreasing};
ghost use Rattle.xdb_key.specs.InOrder.{AreInOrder};
ghost use Rattle.xdb_rangedel.specs.Members.{SameMembers};
ghost use Rattle.xdb_rangedel.specs.Pieces.{AreFragments};
ghost use Rattle.xdb_rangedel.specs.Content.{content_of};
ghost use Rattle.xdb_stripes.specs.Thinned.{thinned, staying_entries, staying_spans};

use crate::floor::Floor;
use crate::{entries, floor, spans as fragments};
use std::alloc::{AllocError, Global};
use xdb_key::Entry;
use xdb_rangedel::Fragments;

/// Leaves out what no reader at a stripe or above all numbers can see, and deletes that hide
/// nothing.
///
/// Stripes are numbers that content is still looked at below; they cut all numbers into
/// intervals. Of the entries of one key in one stripe the newest stays, unless a newer span of
/// the stripe holds the key; of the spans over one piece in one stripe the newest stays; and
/// below all stripes a delete stays only where the floor holds its key, and a span only where it
/// meets the floor. As in LevelDB and Pebble, whose compactions drop what no snapshot sees. Each
/// rule is asked of all that was given, also of what another takes out.
///
/// Takes O(n log n) steps for n entries, spans and floor ranges; the stripes cost a logarithm for
/// each. An error means that an allocation failed.
pub fn thin(
    alloc: Global,
    entries: &[Entry],
    spans: &Fragments,
    stripes: &[u64],
    floor: &Floor,
) -> Result<(Vec<Entry>, Fragments), AllocError>
    requires order { AreInOrder entries.now }
    requires rising { IsNonDecreasing stripes.now }
    ensures entries { IfOk result (λ left. left.0.items
        ≡ staying_entries entries.now spans.now stripes.now floor.now) }
    ensures spans { IfOk result (λ left. left.1
        ≡ staying_spans entries.now spans.now stripes.now floor.now) }
    ensures content { IfOk result (λ left. SameMembers (content_of left.0.items left.1)
        (thinned (content_of entries.now spans.now) stripes.now floor.now)) }
    ensures order { IfOk result (λ left. AreInOrder left.0.items) }
    ensures fragments { IfOk result (λ left. AreFragments left.1) }
{
    // That the spans are fragments comes with their list.
    let _spans = spans.list();
    let floor = floor::index(alloc, floor)?;
    let left = entries::staying(alloc, entries, spans, stripes, &floor)?;
    let over = fragments::staying(alloc, spans, stripes, &floor)?;
    Ok((left, over))
}
