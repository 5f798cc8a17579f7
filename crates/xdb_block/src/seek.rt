//! The search for a place by an internal key.
ghost use Rattle.std.specs.Prelude.{◌≡◌, ◌<◌, None, All, length, slice_range, slice_index_or};
ghost use Rattle.std.specs.List.{prefix_len};
ghost use Rattle.xdb_block.specs.Kept.{keys_of, HasKey};
ghost use Rattle.xdb_block.specs.Rows.{is_before, Rise};

use crate::internal::is_before;
use crate::place::Place;

/// How many keys stand before the one of the user key and the trailer, by binary search.
pub fn place_from(places: &[Place], keys: &[u8], user: &[u8], trailer: u128) -> usize
    requires lie { All (HasKey (length keys.now)) places.now }
    requires rise { Rise None (keys_of keys.now places.now) }
    ensures { result ≡ prefix_len (is_before user.now trailer) (keys_of keys.now places.now) }
{
    let mut low = 0;
    let mut high = places.len();
    while low < high {
        let middle = low + (high - low) / 2;
        let place = places[middle];
        if is_before(&keys[place.key..place.key_end], user, trailer) {
            low = middle + 1;
        } else {
            high = middle;
        }
    }
    low
}
