ghost use Rattle.std.specs.Prelude.{◌≡◌, ◌+◌, ◌*◌, ◌<◌, ◌≤◌, ℕ, List, Ok, None, length, map, IfOk};
ghost use Rattle.xdb_block.specs.Reading.{Answers, block_at};
ghost use Rattle.xdb_block.specs.Rows.{Row, Rise, keys_len, nth, place_from};
ghost use Rattle.xdb_block.specs.Spelling.{IsBlock, block_bytes};

use crate::place::Place;
use crate::rows::read_block;
use crate::seek::place_from;
use crate::{BlockKind, BlockNo, INTERVAL};
use std::marker::Model;
use xdb_key::Key;

/// A block that was read: its rows in order, from place 0 on.
#[derive(Drop)]
pub struct Block {
    bytes: Vec<u8>,
    /// The whole keys, one behind the other.
    keys: Vec<u8>,
    places: Vec<Place>,
}

impl Model for Block {
    ghost use Rattle.std.specs.Prelude.{List};
    ghost use Rattle.xdb_block.specs.Kept.{rows_of, IsKept};
    ghost use Rattle.xdb_block.specs.Rows.{Row};

    ghost Value = { List Row };

    ghost view = { λ b. rows_of b.keys.items b.bytes.items b.places.items };

    ghost invariant = { λ b. IsKept b.keys.items b.bytes.items b.places.items };
}

impl Block {
    /// Reads a block of the kind, with a restart at each 16th entry. The block keeps the bytes, its whole
    /// keys, which may be 16 times as many bytes, and a place for each row.
    pub fn parse(bytes: Vec<u8>, kind: BlockKind) -> Result<Self, BlockNo>
        // What is read is spelled so.
        ensures found { IfOk result (λ rows. IsBlock 16 kind rows × (bytes.items ≡ block_bytes 16 rows)) }
        // What is spelled so is read, unless memory runs out.
        ensures only { (rows : List Row) → IsBlock 16 kind rows → bytes.items ≡ block_bytes 16 rows → Answers (λ x. x) result (Ok rows) }
        // The refusal is the first defect.
        ensures exact { Answers (λ x. x) result (block_at 16 kind bytes.items) }
        // Whole keys are at most 16 times as many bytes as the block.
        ensures keys { IfOk result (λ rows. keys_len rows ≤ 16 * length bytes.items) }
    {
        let rows = read_block(*bytes.allocator(), INTERVAL, kind, &bytes)?;
        Ok(Block {
            bytes,
            keys: rows.keys,
            places: rows.places,
        })
    }

    /// How many rows there are.
    pub fn len(&self) -> usize
        ensures len { result ≡ length self.now }
        ensures rise { Rise None (map (λ r. r.key) self.now) }
    {
        self.places.len()
    }

    /// How many bytes of keys it keeps.
    pub fn keys_len(&self) -> usize
        ensures len { result ≡ keys_len self.now }
        ensures bound { result ≤ 16 * length (block_bytes 16 self.now) }
    {
        self.keys.len()
    }

    /// The internal key at a place.
    pub fn key(&self, i: usize) -> &[u8]
        requires { i < length self.now }
        ensures { result.now ≡ (nth self.now i).key }
    {
        let place = self.places[i];
        &self.keys[place.key..place.key_end]
    }

    /// What stands behind the internal key at a place.
    pub fn value(&self, i: usize) -> &[u8]
        requires { i < length self.now }
        ensures { result.now ≡ (nth self.now i).value }
    {
        let place = self.places[i];
        &self.bytes[place.value..place.end]
    }

    /// The least place whose internal key isn't before that of the user key, the number and the kind 255,
    /// by binary search. At the user key, these are the numbers up to `seq`.
    pub fn seek_ge(&self, key: &Key, seq: u64) -> usize
        ensures { result ≡ place_from key.now (seq * 256 + 255) self.now }
    {
        let trailer = u128::from(seq) * 256 + 255;
        place_from(&self.places, &self.keys, key.bytes(), trailer)
    }
}
