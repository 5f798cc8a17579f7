use crate::{Block, BlockKind, BlockNo, BlockWriter, key_parts};
use std::alloc::Global;
use std::test::Fail;
use xdb_key::Key;

/// The entries of a at 2 set to 2, and of a at 1 set to 1, which shares two bytes.
const ENTRIES: [u8; 24] = *b"\0\x09\x01a\x01\x02\0\0\0\0\0\x002\x02\x07\x01\x01\0\0\0\0\0\x001";

/// The same as a block.
const BLOCK: [u8; 32] =
    *b"\0\x09\x01a\x01\x02\0\0\0\0\0\x002\x02\x07\x01\x01\0\0\0\0\0\x001\0\0\0\0\x01\0\0\0";

fn key(alloc: Global, text: &[u8]) -> Result<Key, Fail> {
    Ok(Key::new(text.to_vec(alloc)?)?)
}

/// An internal key.
fn internal(alloc: Global, user: &[u8], seq: u64, kind: u8) -> Result<Vec<u8>, Fail> {
    let mut bytes = user.to_vec(alloc)?;
    bytes.push(kind)?;
    bytes.extend_from_slice(&seq.to_le_bytes()[..7])?;
    Ok(bytes)
}

/// Entries with restart offsets.
fn with_offsets(alloc: Global, entries: &[u8], offsets: &[u32]) -> Result<Vec<u8>, Fail> {
    let mut bytes = entries.to_vec(alloc)?;
    let mut count = 0u32;
    for offset in offsets {
        bytes.extend_from_slice(&offset.to_le_bytes())?;
        count = count.wrapping_add(1);
    }
    bytes.extend_from_slice(&count.to_le_bytes())?;
    Ok(bytes)
}

/// The rows of a block, written.
fn written(alloc: Global, block: &Block) -> Result<Vec<u8>, Fail> {
    let mut writer = BlockWriter::new(alloc, 16);
    for i in 0..block.len() {
        writer.add(block.key(i), block.value(i))?;
    }
    Ok(writer.finish()?)
}

/// Why the bytes are refused. Bytes that aren't are just what their rows are written as.
fn defect(alloc: Global, bytes: &[u8], kind: BlockKind) -> Result<Option<BlockNo>, Fail> {
    match Block::parse(bytes.to_vec(alloc)?, kind) {
        Err(no) => Ok(Some(no)),
        Ok(block) if written(alloc, &block)?.as_slice() == bytes => Ok(None),
        Ok(_) => Err(Fail::from("the bytes differ")),
    }
}

/// Adds a set.
fn add(
    alloc: Global,
    writer: &mut BlockWriter,
    user: &[u8],
    seq: u64,
    value: &[u8],
) -> Result<(), Fail> {
    let key = internal(alloc, user, seq, 1)?;
    Ok(writer.add(&key, value)?)
}

fn two_points(alloc: Global) -> Result<BlockWriter, Fail> {
    let mut writer = BlockWriter::new(alloc, 16);
    for (seq, value) in [(2, b"2"), (1, b"1")] {
        add(alloc, &mut writer, b"a", seq, value)?;
    }
    Ok(writer)
}

fn has_two_points(writer: &BlockWriter) -> bool {
    writer.count() == 2
        && writer.entries_len() == 24
        && writer.block_len() == Ok(32)
        && !writer.is_full()
        && writer.last_key() == b"a\x01\x01\0\0\0\0\0\0".as_slice()
}

#[test]
fn two_points_of_one_key(rt: HostRuntime) -> Result<(), Fail> {
    let writer = two_points(rt.alloc())?;
    assert!(rt; has_two_points(&writer));
    Ok(())
}

#[test]
fn two_points_as_a_block(rt: HostRuntime) -> Result<(), Fail> {
    let bytes = two_points(rt.alloc())?.finish()?;
    assert!(rt; bytes.as_slice() == BLOCK.as_slice());
    Ok(())
}

#[test]
fn two_points_behind_others(rt: HostRuntime) -> Result<(), Fail> {
    let mut out = Vec::new(rt.alloc());
    let len = two_points(rt.alloc())?.put(&mut out)?;
    assert!(rt; len == 32 && out.as_slice() == BLOCK.as_slice());
    Ok(())
}

/// Whether the search for the user key at the number finds the place.
fn is_found(
    alloc: Global,
    block: &Block,
    user: &[u8],
    seq: u64,
    place: usize,
) -> Result<bool, Fail> {
    let key = key(alloc, user)?;
    Ok(block.seek_ge(&key, seq) == place)
}

fn finds_two_points(alloc: Global, block: &Block) -> Result<bool, Fail> {
    let rows: [(&[u8], u64, usize); 7] = [
        (b"Z", 0, 0),
        (b"a", u64::MAX, 0),
        (b"a", 2, 0),
        (b"a", 1, 1),
        (b"a", 0, 2),
        (b"a\0", 9, 2),
        (b"b", 9, 2),
    ];
    for (user, seq, place) in rows {
        if !is_found(alloc, block, user, seq, place)? {
            return Ok(false);
        }
    }
    Ok(has_two_rows(block))
}

fn has_two_rows(block: &Block) -> bool {
    if block.len() != 2 {
        return false;
    }
    let (user, trailer) = key_parts(block.key(1));
    user == b"a".as_slice()
        && trailer == 257
        && block.key(1) == b"a\x01\x01\0\0\0\0\0\0".as_slice()
        && block.value(0) == b"2".as_slice()
}

#[test]
fn points_are_found_by_key_and_number(rt: HostRuntime) -> Result<(), Fail> {
    let alloc = rt.alloc();
    let block = Block::parse(BLOCK.to_vec(rt.alloc())?, BlockKind::Point)?;
    let found = finds_two_points(alloc, &block)?;
    assert!(rt; found);
    Ok(())
}

/// Ten user keys of four points each.
fn forty_points(alloc: Global) -> Result<BlockWriter, Fail> {
    let mut writer = BlockWriter::new(alloc, 16);
    for i in 0..40u8 {
        let user = [b'k', b'e', b'y', b'0' + i / 4];
        add(alloc, &mut writer, &user, 9 - u64::from(i % 4), &[i])?;
    }
    Ok(writer)
}

fn has_forty_points(alloc: Global, block: &Block) -> Result<bool, Fail> {
    for i in 0..40u8 {
        let user = [b'k', b'e', b'y', b'0' + i / 4];
        if !stands_at(alloc, block, &user, 9 - u64::from(i % 4), usize::from(i))? {
            return Ok(false);
        }
    }
    Ok(block.len() == 40 && block.keys_len() == 40 * 12)
}

/// Whether the set of the user key at the number stands at the place, and is found there.
fn stands_at(
    alloc: Global,
    block: &Block,
    user: &[u8],
    seq: u64,
    place: usize,
) -> Result<bool, Fail> {
    Ok(is_found(alloc, block, user, seq, place)? && has_key(alloc, block, user, seq, place)?)
}

fn has_key(
    alloc: Global,
    block: &Block,
    user: &[u8],
    seq: u64,
    place: usize,
) -> Result<bool, Fail> {
    let key = internal(alloc, user, seq, 1)?;
    Ok(place < block.len() && block.key(place) == key.as_slice())
}

#[test]
fn prefixes_shared_into_the_trailer(rt: HostRuntime) -> Result<(), Fail> {
    let alloc = rt.alloc();
    let bytes = forty_points(rt.alloc())?.finish()?;
    // Of 40 entries 3 are restarts of 3 + 12 + 1 bytes. Of the others 7 have a new user key and share 3
    // bytes, and 30 share its 4 bytes and the kind: 3 + 9 + 1 and 3 + 7 + 1 bytes.
    assert!(rt; bytes.len() == 3 * 16 + 7 * 13 + 30 * 11 + 4 * 4);
    let block = Block::parse(bytes, BlockKind::Point)?;
    let found = has_forty_points(alloc, &block)?;
    assert!(rt; found);
    Ok(())
}

/// A user key of three letters.
fn user_key(i: usize) -> [u8; 3] {
    let letter = |n: usize| b'a' + (n % 26) as u8;
    [letter(i / 676), letter(i / 26), letter(i)]
}

fn many_points(alloc: Global) -> Result<BlockWriter, Fail> {
    let mut writer = BlockWriter::new(alloc, 16);
    for i in 0..5000 {
        add(alloc, &mut writer, &user_key(i), 7, b"value")?;
    }
    Ok(writer)
}

fn has_many_points(alloc: Global, block: &Block) -> Result<bool, Fail> {
    for i in 0..5000 {
        if !stands_at(alloc, block, &user_key(i), 7, i)? {
            return Ok(false);
        }
    }
    Ok(block.len() == 5000 && block.keys_len() == 5000 * 11)
}

/// Each point is written and found again.
#[test]
fn thousands_of_points(rt: HostRuntime) -> Result<(), Fail> {
    let alloc = rt.alloc();
    let bytes = many_points(rt.alloc())?.finish()?;
    let block = Block::parse(bytes, BlockKind::Point)?;
    let found = has_many_points(alloc, &block)?;
    assert!(rt; found);
    Ok(())
}

fn long_point(alloc: Global) -> Result<BlockWriter, Fail> {
    let mut writer = BlockWriter::new(alloc, 16);
    let value = vec![in alloc; b'v'; 65_536]?;
    add(alloc, &mut writer, b"a", 1, &value)?;
    Ok(writer)
}

/// The longest value that an operation may have. A block has no limit of its own for it.
#[test]
fn a_value_of_65536_bytes(rt: HostRuntime) -> Result<(), Fail> {
    let bytes = long_point(rt.alloc())?.finish()?;
    // Lengths of 1, 1 and 3 bytes, a key of 9, the value, and a restart part of 8.
    assert!(rt; bytes.len() == 5 + 9 + 65_536 + 8);
    let block = Block::parse(bytes, BlockKind::Point)?;
    assert!(rt; block.len() == 1 && block.value(0).len() == 65_536);
    Ok(())
}

/// A block of one row.
fn one_row(alloc: Global, key: &[u8], value: &[u8]) -> Result<Vec<u8>, Fail> {
    let mut writer = BlockWriter::new(alloc, 16);
    writer.add(key, value)?;
    Ok(writer.finish()?)
}

fn is_read(alloc: Global, kind: BlockKind, key: &[u8], value: &[u8]) -> Result<bool, Fail> {
    let bytes = one_row(alloc, key, value)?;
    Ok(Block::parse(bytes, kind).is_ok())
}

/// Whether a row is read whose user key has so many letters, and its value as many as are said.
fn is_row(alloc: Global, kind: BlockKind, user: usize, value: usize) -> Result<bool, Fail> {
    let code = if kind == BlockKind::Spans { 15 } else { 1 };
    let key = internal(alloc, &vec![in alloc; b'a'; user]?, 1, code)?;
    is_read(alloc, kind, &key, &vec![in alloc; b'b'; value]?)
}

#[test]
fn keys_and_bounds_at_their_limits(rt: HostRuntime) -> Result<(), Fail> {
    for (kind, user, value, wanted) in [
        (BlockKind::Point, 0, 1, false),
        (BlockKind::Point, 1024, 1, true),
        (BlockKind::Point, 1025, 1, false),
        (BlockKind::Spans, 1025, 1, true),
        (BlockKind::Spans, 1026, 1, false),
        (BlockKind::Spans, 1, 0, false),
        (BlockKind::Spans, 1, 1025, true),
        (BlockKind::Spans, 1, 1026, false),
    ] {
        let read = is_row(rt.alloc(), kind, user, value)?;
        assert!(rt; read == wanted, "{kind:?} {user} {value}");
    }
    Ok(())
}

#[test]
fn each_proper_prefix_is_refused(rt: HostRuntime) -> Result<(), Fail> {
    let alloc = rt.alloc();
    for at in 0..32 {
        // The last four bytes are a count: it is 0 in these places, once 1 behind no offset, and else
        // more than there are bytes for.
        let place = match at {
            10 | 11 | 12 | 21 | 22 | 23 | 28 => at - 4,
            20 => 12,
            _ => 0,
        };
        let found = defect(alloc, &BLOCK[..at], BlockKind::Point)?;
        assert!(rt; found == Some(BlockNo::Damaged { at: place }), "{at}");
    }
    Ok(())
}

#[test]
fn a_changed_byte_is_refused_or_another_block(rt: HostRuntime) -> Result<(), Fail> {
    let alloc = rt.alloc();
    let mut read = 0u32;
    for at in 0..32 {
        for byte in 0..=255 {
            let mut bytes = BLOCK;
            bytes[at] = byte;
            if bytes[at] != BLOCK[at] && defect(alloc, &bytes, BlockKind::Point)?.is_none() {
                read = read.wrapping_add(1);
            }
        }
    }
    // Both values, the user key's byte and the six upper bytes of the first number are free, and its lowest
    // byte may be any from 2 on. The second number may be 0. One entry of a longer key or value may take
    // the bytes of both.
    assert!(rt; read == 2 * 255 + 255 + 6 * 255 + 253 + 1 + 2);
    Ok(())
}

#[test]
fn defects_of_the_restart_part(rt: HostRuntime) -> Result<(), Fail> {
    let alloc = rt.alloc();
    let rows: [(&[u32], usize); 7] = [
        (&[], 24),
        (&[1], 24),
        (&[0, 0], 24),
        (&[0, 14, 13], 24),
        (&[0, 24], 24),
        // No restart stands at the second one.
        (&[0, 13], 24),
        (&[0, 12], 24),
    ];
    for (offsets, at) in rows {
        let bytes = with_offsets(alloc, &ENTRIES, offsets)?;
        let found = defect(alloc, &bytes, BlockKind::Point)?;
        assert!(rt; found == Some(BlockNo::Damaged { at }), "{offsets:?}");
    }
    for bytes in [
        b"".as_slice(),
        b"\0\0\0",
        b"\0\0\0\0",
        b"\0\0\0\0\x02\0\0\0",
    ] {
        let found = defect(alloc, bytes, BlockKind::Point)?;
        assert!(rt; found == Some(BlockNo::Damaged { at: 0 }), "{bytes:?}");
    }
    Ok(())
}

#[test]
fn defects_of_points(rt: HostRuntime) -> Result<(), Fail> {
    let alloc = rt.alloc();
    // The first entry alone, and then what follows it.
    let rows: [(&[u8], usize); 10] = [
        (b"", 0),
        (b"\xff\xff\xff\xff\xff\xff\xff\xff\xff\x01", 13),
        (b"\x82\0\x07\x01\x01\0\0\0\0\0\x001", 13),
        // It leaves out more than there is, more than it shares, and less.
        (b"\x0a\x07\x01\x01\0\0\0\0\0\x001", 13),
        (b"\x03\x06\x01\0\0\0\0\0\x001", 13),
        (b"\x01\x08\x01\x01\x01\0\0\0\0\0\x001", 13),
        // The value isn't there, the key is the same, and a delete has a value.
        (b"\x02\x07\x02\x01\0\0\0\0\0\x001", 13),
        (b"\x09\0\x011", 13),
        (b"\x01\x08\x01\0\x01\0\0\0\0\0\x001", 13),
        (b"\x01\x08\0\x02\x01\0\0\0\0\0\0", 13),
    ];
    for (entry, at) in rows {
        let mut entries = ENTRIES[..13].to_vec(alloc)?;
        entries.extend_from_slice(entry)?;
        let bytes = with_offsets(alloc, &entries, &[0])?;
        let found = defect(alloc, &bytes, BlockKind::Point)?;
        let wanted = (at > 0).then_some(BlockNo::Damaged { at });
        assert!(rt; found == wanted, "{entry:?}");
    }
    Ok(())
}

#[test]
fn spans_and_indexes(rt: HostRuntime) -> Result<(), Fail> {
    let alloc = rt.alloc();
    let rows: [(BlockKind, &[u8], &[u8], Option<usize>); 9] = [
        // Behind the span from a to c at 5: the same bounds at 3, one that touches it, and others that
        // cross it, have no end above their start, or are no spans.
        (BlockKind::Spans, b"a\x0f\x03\0\0\0\0\0\0", b"c", None),
        (BlockKind::Spans, b"c\x0f\x09\0\0\0\0\0\0", b"d", None),
        (BlockKind::Spans, b"b\x0f\x03\0\0\0\0\0\0", b"c", Some(13)),
        (BlockKind::Spans, b"a\x0f\x03\0\0\0\0\0\0", b"d", Some(13)),
        (BlockKind::Spans, b"c\x0f\x03\0\0\0\0\0\0", b"c", Some(13)),
        (BlockKind::Spans, b"c\x01\x03\0\0\0\0\0\0", b"d", Some(13)),
        // Behind the place of a point block: another one, one number alone, and three.
        (
            BlockKind::Index,
            b"c\x01\x03\0\0\0\0\0\0",
            b"\x80\x20\x15",
            None,
        ),
        (
            BlockKind::Index,
            b"c\x01\x03\0\0\0\0\0\0",
            b"\x15",
            Some(14),
        ),
        (
            BlockKind::Index,
            b"c\x01\x03\0\0\0\0\0\0",
            b"\0\x15\0",
            Some(14),
        ),
    ];
    for (kind, key, value, wanted) in rows {
        let mut writer = BlockWriter::new(alloc, 16);
        match kind {
            BlockKind::Spans => writer.add(b"a\x0f\x05\0\0\0\0\0\0", b"c")?,
            _ => writer.add(b"a\x01\x05\0\0\0\0\0\0", b"\0\x15")?,
        }
        writer.add(key, value)?;
        let found = defect(alloc, &writer.finish()?, kind)?;
        assert!(rt;
            found == wanted.map(|at| BlockNo::Damaged { at }),
            "{key:?}"
        );
    }
    Ok(())
}
