ghost use Rattle.std.specs.Prelude.{IsTrue};
ghost use Rattle.std.specs.List.{list_all};
ghost use Rattle.xdb_edit.specs.Records.{records_of, rises, front, fits};

use crate::Edit;
use crate::EditBad::{self, BadField, BadOrder, BadTag, Short};
use std::alloc::Global;
use std::test::Fail;
use xdb_key::{Bound, Extent, KeyRange};
use xdb_meta::TableMeta;

/// Table 1 of L0 goes, and the half 2 of its file comes: bounds a and a with a zero byte, numbers 1 to 5,
/// no synthetic number, size 43.
const HALF_EDIT: [u8; 16] = [
    0x01, 0x00, 0x01, 0x04, 0x00, 0x02, 0x01, 0x01, 0x61, 0x02, 0x61, 0x00, 0x01, 0x05, 0x00, 0x2b,
];

/// The numbers 2^56 - 1 and 2^56.
const MOST: &[u8] = b"\xff\xff\xff\xff\xff\xff\xff\x7f";

const END: &[u8] = b"\x80\x80\x80\x80\x80\x80\x80\x80\x01";

fn range(alloc: Global, lo: &[u8], hi: &[u8]) -> Result<KeyRange, Fail> {
    let lo = Bound::new(lo.to_vec(alloc)?)?;
    let hi = Bound::new(hi.to_vec(alloc)?)?;
    Ok(KeyRange::new(lo, hi)?)
}

fn half(alloc: Global) -> Result<TableMeta, Fail> {
    let extent = Extent::new(range(alloc, b"a", b"a\0")?, 1, 5);
    Ok(TableMeta::virtual_(2, 1, extent, 0, 43))
}

fn added(alloc: Global) -> Result<Vec<(u8, TableMeta)>, Fail> {
    let mut added = Vec::new(alloc);
    added.push((0, half(alloc)?))?;
    Ok(added)
}

fn half_edit(alloc: Global) -> Result<Edit, Fail> {
    let added = added(alloc)?;
    let removed = Vec::from_slice(alloc, &[(0, 1)])?;
    Ok(Edit::new(removed, Vec::new(alloc), added)?)
}

fn copy_of_half_edit(alloc: Global) -> Result<Edit, Fail> {
    let edit = half_edit(alloc)?;
    Ok(edit.copy()?)
}

fn half_is(half: &TableMeta) -> bool {
    half.num() == 2
        && half.backing() == 1
        && half.virt()
        && half.lo().bytes() == b"a".as_slice()
        && half.hi().bytes() == b"a\0".as_slice()
        && half.seq_lo() == 1
        && half.seq_hi() == 5
        && half.synthetic() == 0
        && half.size() == 43
}

fn half_edit_is(edit: &Edit) -> bool {
    edit.removed() == [(0, 1)].as_slice()
        && edit.new_backings().is_empty()
        && match edit.added() {
            [(level, table)] => *level == 0 && half_is(table),
            _ => false,
        }
}

/// Whether the bytes are what the edit is written as.
fn is_written(edit: &Edit, bytes: &[u8]) -> Result<bool, Fail>
    requires order { IsTrue (rises front (records_of edit.now)) }
    requires ranges { IsTrue (list_all fits (records_of edit.now)) }
{
    let written = edit.encode()?;
    Ok(written.as_slice() == bytes)
}

/// The defect of the bytes, where they have one; else they are what the edit read from them is written as.
fn defect(alloc: Global, bytes: &[u8]) -> Result<Option<EditBad>, Fail> {
    match Edit::decode(alloc, bytes) {
        Ok(edit) => {
            if is_written(&edit, bytes)? {
                Ok(None)
            } else {
                Err(Fail::from("the edit is written otherwise"))
            }
        }
        Err(EditBad::Memory) => Err(Fail::from(EditBad::Memory)),
        Err(bad) => Ok(Some(bad)),
    }
}

#[test]
fn half_edit_is_copied(rt: HostRuntime) -> Result<(), Fail> {
    let edit = copy_of_half_edit(rt.alloc())?;
    assert!(rt; half_edit_is(&edit));
    Ok(())
}

#[test]
fn half_edit_is_read(rt: HostRuntime) -> Result<(), Fail> {
    let edit = Edit::decode(rt.alloc(), &HALF_EDIT)?;
    assert!(rt; half_edit_is(&edit));
    Ok(())
}

#[test]
fn half_edit_is_written(rt: HostRuntime) -> Result<(), Fail> {
    assert!(rt; defect(rt.alloc(), &HALF_EDIT)? == None);
    Ok(())
}

#[test]
fn records_in_an_order(rt: HostRuntime) -> Result<(), Fail> {
    let rows: [(&[u8], Option<EditBad>); 3] = [
        (
            &[
                0x04, 0x00, 0x02, 0x01, 0x01, 0x61, 0x02, 0x61, 0x00, 0x01, 0x05, 0x00, 0x2b, 0x01,
                0x00, 0x01,
            ],
            Some(BadOrder { at: 13 }),
        ),
        (&[0x02, 0x03, 0x02, 0x03], Some(BadOrder { at: 2 })),
        (&[0x02, 0x03, 0x02, 0x04], None),
    ];
    for (bytes, bad) in rows {
        assert!(rt; defect(rt.alloc(), bytes)? == bad);
    }
    Ok(())
}

#[test]
fn prefixes_of_an_edit(rt: HostRuntime) -> Result<(), Fail> {
    for len in 0..HALF_EDIT.len() {
        let expected = match len {
            // nothing, and the first record alone
            0 | 3 => None,
            _ => Some(Short { at: len }),
        };
        assert!(rt; defect(rt.alloc(), &HALF_EDIT[..len])? == expected, "{len}");
    }
    Ok(())
}

/// Up to which value of a byte the bytes have which defect.
type Run = (u8, Option<EditBad>);

/// What a byte in each place of the edit makes of it: the runs of its values.
const CHANGED: [&[Run]; 16] = [
    // the tag of the first record
    &[
        (0, Some(BadTag { tag: 0, at: 0 })),
        (1, None),
        (2, Some(BadField { at: 1 })),
        (3, Some(Short { at: 16 })),
        (4, Some(BadField { at: 4 })),
    ],
    // its level
    &[(6, None), (255, Some(BadField { at: 1 }))],
    // its number
    &[
        (0, Some(BadField { at: 2 })),
        (127, None),
        (255, Some(BadTag { tag: 0, at: 4 })),
    ],
    // the tag of the second record
    &[
        (0, Some(BadTag { tag: 0, at: 3 })),
        (1, Some(BadTag { tag: 0, at: 11 })),
        (2, Some(BadField { at: 4 })),
        (3, Some(Short { at: 16 })),
        (4, None),
    ],
    // its level
    &[(6, None), (255, Some(BadField { at: 4 }))],
    // its number, which isn't that of its backing
    &[
        (0, Some(BadField { at: 5 })),
        (1, Some(BadField { at: 6 })),
        (127, None),
        (255, Some(Short { at: 16 })),
    ],
    // its backing
    &[
        (0, Some(BadField { at: 6 })),
        (1, None),
        (2, Some(BadField { at: 6 })),
        (127, None),
        (255, Some(Short { at: 16 })),
    ],
    // the length of its start
    &[
        (0, Some(BadField { at: 7 })),
        (1, None),
        (2, Some(Short { at: 16 })),
        (3, Some(BadField { at: 11 })),
        (4, Some(BadField { at: 12 })),
        (5, Some(Short { at: 16 })),
        (6, Some(BadField { at: 14 })),
        (127, Some(Short { at: 16 })),
        (255, Some(BadField { at: 7 })),
    ],
    // its start
    &[(0x61, None), (255, Some(BadField { at: 9 }))],
    // the length of its end
    &[
        (1, Some(BadField { at: 9 })),
        (2, None),
        (3, Some(BadField { at: 14 })),
        (127, Some(Short { at: 16 })),
        (255, Some(BadField { at: 9 })),
    ],
    // its end
    &[(0x60, Some(BadField { at: 9 })), (255, None)],
    &[(255, None)],
    // its least number
    &[
        (5, None),
        (127, Some(BadField { at: 13 })),
        (255, Some(BadField { at: 14 })),
    ],
    // its greatest number
    &[
        (0, Some(BadField { at: 13 })),
        (127, None),
        (255, Some(BadField { at: 13 })),
    ],
    // its synthetic number
    &[(0, None), (255, Some(BadField { at: 14 }))],
    // its size
    &[
        (0, Some(BadField { at: 15 })),
        (127, None),
        (255, Some(Short { at: 16 })),
    ],
];

/// What the table says of a value, and of a byte that is no tag: itself, or 0 where another follows it.
fn expected(runs: &[Run], place: usize, value: u8) -> Option<EditBad> {
    for (last, bad) in runs {
        if value <= *last {
            return *bad;
        }
    }
    let tag = if value < 128 { u64::from(value) } else { 0 };
    Some(BadTag { tag, at: place })
}

#[test]
fn changed_bytes_of_an_edit(rt: HostRuntime) -> Result<(), Fail> {
    for (place, runs) in CHANGED.iter().enumerate() {
        for value in 0..=255u8 {
            let mut bytes = HALF_EDIT;
            bytes[place] = value;
            assert!(rt;
                defect(rt.alloc(), &bytes)? == expected(runs, place, value),
                "{value} at {place}"
            );
        }
    }
    Ok(())
}

/// A table of L0 from a to b whose number, least and greatest numbers, synthetic number and size are 2^56 - 1,
/// and one of these is 2^56.
fn table_beyond(alloc: Global, beyond: Option<usize>) -> Result<Vec<u8>, Fail> {
    let mut bytes = Vec::from_slice(alloc, &[0x03, 0x00])?;
    for field in 0..5 {
        let number = if beyond == Some(field) { END } else { MOST };
        bytes.extend_from_slice(number)?;
        if field == 0 {
            bytes.extend_from_slice(b"\x01a\x01b")?;
        }
    }
    Ok(bytes)
}

fn defect_beyond(alloc: Global, beyond: Option<usize>) -> Result<Option<EditBad>, Fail> {
    let bytes = table_beyond(alloc, beyond)?;
    defect(alloc, &bytes)
}

#[test]
fn numbers_at_their_end_and_beyond(rt: HostRuntime) -> Result<(), Fail> {
    assert!(rt; defect_beyond(rt.alloc(), None)? == None);
    for (field, at) in [2, 14, 22, 30, 38].iter().enumerate() {
        assert!(rt;
            defect_beyond(rt.alloc(), Some(field))? == Some(BadField { at: *at }),
            "{field}"
        );
    }
    Ok(())
}

/// Table 1 of L0 from a to a bound of so many bytes, of which 1,024 are told by 8 in the second byte.
fn table_up_to(alloc: Global, beyond: u8) -> Result<Vec<u8>, Fail> {
    let mut bytes = Vec::from_slice(alloc, b"\x03\0\x01\x01a")?;
    bytes.push(0x80 | beyond)?;
    bytes.push(0x08)?;
    for _ in 0..1024 + usize::from(beyond) {
        bytes.push(b'b')?;
    }
    bytes.extend_from_slice(&[0x01, 0x05, 0x00, 0x2b])?;
    Ok(bytes)
}

fn defect_up_to(alloc: Global, beyond: u8) -> Result<Option<EditBad>, Fail> {
    let bytes = table_up_to(alloc, beyond)?;
    defect(alloc, &bytes)
}

#[test]
fn bounds_at_their_end_and_beyond(rt: HostRuntime) -> Result<(), Fail> {
    assert!(rt; defect_up_to(rt.alloc(), 1)? == None);
    assert!(rt; defect_up_to(rt.alloc(), 2)? == Some(BadField { at: 5 }));
    Ok(())
}

/// The new files 128 to 5,119. Each number takes two bytes.
fn new_backings(alloc: Global) -> Result<Vec<u8>, Fail> {
    let mut bytes = Vec::new(alloc);
    for high in 1..40u8 {
        for low in 0..128u8 {
            bytes.extend_from_slice(&[0x02, 0x80 | low, high])?;
        }
    }
    Ok(bytes)
}

/// How many new files are read.
fn count_read(alloc: Global, bytes: &[u8]) -> Result<usize, Fail> {
    let edit = Edit::decode(alloc, bytes)?;
    Ok(edit.new_backings().len())
}

#[test]
fn thousands_of_records(rt: HostRuntime) -> Result<(), Fail> {
    let bytes = new_backings(rt.alloc())?;
    assert!(rt; count_read(rt.alloc(), &bytes)? == 4992);
    assert!(rt; defect(rt.alloc(), &bytes)? == None);
    Ok(())
}
