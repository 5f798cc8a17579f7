//! Where the point blocks lie, by the rows of the index.
ghost use Rattle.std.specs.Prelude.{◌≡◌, ◌≤◌, []};
ghost use Rattle.xdb_block.specs.Rows.{row};
ghost use Rattle.xdb_table_r.specs.Parts.{handle, follows, follow_on};

use crate::part::Part;
use xdb_block::Block;
use xdb_key::read_varint;

/// The place and the length that a row's value tells, or 0 and 0 where it doesn't.
pub fn handle(value: &[u8]) -> Part
    ensures { result ≡ handle (row [] value.now) }
{
    let none = Part { at: 0, len: 0 };
    let Ok((at, rest)) = read_varint(value) else {
        return none;
    };
    match read_varint(rest) {
        Ok((len, _)) => Part { at, len },
        Err(_) => none,
    }
}

/// Whether the point blocks follow one another from 0 to the end.
pub fn follow_on(index: &Block, end: u64) -> bool
    ensures { result ≡ follow_on 0 end index.now }
{
    let mut at = 0;
    for i in 0..index.len() {
        let part = handle(index.value(i));
        if !follows(part, at, end) {
            return false;
        }
        at += part.len + 1;
    }
    at == end
}

/// Whether a point block begins at a place and ends by the end.
fn follows(part: Part, at: u64, end: u64) -> bool
    requires { at ≤ end }
    ensures { result ≡ follows at end part }
{
    part.at == at && part.len != 0 && part.len < end - at
}
