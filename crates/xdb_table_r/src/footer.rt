//! The footer of a file, of 40 bytes.
ghost use Rattle.std.specs.Prelude.{◌≡◌, ◌==◌, ◌+◌, ◌≤◌, length};
ghost use Rattle.xdb_table_r.specs.Parts.{behind};
ghost use Rattle.xdb_table_r.specs.Opening.{points_end, is_laid, number_at, parts_at, is_ending, layout_at};

use crate::part::{Layout, Part};
use byteorder::{ByteOrder, LittleEndian};
use xdb_key::compare;

/// How many bytes it has.
pub const LEN: u64 = 40;

const FORMAT: u64 = 1;

/// The layout of a file whose footer stands at a place.
pub fn layout(end: u64, footer: &[u8]) -> Option<Layout>
    requires { length footer.now ≡ 40 }
    ensures { result ≡ layout_at end footer.now }
{
    let layout = parts(footer);
    if is_ending(footer) && is_laid(end, layout) {
        Some(layout)
    } else {
        None
    }
}

fn parts(footer: &[u8]) -> Layout
    requires { length footer.now ≡ 40 }
    ensures { result ≡ parts_at footer.now }
{
    let spans = Part {
        at: wide(footer, 0),
        len: u64::from(narrow(footer, 8)),
    };
    let index = Part {
        at: wide(footer, 12),
        len: u64::from(narrow(footer, 20)),
    };
    Layout { spans, index }
}

/// The number of 8 bytes at a place.
#[tactic(auto, unfolding(crate::specs::Opening::number_at))]
fn wide(footer: &[u8], at: usize) -> u64
    requires { at + 8 ≤ length footer.now }
    ensures { result ≡ number_at 8 at footer.now }
{
    LittleEndian::read_u64(&footer[at..])
}

/// The number of 4 bytes at a place.
#[tactic(auto, unfolding(crate::specs::Opening::number_at))]
fn narrow(footer: &[u8], at: usize) -> u32
    requires { at + 4 ≤ length footer.now }
    ensures { result ≡ number_at 4 at footer.now }
{
    LittleEndian::read_u32(&footer[at..])
}

/// Whether the footer ends with the format and the name.
fn is_ending(footer: &[u8]) -> bool
    requires { length footer.now ≡ 40 }
    ensures { result ≡ is_ending footer.now }
{
    wide(footer, 24) == FORMAT && compare(&footer[32..], b"excisedb").is_eq()
}

/// Whether the blocks fill the file up to the footer.
fn is_laid(end: u64, layout: Layout) -> bool
    ensures { result ≡ is_laid end layout }
{
    let Layout { spans, index } = layout;
    if index.len == 0 {
        return index.at == 0 && spans.len != 0 && spans.at == 0 && ends_at(spans, end);
    }
    ends_at(index, end)
        && if spans.len == 0 {
            spans.at == 0
        } else {
            ends_at(spans, index.at)
        }
}

fn ends_at(part: Part, end: u64) -> bool
    ensures { result ≡ (behind part == end) }
{
    u128::from(part.at) + u128::from(part.len) + 1 == u128::from(end)
}

/// Where the point blocks end.
pub fn points_end(layout: Layout) -> u64
    ensures { result ≡ points_end layout }
{
    if layout.spans.len == 0 {
        layout.index.at
    } else {
        layout.spans.at
    }
}
