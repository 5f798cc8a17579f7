ghost use Rattle.std.specs.Prelude.{◌≡◌, [], map, OnOk};
ghost use Rattle.xdb_table_w.specs.Content.{content, span_row};

use std::alloc::AllocError;
use xdb_rangedel::Fragments;
use xdb_table_w::TableWriter;

/// Adds the fragments to a table that has no spans yet.
pub fn add_spans(writer: &mut TableWriter, fragments: &Fragments) -> Result<(), AllocError>
    requires none { writer.old.spans ≡ [] }
    ensures { OnOk result (writer.new ≡ content writer.old.points (map span_row fragments.now)) }
{
    for span in fragments.list() {
        writer.add_span(span)?;
    }
    Ok(())
}
