//! Who may make an act.
ghost use Rattle.xdb_rows.specs.Judged.{AreCases};
ghost use Rattle.xdb_rows.specs.Tables.Makers.{makers_of_clients, makers_by_the_owner, makers_of_names};

/// The acts of clients.
pub fn makers_of_clients()
    ensures { AreCases makers_of_clients }
{}

/// The acts of the owner.
pub fn makers_by_the_owner()
    ensures { AreCases makers_by_the_owner }
{}

/// What one client made may serve another.
pub fn makers_of_names()
    ensures { AreCases makers_of_names }
{}
