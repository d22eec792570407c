//! Laws of paths and of rows. Each function is a fact for the crates above, which call it.
ghost use Rattle.speed_map.specs.SomeRows.{PathsExist, RowsExist};

/// A law: between two nodes of a bus there is a path, and each bus tree has the rows of a speed map,
/// whatever memory there is to make them.
pub fn rows_exist()
    ensures paths { PathsExist }
    ensures rows { RowsExist }
{}
