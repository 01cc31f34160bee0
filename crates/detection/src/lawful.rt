// A table whose promises have been heard.
ghost use Rattle.tables.specs.Tables.{IsTable};

use tables::Table;

/// A table that was asked for its jobs: it has at most 256, and their rows obey the row law. The carrier is not kept beside it: each
/// step would have to promise that the table stays the same.
#[derive(Drop)]
pub struct LawfulTable<'a, T: Table> {
    pub table: &'a T,
    ghost tabled: { IsTable (T.Table.rows table.now) },
}
