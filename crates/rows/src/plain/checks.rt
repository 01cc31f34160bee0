// From a stored row to a checked one, and back.
ghost use Rattle.std.specs.Prelude.{◌≡◌};
ghost use Rattle.std.specs.Cmp.Rules.{comparing};
ghost use Rattle.std.proofs.Common.{rules};
ghost use Rattle.rows.specs.Waiting.{idle};
ghost use Rattle.rows.specs.StoredRows.{stored_as, waiting_of, says_same, Checked, StoredWhole};

use crate::parts::{counts_fit, places_fit, rises};
use crate::plain::{LawBroken, PlainRow, Row, TARGETS_MAX};

impl PlainRow {
    /// The stored row of an active job: need and count 0, and 0 at each place. The default is the same.
    pub fn idle() -> PlainRow
        ensures { result ≡ stored_as idle }
    {
        PlainRow {
            need: 0,
            count: 0,
            targets: [0; TARGETS_MAX],
        }
    }
}

impl Default for PlainRow {
    ghost is_default = { λ p. p ≡ stored_as idle };

    fn default() -> PlainRow {
        PlainRow::idle()
    }
}

impl Row {
    /// The row of an active job, with need 0 and no targets. The default is the same.
    pub fn idle() -> Row
        ensures { waiting_of result ≡ idle }
    {
        Row {
            plain: PlainRow::idle(),
        }
    }
}

impl Default for Row {
    ghost is_default = { λ r. waiting_of r ≡ idle };

    fn default() -> Row {
        Row::idle()
    }
}

// A stored row gets its law by a check, and is refused where it breaks the law.
impl TryFrom<PlainRow> for Row {
    type Error = LawBroken;

    ghost try_from_gives = { Checked };

    fn try_from(plain: PlainRow) -> Result<Row, LawBroken> {
        let count = plain.count as usize;
        if !places_fit(count, &plain.targets)
            || !counts_fit(plain.need, count)
            || !rises(&plain.targets[..count])
        {
            return Err(LawBroken);
        }
        Ok(Row { plain })
    }
}

// The row as it is stored, whole.
impl From<Row> for PlainRow {
    ghost from_gives = { StoredWhole };

    fn from(row: Row) -> PlainRow {
        row.plain
    }
}

// Two rows are equal exactly if they say the same. Their stored rows are compared, as these are equal just then.
impl PartialEq for Row {
    ghost eq = { says_same };

    ghost laws = { Prim.search (comparing, rules) };

    fn eq(&self, other: &Row) -> bool {
        self.plain == other.plain
    }
}

impl Eq for Row {
    ghost laws = { Prim.search (comparing, rules) };
}
