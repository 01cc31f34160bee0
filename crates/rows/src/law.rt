// The row law, as the rules state it.
ghost use Rattle.rows.specs.LawFacts.{LawIsTested};

/// A row passes the test of the row law exactly if it obeys the five facts of which the law consists.
pub fn row_law_is_tested()
    ensures { LawIsTested }
{}
