// The table of small books as one theorem.
ghost use Rattle.small_books.specs.Facts.{SmallBooksHold};

// Each line of the table comes out as told there, by the rules: a run, a call, a script, a chart, a reduction, a limit.
pub fn small_books_hold()
    ensures { SmallBooksHold }
{}
