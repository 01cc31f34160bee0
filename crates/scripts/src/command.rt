// Commands of a script, read.

use groups::Ending;
use store::Edit;

/// What a command asks for. An ending is of the innermost group.
#[derive(Clone, Copy, Drop)]
pub enum Command<'s> {
    Open,
    End(Ending),
    Detect { job: u8 },
    Edit(Edit<'s>),
}
