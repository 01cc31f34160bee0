// How far a script has come.

/// What a script has left behind so far.
#[derive(Drop)]
pub struct Tally {
    /// How many answer bytes it has written.
    pub written: usize,

    /// How many of its groups are open.
    pub groups: usize,
}

/// How far its bytes are carried out.
#[derive(Drop)]
pub struct Position {
    /// Where its next command begins.
    pub offset: usize,

    /// How many commands were carried out before it.
    pub index: usize,
}
