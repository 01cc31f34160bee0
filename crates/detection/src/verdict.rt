// What a detection answers.

/// Whether a job is stuck or only slow.
#[derive(Clone, Copy, PartialEq, Eq, Debug)]
pub enum Verdict {
    /// No list of lawful grants makes the job active.
    Stuck,

    /// Some list of lawful grants makes it active; the empty list, where it is active already.
    Free,
}

/// What a detection answers.
#[derive(Clone, Copy, Drop, PartialEq, Eq, Debug)]
pub struct Detection {
    /// Whether the initiator is stuck.
    pub verdict: Verdict,

    /// How many messages were delivered to find it, at most four for each wait.
    pub deliveries: u32,
}
