// What holds of every run of the exchange, in whatever order its messages are delivered.
ghost use Rattle.exchange.specs.Bounds.{RunsAreBounded};
ghost use Rattle.exchange.specs.Verdicts.{EndedRunsTell};

/// A run has at most four deliveries a wait and ends, at most two messages a wait are on their way at any time, and no
/// count of what is due falls below 0.
pub fn runs_are_bounded()
    ensures { RunsAreBounded }
{}

/// When no message waits, the initiator is free exactly if some list of lawful grants makes it active, and no DONE or ACK is due any more.
pub fn ended_runs_tell()
    ensures { EndedRunsTell }
{}
