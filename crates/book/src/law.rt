// What a call on a plain book means to its histories.
ghost use Rattle.histories.specs.CallSteps.{Simulates};
ghost use Rattle.store.specs.Plain.{plain};

/// Whatever history a plain book represents before a call, it answers the call as that history does, and represents that history with the
/// call added after it. There is nothing to run: the contract is the theorem.
pub fn plain_books_simulate_histories()
    ensures { Simulates plain }
{}
