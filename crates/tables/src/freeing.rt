// What lawful grants lead to.
ghost use Rattle.tables.specs.ClosedSets.{LoosenedCanBeFreed};

/// The loosened jobs are those that lawful grants can make active.
pub fn loosened_jobs_can_be_freed()
    ensures { LoosenedCanBeFreed }
{}
