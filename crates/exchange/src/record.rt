// Run records: what each job keeps during a run of the exchange.
ghost use Rattle.std.specs.Prelude.{◌≡◌};
ghost use Rattle.exchange.specs.Records.{blank as unmarked};

use carriers::Wait;

/// What a job keeps during a run. The rules fix the seven entries, of which the first two are yes or no.
#[derive(Clone, Copy, Drop, PartialEq, Eq, Debug)]
pub struct RunRecord {
    /// Whether the job has spread.
    pub notified: bool,

    /// Whether it has let go.
    pub free: bool,

    /// How many GRANTs have come to it.
    pub granted: u16,

    /// How many DONEs it is owed.
    pub dones_due: u16,

    /// How many ACKs it is owed.
    pub acks_due: u16,

    /// The wait on which the first NOTIFY came; none before it comes, and for the initiator.
    pub notified_by: Option<Wait>,

    /// The wait on which the freeing GRANT came; none before it comes, and for an active job.
    pub freed_by: Option<Wait>,
}

impl RunRecord {
    /// The record of a job that no message has reached: nothing marked, nothing counted, and no wait. The default is the same.
    pub fn blank() -> RunRecord
        ensures { result ≡ unmarked }
    {
        RunRecord {
            notified: false,
            free: false,
            granted: 0,
            dones_due: 0,
            acks_due: 0,
            notified_by: None,
            freed_by: None,
        }
    }
}

impl Default for RunRecord {
    ghost is_default = { λ own. own ≡ unmarked };

    fn default() -> RunRecord {
        RunRecord::blank()
    }
}
