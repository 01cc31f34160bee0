// The answer of a detection inside a script, as bytes.
ghost use Rattle.std.specs.Prelude.{◌≡◌, ◌^◌, ◌<◌};
ghost use Rattle.scripts.specs.Scripts.{answer_bytes as bytes_of};

use detection::{Detection, Verdict};

/// How many bytes a detection writes.
pub const DETECTION_BYTES: usize = 4;

/// The job, 1 if it is stuck and else 0, and the deliveries as 16 bits, the high byte first.
pub fn answer_bytes(job: u8, found: Detection) -> [u8; DETECTION_BYTES]
    requires { found.deliveries < 2 ^ 16 }
    ensures { result ≡ bytes_of job found }
{
    let stuck = u8::from(found.verdict == Verdict::Stuck);
    let [high, low] = (found.deliveries as u16).to_be_bytes();
    [job, stuck, high, low]
}
