// What is given back of a life.
ghost use Rattle.std.specs.Prelude.{◌≡◌, [], Ok};
ghost use Rattle.book.specs.declared.life.call.Answer.TheVariants.{Edited};
ghost use Rattle.book.specs.Moments.{answer_at, seen_at};

use crate::life::call::Answer;
use store::Snapshot;

/// What a call answered, and what was seen of the book after it.
#[derive(Clone, Copy, Debug)]
pub struct Moment {
    /// What the call answered.
    pub answer: Answer,

    /// The rows and the depth after it.
    pub seen: Snapshot,
}

impl Moment {
    /// A moment in which no life has been lived yet: an accepted edit, and a book without jobs. The default is the same.
    pub fn blank() -> Moment
        ensures answer { answer_at result ≡ Edited (Ok tt) }
        ensures seen { seen_at result ≡ record { rows = []; depth = 0 } }
    {
        Moment {
            answer: Answer::Edited(Ok(())),
            seen: Snapshot::blank(),
        }
    }
}

impl Default for Moment {
    ghost is_default = { λ moment. (answer_at moment ≡ Edited (Ok tt)) × (seen_at moment ≡ record { rows = []; depth = 0 }) };

    fn default() -> Moment {
        Moment::blank()
    }
}
