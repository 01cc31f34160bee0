// Whole lives of a book, from its creation on.
mod call;
mod living;
mod moment;

pub use call::{Answer, Call};
pub use living::{Creation, TooFewMoments, live};
pub use moment::Moment;
