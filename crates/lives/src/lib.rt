//! Whole lives of a book, of any kind, and the law that they obey.
//!
//! The one function, [`lives_follow`], has that law as its contract.
#![tactic(auto)]

ghost use Rattle.histories.specs.Rules.{Rules};
ghost use Rattle.lives.specs.Law.{LawOfCallsAndDetections};

/// Whatever kind of book it is, of rows P and edits E: what happens to it happens to its history.
pub fn lives_follow<P, E, K>()
    ensures { (R : Rules P E K) → LawOfCallsAndDetections R }
{}
