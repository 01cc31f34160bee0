//! What calls on groups of rows answer and do, and the history of those that still count, for any kind of row and of edit.
//!
//! There is no code here: the definitions are in `specs/`, and what holds of them in `proofs/`.
#![tactic(auto)]

ghost use Rattle.histories.specs.Rules.{Rules};
ghost use Rattle.histories.specs.CallSteps.{Simulates};

/// Whatever kind of book it is, of rows P and edits E: each call does to a book what it does to every history that the book represents.
pub fn books_simulate_histories<P, E, K>()
    ensures { (R : Rules P E K) → Simulates R }
{}
