// Small books: what is to come of them, proved of the rules and run over all three carriers.
#![tactic(auto)]

mod facts;
#[cfg(test)]
mod tests;

pub use facts::small_books_hold;
