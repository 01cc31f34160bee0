// The rules on examples: the calls of a book, its scripts, its whole lives, and tables.
#![tactic(auto)]

#[cfg(test)]
mod assembler;
#[cfg(test)]
mod calls;
#[cfg(test)]
mod common;
#[cfg(test)]
mod life;
#[cfg(test)]
mod script;
#[cfg(test)]
mod table;
