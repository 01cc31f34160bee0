// The calls of a book: creation and questions, requests and grants, groups and tickets.
mod creation;
mod grants;
mod nesting;
mod requests;
mod tickets;
mod trails;
mod undoing;
