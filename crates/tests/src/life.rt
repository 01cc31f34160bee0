// Whole lives of a book.
mod mixed;
mod small;
mod steps;
