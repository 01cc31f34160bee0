// Tables: the reduction over books and charts, and the index of a book.
mod indexes;
mod reductions;
mod sizes;
