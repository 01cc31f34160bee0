// The small books, run.
mod calls;
mod common;
mod detections;
mod machine;
mod near_misses;
