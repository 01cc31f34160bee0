// Scripts: their commands, faults and lengths, and the groups and detections in them.
mod commands;
mod detections;
mod ends;
mod faults;
mod lengths;
mod nested;
