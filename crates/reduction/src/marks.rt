// Bytes that mark the loosened jobs.

/// The byte of a loosened job, which lawful grants can make active. The rules fix this byte and the next, so that they are no enum.
pub const LOOSE: u8 = 0;

/// The byte of any other job, which is stuck.
pub const STUCK: u8 = 1;
