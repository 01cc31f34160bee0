// Calls as values.

/// A call that writes one row.
#[derive(Clone, Copy, Debug)]
pub enum Edit<'e> {
    /// The waiter no longer waits for the granter.
    Grant {
        /// The job that grants.
        granter: usize,

        /// The job that waits.
        waiter: usize,
    },

    /// The job waits for `need` of the targets.
    Request {
        /// The job that asks.
        job: usize,

        /// How many targets it needs.
        need: u8,

        /// The targets, by rising number.
        targets: &'e [u8],
    },
}
