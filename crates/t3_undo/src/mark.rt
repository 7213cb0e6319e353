/// A savepoint of a journal.
#[derive(Clone, Copy, Debug)]
pub(crate) struct Mark {
    /// How many savepoints had been made with it.
    pub(crate) serial: u64,
    /// The number that was next when it was made.
    pub(crate) next: u32,
    /// How many records there are since it, up to the next newer one.
    pub(crate) count: u32,
}
