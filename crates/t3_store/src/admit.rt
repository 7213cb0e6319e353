/// Whether a state can take the place of a store's persistent objects.
#[derive(Clone, Copy, Debug, PartialEq, Eq)]
pub enum Admit {
    Fits,
    /// One of its numbers is a transient object's.
    Clash,
    /// Its objects and the transient ones, or their units, are together more than a limit.
    Full,
}
