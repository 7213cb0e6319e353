/// What an object is.
#[derive(Clone, Copy, Debug, PartialEq, Eq)]
pub enum Kind {
    Tads,
    Text,
    List,
    Vector,
    Table,
}
