/// Whether a session takes more: it is open; or its files are finished; or a fault of the site broke it.
#[derive(Clone, Copy, Debug, PartialEq, Eq)]
pub enum Phase {
    Open,
    Done,
    Broken,
}
