//! How patient a client is.

ghost use Rattle.std.specs.Prelude.{◌≡◌};

/// How patient a client is: retries are at most 1000, and polls from 1 to 1,000,000.
#[derive(Clone, Copy, Debug, PartialEq, Eq)]
pub struct Limits {
    /// How often what wasn't acknowledged of a batch is sent again.
    pub retries: u32,
    /// How often the link is polled, at most, after each time.
    pub polls: u32,
}

impl Limits {
    /// Ten retries of 2000 polls.
    pub fn usual() -> Limits
        ensures { result ≡ record { retries = 10; polls = 2000 } }
    {
        Limits {
            retries: 10,
            polls: 2000,
        }
    }
}
