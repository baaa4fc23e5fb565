//! What a call on the outside answers that failed.

/// Something of the outside failed, and its count of faults rose.
#[derive(Clone, Copy, Debug, PartialEq, Eq)]
pub struct Failed;

/// The site failed in a call of the work that was asked for, and its count of faults rose.
#[derive(Clone, Copy, Debug, PartialEq, Eq)]
pub struct SiteFault;

impl From<Failed> for SiteFault {
    fn from(_: Failed) -> SiteFault {
        SiteFault
    }
}
