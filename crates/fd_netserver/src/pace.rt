//! How much longer a server serves.

ghost use Rattle.std.specs.Prelude.{◌≡◌, ◌<◌, [], ◌∷◌, ◌++◌, List, Option, length};
ghost use Rattle.fd_netserver.specs.Serving.{IsServing, finished_in};
ghost use Rattle.fd_netserver.specs.Turning.{IsPaced};
ghost use Rattle.fd_netserver.specs.Session.{Turn};

use crate::limits::ServeLimits;

/// How many turns are left, and whether dumps are still waited for.
#[derive(Clone, Copy)]
pub(crate) struct Pace {
    pub left: u64,
    pub waits: bool,
}

impl Pace {
    /// At the start all turns are left.
    pub fn start(limits: ServeLimits) -> Pace
        requires { IsServing limits }
        ensures { IsPaced limits result [] }
    {
        Pace {
            left: limits.turns,
            waits: true,
        }
    }

    /// After one turn more, when so many sessions are finished: with the last of the dumps it begins to linger.
    #[tactic(auto, using(crate::proofs::Pacing::waits_next, crate::proofs::Pacing::lingers_first, crate::proofs::Pacing::lingers_next))]
    pub fn next(self, limits: ServeLimits, finished: usize) -> Pace
        requires { 0 < self.left }
        ensures paced { (before : List (Option Turn)) (last : Option Turn) → IsPaced limits self before →
            finished ≡ length (finished_in (before ++ last ∷ [])) → IsPaced limits result (before ++ last ∷ []) }
        ensures less { result.left < self.left }
    {
        let left = self.left - 1;
        if !self.waits {
            return Pace { left, waits: false };
        }
        if finished < usize::from(limits.dumps) {
            return Pace { left, waits: true };
        }
        Pace {
            left: left.min(u64::from(limits.linger)),
            waits: false,
        }
    }
}
