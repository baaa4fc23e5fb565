//! What a session does with a message.

ghost use Rattle.std.specs.Prelude.{◌≡◌, ◌+◌, ◌^◌, ℕ, length, nat_lt, if◌then◌else◌};
ghost use Rattle.fd_netmsg.specs.Message.{kdh, meant, vmcore};
ghost use Rattle.fd_netserver.specs.Session.{Open, accepted};
ghost use Rattle.fd_netserver.specs.Stands.{IsOpenStep, StepsTo};
ghost use Rattle.fd_netserver.specs.Table.{Skips, done_row, header_row, piece_row};
ghost use Rattle.fd_netserver.specs.declared.record.Record.{Record};
ghost use Rattle.fd_netserver.specs.declared.reply.Skip.TheVariants as skip;

use crate::header::accepted;
use crate::reply::Skip;
use fd_kdh::Header;
use fd_netmsg::{FINISHED, Message};

/// It ignores it, acknowledges it again, writes its bytes, keeps its header, or ends by the header that it has and the
/// parity word that came with it.
#[derive(Drop)]
pub(crate) enum Step {
    Skips(Skip),
    Repeats,
    Writes,
    Keeps([u8; 512]),
    Ends(Header, u32),
}

/// With bytes of the dump, where the session is open.
pub(crate) fn piece_step(m: &Message<'_>) -> Step
    requires { (meant m.now).kind ≡ vmcore }
    ensures row { (slot number : ℕ) →
        (if nat_lt (2 ^ 40) ((meant m.now).offset + length (meant m.now).body) then Skips skip.TooFar else piece_row slot
        (meant m.now).seqno number (meant m.now).offset (meant m.now).body) ≡ StepsTo result slot number (meant m.now) }
    ensures open_ { (r : Record) → r.phase ≡ Open → IsOpenStep result r (meant m.now) }
{
    if u128::from(m.offset) + m.body.len() as u128 > 1 << 40 {
        return Step::Skips(Skip::TooFar);
    }
    if m.body.is_empty() {
        return Step::Repeats;
    }
    Step::Writes
}

/// With a header, where the session is open.
pub(crate) fn header_step(m: &Message<'_>) -> Step
    requires { (meant m.now).kind ≡ kdh }
    ensures row { (slot number : ℕ) → header_row slot (meant m.now).seqno (accepted (meant m.now).body) ≡ StepsTo result slot number (meant m.now) }
    ensures open_ { (r : Record) → r.phase ≡ Open → IsOpenStep result r (meant m.now) }
{
    if m.body.len() != 512 {
        return Step::Skips(Skip::BadHeader);
    }
    let mut header = [0u8; 512];
    header.copy_from_slice(m.body);
    match accepted(&header) {
        Some(_) => Step::Keeps(header),
        None => Step::Skips(Skip::BadHeader),
    }
}

/// Where the session is done.
pub(crate) fn done_step(m: &Message<'_>) -> Step
    ensures row { (slot number : ℕ) → done_row slot (meant m.now) ≡ StepsTo result slot number (meant m.now) }
    ensures open_ { (r : Record) → IsOpenStep result r (meant m.now) }
{
    if m.kind == FINISHED {
        return Step::Repeats;
    }
    Step::Skips(Skip::Closed)
}
