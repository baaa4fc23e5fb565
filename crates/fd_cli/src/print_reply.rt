//! Printing a reply.

ghost use Rattle.std.specs.Prelude.{Option};
ghost use Rattle.fd_cli.specs.Ending.{Call};
ghost use Rattle.fd_cli.specs.Reply.{Worked};
ghost use Rattle.fd_cli.specs.Row.{Reach};
ghost use Rattle.fd_cli.specs.Rows.{row_of};
ghost use Rattle.fd_words.specs.declared.command.Command.{Command};

use crate::reply::{Reply, Trouble};
use crate::status;
use fd_site::Sink;

/// Prints what a command replied, and answers the status that follows. A reply is printed as a whole, behind the command's
/// work, and without one nothing is.
pub(crate) fn print_reply<O: Sink>(reply: Result<Reply, Trouble>, out: &mut O) -> u8
    ensures { (command : Option Command) (old new : Reach) → Worked (row_of command) old new reply →
        Call (row_of command) (record { reach = old; sink = O.seen out.old }) (record { reach = new; sink = O.seen out.new })
        result }
{
    let reply = match reply {
        Ok(reply) => reply,
        Err(trouble) => return trouble.status(),
    };
    match out.put(reply.text.as_slice()) {
        Ok(()) => reply.status,
        Err(_) => status::FAULT,
    }
}
