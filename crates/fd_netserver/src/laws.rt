//! What holds of the histories of servers.

ghost use Rattle.std.specs.Prelude.{◌≡◌, ◌⊎◌, ℕ, List, [], ◌++◌, Option, Some};
ghost use Rattle.fd_kdh.specs.declared.header.Header.{Header};
ghost use Rattle.fd_netmsg.specs.Each.{Each};
ghost use Rattle.fd_netmsg.specs.Message.{Message, finished};
ghost use Rattle.fd_netserver.specs.Files.{Files, parity_of};
ghost use Rattle.fd_netserver.specs.Session.{Done, Input, Open, Session, Turn, after_reply, session_at, sessions_after};
ghost use Rattle.fd_netserver.specs.Stands.{AreThere, IsBrokenAt, StandsFor, TurnOf};
ghost use Rattle.fd_netserver.specs.Table.{Ends, Repeats, row_of};
ghost use Rattle.fd_netserver.specs.Whole.{HasAll, IsTo};
ghost use Rattle.fd_netserver.specs.declared.reply.Reply.{Reply};
ghost use Rattle.fd_netserver.specs.declared.reply.Reply.TheVariants.{Ignored};
ghost use Rattle.fd_netserver.specs.declared.reply.Skip.TheVariants as skip;
ghost use Rattle.fd_site.specs.Fault.{Rose};
ghost use Rattle.fd_netserver.specs.History.{IsDone, IsServerRun, IsTurn, on_slot, inputs_of, replies_of, NoneBroken, IsWhole, LeavesFiles};
ghost use Rattle.fd_netserver.specs.Running.{HasServed};
ghost use Rattle.fd_netserver.specs.declared.record.Record.{Record};
ghost use Rattle.fd_site.specs.Contents.{Adds, Contents, Told, file_of};

/// Two servers, each at a moment at which the session of a slot is the same. Where the same inputs come on that slot
/// from then on, in order, and none of them is answered by a fault of the site, the replies to them are the same, and so is
/// the session at the end, with its pieces and its file: whatever comes on other slots, and whatever files there are.
pub fn sessions_are_apart()
    ensures { (slot : ℕ) (s : Session) (one two : List Session) (files_one files_two : Files) (turns_one turns_two : List Turn)
        → (slot ≡ 0 → ⊥) → session_at one slot ≡ Some s → session_at two slot ≡ Some s
        → IsServerRun one files_one turns_one → IsServerRun two files_two turns_two
        → inputs_of (on_slot slot turns_one) ≡ inputs_of (on_slot slot turns_two)
        → NoneBroken (on_slot slot turns_one) → NoneBroken (on_slot slot turns_two)
        → (replies_of (on_slot slot turns_one) ≡ replies_of (on_slot slot turns_two))
        × (session_at (sessions_after one turns_one) slot ≡ session_at (sessions_after two turns_two) slot) }
{}

/// From a moment at which the session of a slot is open, and as long as no fault of the site breaks it, what comes on other
/// slots adds no entry on its files.
pub fn others_leave_its_files()
    ensures { (slot : ℕ) (s : Session) (files : Files) (before after : List Turn)
        → (slot ≡ 0 → ⊥) → IsServerRun [] files (before ++ after) → session_at (sessions_after [] before) slot ≡ Some s → s.phase ≡ Open
        → Each (IsWhole slot) after → Each (LeavesFiles slot s.number) after }
{}

/// A new server has taken no turn; a server that has taken each of its turns over one site, where nothing else was added,
/// meets the condition of `Server::take`; and with what `take` ensures it has taken one turn more.
pub fn each_turn_may_be_taken()
    ensures new { (told : Option Contents) (rs : List Record) → rs ≡ [] → HasServed told rs }
    ensures there { (told : Option Contents) (rs : List Record) → HasServed told rs → Told told (λ c. AreThere rs (file_of c)) }
    ensures more { (told later : Option Contents) (rs now : List Record) (input : Input) (reply : Reply)
        → HasServed told rs
        → ((ss : List Session) → StandsFor rs ss → Adds (λ es. Told told (λ c. IsTurn ss (file_of c) (TurnOf input reply es))) told later)
        → ((ss : List Session) → StandsFor rs ss → StandsFor now (after_reply ss input reply))
        → HasServed later now }
{}

/// A turn of which `Server::take` ensures all that it ensures: the datagram's row was done, or the site's count of faults rose
/// in the call.
pub fn without_a_fault_a_turn_is_done()
    ensures { (was now : ℕ) (rs : List Record) (ss : List Session) (files : Files) (t : Turn)
        → StandsFor rs ss → IsTurn ss files t → (t.reply ≡ Ignored skip.Broken → Rose was now ⊎ IsBrokenAt rs t.input.slot)
        → Rose was now ⊎ IsDone (row_of ss files t.input) t }
{}

/// A finished message from the peer of an open session that has all of its dump ends the session, and one to a session that is
/// done already is acknowledged again: by the law above, in each call in which no fault of the site comes and memory is found.
pub fn a_whole_session_is_finished()
    ensures ends { (ss : List Session) (files : Files) (input : Input) (s : Session) (m : Message)
        → IsTo ss input s m → m.kind ≡ finished → (bytes : List ℕ) (h : Header) → s.phase ≡ Open → HasAll s bytes h
        → row_of ss files input ≡ Ends input.slot m.seqno s.number h (parity_of bytes) }
    ensures again { (ss : List Session) (files : Files) (input : Input) (s : Session) (m : Message)
        → IsTo ss input s m → m.kind ≡ finished → s.phase ≡ Done → row_of ss files input ≡ Repeats input.slot m.seqno }
{}
