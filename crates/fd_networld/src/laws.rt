//! What a client that is done may rely on.

ghost use Rattle.std.specs.Prelude.{◌≡◌, ◌≤◌, ℕ, List, ◌++◌};
ghost use Rattle.fd_site.specs.Contents.{Contents};
ghost use Rattle.fd_site.specs.Journal.{Entry};
ghost use Rattle.fd_site.specs.Trace.{LinkEvent};
ghost use Rattle.fd_site.specs.declared.ports.Peer.{Peer};
ghost use Rattle.fd_kdh.specs.declared.header.Header.{Header};
ghost use Rattle.fd_netclient.specs.Datagram.{chunks};
ghost use Rattle.fd_netclient.specs.Trace.{Patience, IsComplete, Done};
ghost use Rattle.fd_netserver.specs.Files.{files_after};
ghost use Rattle.fd_netserver.specs.Session.{Turn};
ghost use Rattle.fd_netserver.specs.History.{AreServerRuns, all_turns, entries_in};
ghost use Rattle.fd_networld.specs.Delivery.{IsSendable, IsCarried, IsDelivered};
ghost use Rattle.fd_networld.specs.Lawful.{IsLawful, WasDelivered};
ghost use Rattle.fd_networld.specs.World.{AreForeign, Follows, Story, beginning};
ghost use Rattle.fd_networld.specs.declared.event.Event.{Event};

/// Whatever was lost, repeated or reordered, and however often the server was started anew: where a client is done,
/// a session of its was finished, and from then on the files of that session's number are stable, are the dump and the
/// text of its header, and stay so.
pub fn a_done_client_was_served()
    ensures { (dump : List ℕ) (h : Header) (patience : Patience) (trace : List LinkEvent) (peer : Peer)
        (c : Contents) (before : List Entry) (runs : List (List Turn))
        → IsSendable dump h → IsComplete dump h patience trace Done
        → AreServerRuns (files_after c.base_file before) runs → c.journal ≡ before ++ entries_in (all_turns runs)
        → IsCarried peer trace (all_turns runs)
        → IsDelivered dump h peer c before (all_turns runs) }
{}

/// Whatever happens in a world, in whichever order, and however often: its trace is a client run, and a complete one where
/// its client is done; its runs are server runs over its one site; and nothing is forged. So where its client is done, its
/// dump was delivered.
pub fn each_world_is_lawful()
    ensures lawful { (dump : List ℕ) (h : Header) (patience : Patience) → 1 ≤ patience.polls → (events : List Event) → AreForeign events
        → (story : Story) → Follows dump h (beginning (chunks dump) patience) events story → IsLawful dump h patience story }
    ensures delivered { (dump : List ℕ) (h : Header) (patience : Patience) → IsSendable dump h → 1 ≤ patience.polls → (events : List Event) → AreForeign events
        → (story : Story) → Follows dump h (beginning (chunks dump) patience) events story → WasDelivered dump h story }
{}
