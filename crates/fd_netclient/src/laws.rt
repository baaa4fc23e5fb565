//! What holds of the traces of clients.

ghost use Rattle.std.specs.Prelude.{◌≡◌, ◌≤◌, ◌+◌, ◌↔◌, ◌∷◌, ◌++◌, [], ℕ, List};
ghost use Rattle.fd_site.specs.Trace.{LinkEvent, Sent};
ghost use Rattle.fd_kdh.specs.declared.header.Header.{Header};
ghost use Rattle.fd_netmsg.specs.Each.{Each, OneOf};
ghost use Rattle.fd_netclient.specs.Datagram.{chunks, datagram};
ghost use Rattle.fd_netclient.specs.Heard.{Acks, IsSaid};
ghost use Rattle.fd_netclient.specs.Trace.{Patience, Outcome, IsComplete, IsClientRun, IsPolled, Done};
ghost use Rattle.fd_netclient.specs.Machine.{ComesNext, Goes, Passes, State, on_poll, on_sent, port_of, start, want_of};
ghost use Rattle.fd_netclient.specs.declared.client.Want.TheVariants as want;

/// Each datagram of a trace is one of the dump's.
pub fn each_datagram_is_of_the_dump()
    ensures { (dump : List ℕ) (h : Header) (patience : Patience) (trace : List LinkEvent) (outcome : Outcome)
        → IsComplete dump h patience trace outcome → Each (IsSaid dump h) trace }
{}

/// A trace that is done has heard the acknowledgement of its last number.
pub fn a_done_client_heard_its_last()
    ensures { (dump : List ℕ) (h : Header) (patience : Patience) (trace : List LinkEvent)
        → IsComplete dump h patience trace Done → OneOf (Acks (chunks dump + 3)) trace }
{}

/// A trace is complete with one outcome at most.
pub fn a_complete_trace_has_one_outcome()
    ensures { (dump : List ℕ) (h : Header) (patience : Patience) → 1 ≤ patience.polls → (trace : List LinkEvent) (a b : Outcome)
        → IsComplete dump h patience trace a → IsComplete dump h patience trace b → a ≡ b }
{}

/// What the machine does from its start to an outcome is a complete trace with that outcome.
pub fn each_run_is_a_trace()
    ensures { (dump : List ℕ) (h : Header) (patience : Patience) → 1 ≤ patience.polls → (trace : List LinkEvent) (outcome : Outcome)
        → Goes dump h patience (start patience (chunks dump)) trace outcome → IsComplete dump h patience trace outcome }
{}

/// The client runs are just the traces along which the machine has a state.
pub fn each_client_run_has_a_state()
    ensures { (dump : List ℕ) (h : Header) (patience : Patience) → 1 ≤ patience.polls → (trace : List LinkEvent)
        → IsClientRun dump h patience trace ↔ ((to : State) × Passes dump h patience (start patience (chunks dump)) trace to) }
{}

/// What the machine wants comes next in a client run: the datagram of the number that is to be sent, to the machine's port;
/// whatever a poll brings; or nothing, where the run is a complete trace with the outcome.
pub fn each_want_comes_next()
    ensures { (dump : List ℕ) (h : Header) (patience : Patience) → 1 ≤ patience.polls → (trace : List LinkEvent) (to : State)
        → Passes dump h patience (start patience (chunks dump)) trace to → ComesNext dump h patience trace (port_of to) (want_of to) }
{}

/// Each call of a client is a step of its run: after a datagram that was wanted was sent, and after a poll that was wanted,
/// the machine stands where the run with this event leaves it.
pub fn each_call_is_a_step()
    ensures sent { (dump : List ℕ) (h : Header) (patience : Patience) (trace : List LinkEvent) (to : State) (s : ℕ)
        → Passes dump h patience (start patience (chunks dump)) trace to → want_of to ≡ want.Send s
        → Passes dump h patience (start patience (chunks dump)) (trace ++ Sent (port_of to) (datagram dump h s) ∷ []) (on_sent to) }
    ensures polled { (dump : List ℕ) (h : Header) (patience : Patience) (trace : List LinkEvent) (to : State) (e : LinkEvent)
        → Passes dump h patience (start patience (chunks dump)) trace to → want_of to ≡ want.Poll → IsPolled e
        → Passes dump h patience (start patience (chunks dump)) (trace ++ e ∷ []) (on_poll patience e to) }
{}
