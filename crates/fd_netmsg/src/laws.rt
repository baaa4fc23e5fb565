//! What holds of messages and acknowledgements, whoever writes or reads them.

ghost use Rattle.std.specs.Prelude.{◌≡◌, ℕ, ◌<◌, ◌^◌, Some};
ghost use Rattle.fd_netmsg.specs.Message.{Message, IsMessage, ack, message_of, read_ack, spelled};

/// A message whose parts lie within their fields is read back from its bytes.
pub fn each_message_is_read_back()
    ensures { (m : Message) → IsMessage m → message_of (spelled m) ≡ Some m }
{}

/// An acknowledgement is read back as its number.
pub fn each_acknowledgement_is_read_back()
    ensures { (seqno : ℕ) → seqno < 2 ^ 32 → read_ack (ack seqno) ≡ Some seqno }
{}
