ghost use Rattle.std.specs.Prelude.{◌≤◌, length};
ghost use Rattle.fd_netmsg.specs.Message.{IsKind};

use super::*;

// The herald, the eighth chunk, and the finished message of a dump of eight chunks.
#[test]
fn messages_are_spelled_as_netdump_spells_them(rt: HostRuntime) {
    let herald = b"\0\0\0\x01\0\0\0\x01\0\0\0\0\0\0\0\0\0\0\0\0\0\0\0\0\xee\xee";
    assert!(rt; is_spelled(HERALD, 1, 0, &[], herald));
    let chunk = b"\0\0\0\x03\0\0\0\x09\0\0\0\0\0\0\x70\0\0\0\x10\0\0\0\0\0\x55";
    assert!(rt; is_spelled(VMCORE, 9, 0x7000, &[0x55; 4096], chunk));
    let finished = b"\0\0\0\x02\0\0\0\x0b\0\0\0\0\0\0\0\0\0\0\0\0\0\0\0\0\xee\xee";
    assert!(rt; is_spelled(FINISHED, 11, 0, &[], finished));
}

fn is_spelled(kind: u32, seqno: u32, offset: u64, body: &[u8], front: &[u8]) -> bool
    requires kind { IsKind kind }
    requires body { length body.now ≤ 4096 }
{
    let mut out = [0xee; 4120];
    put_message(kind, seqno, offset, body, &mut out) == 24 + body.len() && out.starts_with(front)
}

#[test]
fn a_message_is_read_with_any_auxiliary_number(rt: HostRuntime) {
    let bytes = b"\0\0\0\x04\0\0\0\x0a\0\0\0\0\0\0\x70\0\0\0\0\x02\x01\x02\x03\x04kd";
    match read_message(bytes) {
        None => assert!(rt; false),
        Some(m) => {
            assert_eq!(rt;
                (m.kind, m.seqno, m.offset, m.aux),
                (KDH, 10, 0x7000, 0x0102_0304)
            );
            assert_eq!(rt; m.body, b"kd".as_slice());
        }
    }
}

#[test]
fn what_is_no_message_is_refused(rt: HostRuntime) {
    let refused = [
        b"\0\0\0\x01\0\0\0\x01\0\0\0\0\0\0\0\0\0\0\0\0\0\0\0".as_slice(),
        b"\0\0\0\0\0\0\0\x01\0\0\0\0\0\0\0\0\0\0\0\0\0\0\0\0".as_slice(),
        b"\0\0\0\x06\0\0\0\x01\0\0\0\0\0\0\0\0\0\0\0\0\0\0\0\0".as_slice(),
        b"\0\0\0\x03\0\0\0\x02\0\0\0\0\0\0\0\0\0\0\0\x02\0\0\0\0x".as_slice(),
        b"\0\0\0\x03\0\0\0\x02\0\0\0\0\0\0\0\0\0\0\0\0\0\0\0\0x".as_slice(),
    ];
    for bytes in refused {
        assert!(rt; read_message(bytes).is_none());
    }
    let mut long = [0; 4121];
    fd_bytes::put_u32_be(&mut long, 0, VMCORE);
    fd_bytes::put_u32_be(&mut long, 16, 4097);
    assert!(rt; read_message(&long).is_none());
}

#[test]
fn an_acknowledgement_is_four_bytes(rt: HostRuntime) {
    assert_eq!(rt; put_ack(11), *b"\0\0\0\x0b");
    assert_eq!(rt; read_ack(b"\0\0\0\x0b"), Some(11));
    assert_eq!(rt; read_ack(b"\0\0\x0b"), None);
    assert_eq!(rt; read_ack(b"\0\0\0\x0b\0"), None);
}
