//! `enc_glue`: glue, and zero bytes sent to sinks that fail.
use enc_glue::{glue, send_zeros};
use mv_ends::MemSink;
use std::process::Abort;
use std::test::Fail;

/// The bytes in force, those that are wanted, whether the prefix has its own, and what is sent.
#[rattlefmt::skip]
const GLUED: [(&[u8], &[u8], bool, &[u8]); 5] = [
    (b"", b"a part", false, b"a part"),
    (b"a part", b"a part", false, b""),
    (b"a part", b"another", false, b"another"),
    (b"", b"a part", true, b""),
    (b"a part", b"another", true, b""),
];

#[test]
fn a_sequence_part_is_sent_where_it_is_not_in_force(rt: HostRuntime) {
    for (in_force, target, own_part, sent) in GLUED {
        assert_eq!(rt; glue(in_force, target, own_part), sent);
    }
}

/// How many zero bytes, the room of the sink, the writes that fail, and how many arrive.
#[rattlefmt::skip]
const SENT: [(u64, usize, &[u64], usize); 5] = [
    (0, 9000, &[], 0),
    (3, 9000, &[], 3),
    (9000, 9000, &[], 9000),
    (9000, 5000, &[], 5000),
    (9000, 9000, &[1], 4096),
];

/// So many zero bytes are sent, and so many arrive.
fn sends(rt: &impl Abort, sink: &mut MemSink, n: u64, arrives: usize) {
    assert_eq!(rt; send_zeros(n, sink).is_ok(), n == arrives as u64);
    assert_eq!(rt; sink.bytes().len(), arrives);
    assert!(rt; sink.bytes().iter().all(|byte| *byte == 0));
}

#[test]
fn zero_bytes_are_sent_up_to_the_first_failed_write(rt: HostRuntime) -> Result<(), Fail> {
    for (n, room, fails, arrives) in SENT {
        let mut sink = MemSink::failing(rt.alloc(), room, fails.to_vec(rt.alloc())?, 4096)?;
        sends(&rt, &mut sink, n, arrives);
    }
    Ok(())
}
