//! `mv_bits`: the window over known fields, cuts at start codes, and the receivers of bits.
use crate::comparison::{same, same_bytes};
use mv_bits::{
    BitWindow, BitWriter, CompareWith, Put, Room, code, element_len, has_no_front, is_start,
    next_start, payload, split_element,
};
use std::test::Fail;

/// The sequence header of a 720x576 stream.
const HEADER: [u8; 12] = [
    0, 0, 1, 0xB3, 0x2D, 0x02, 0x40, 0x33, 0xFF, 0xFF, 0xE0, 0x18,
];

#[test]
fn a_window_reads_the_fields_of_a_sequence_header(rt: HostRuntime) {
    let mut window = BitWindow::new(payload(&HEADER));
    same(&rt, &window.take(12), &720);
    same(&rt, &window.take(12), &576);
    same(&rt, &window.peek(8), &0x33);
    same(&rt, &window.take(8), &0x33);
    same(&rt, &window.take(18), &0x3FFFF);
    same(&rt, &window.take(1), &1);
    assert!(rt; !window.rest_zero());
    assert!(rt; !window.at_end_mark());
    same(&rt, &window.take(10), &3);
    assert!(rt; window.rest_zero());
}

#[test]
fn zeros_stand_behind_the_last_byte(rt: HostRuntime) {
    let mut window = BitWindow::new(&[0x80, 0x01]);
    same(&rt, &window.peek(32), &0x8001_0000);
    same(&rt, &window.take(15), &0x4000);
    assert!(rt; !window.rest_zero());
    same(&rt, &window.take(32), &0x8000_0000);
    assert!(rt; window.at_end_mark());
    assert!(rt; window.rest_zero());
    same(&rt, &window.take(32), &0);
}

#[test]
fn bytes_are_cut_at_every_start_code(rt: HostRuntime) -> Result<(), Fail> {
    let bytes = [7, 0, 0, 0, 1, 0xB3, 9, 0, 0, 1, 0, 0, 1, 0xB8, 0, 0, 1];
    assert!(rt; !has_no_front(&bytes));
    same(&rt, &next_start(&bytes), &2);
    let elements = &bytes[2..];
    assert!(rt; is_start(elements));
    same(&rt, &element_len(elements), &5);
    assert!(rt; has_no_front(elements));
    let (first, others) = split_element(elements).ok_or("no first element")?;
    let (second, others) = split_element(others).ok_or("no second element")?;
    let (third, others) = split_element(others).ok_or("no third element")?;
    let (fourth, others) = split_element(others).ok_or("no fourth element")?;
    assert!(rt; split_element(others).is_none());
    let codes = [code(first), code(second), code(third), code(fourth)];
    same(&rt, &codes, &[0xB3, 0, 0xB8, 0]);
    same(&rt, &payload(first).len(), &1);
    same(&rt, &second.len(), &3);
    Ok(())
}

#[test]
fn bits_are_put_as_whole_bytes(rt: HostRuntime) -> Result<(), Fail> {
    let mut room = Room::take(rt.alloc(), 4)?;
    let mut out = BitWriter::new();
    out.put(720, 12, &mut room);
    out.put(576, 12, &mut room);
    out.put(0b101, 3, &mut room);
    same_bytes(&rt, room.bytes(), &[]);
    out.align(&mut room);
    out.align(&mut room);
    same_bytes(&rt, room.bytes(), &[0x2D, 0x02, 0x40, 0xA0]);
    out.put(0xFFFF_FFFF, 32, &mut room);
    same_bytes(&rt, room.bytes(), &[0x2D, 0x02, 0x40, 0xA0]);
    room.clear();
    same_bytes(&rt, room.bytes(), &[]);
    out.put(0xDEAD_BEEF, 32, &mut room);
    same_bytes(&rt, room.bytes(), &[0xDE, 0xAD, 0xBE, 0xEF]);
    Ok(())
}

#[test]
fn a_room_is_settled_when_it_is_full(rt: HostRuntime) -> Result<(), Fail> {
    let mut room = Room::take(rt.alloc(), 2)?;
    room.put_byte(1);
    same(&rt, &room.is_settled(), &false);
    room.put_byte(2);
    same(&rt, &room.is_settled(), &true);
    room.put_byte(3);
    same_bytes(&rt, room.bytes(), &[1, 2]);
    Ok(())
}

#[test]
fn a_comparison_is_settled_when_a_byte_differs(rt: HostRuntime) {
    let mut compare = CompareWith::new(&[5, 0], 1);
    for byte in [5, 0, 0] {
        compare.put_byte(byte);
        assert!(rt; !compare.is_settled());
    }
    compare.put_byte(0);
    assert!(rt; compare.is_settled());
}

/// Bytes, and whether they are 5, 0 and at most two zero bytes more.
const COMPARED: &[(&[u8], bool)] = &[
    (&[5, 0], true),
    (&[5, 0, 0, 0], true),
    (&[5], false),
    (&[5, 1], false),
    (&[4, 0], false),
    (&[5, 0, 1], false),
    (&[5, 0, 0, 0, 0], false),
    (&[4, 0, 5, 0], false),
    (&[], false),
];

#[test]
fn a_comparison_takes_its_bytes_and_some_zeros(rt: HostRuntime) {
    for (bytes, equal) in COMPARED {
        let mut compare = CompareWith::new(&[5, 0], 2);
        for byte in *bytes {
            compare.put_byte(*byte);
        }
        assert_eq!(rt; compare.equal(), *equal, "{bytes:?}");
    }
}
