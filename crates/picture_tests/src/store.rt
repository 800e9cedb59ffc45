//! `mv_store`: the example of the standard (H.262, 6.1.1.11), whose thirteen pictures come out in the order of their
//! numbers, and each of which has the references that its place gives it.
use crate::comparison::same;
use mv_planes::Picture;
use mv_store::{RefStore, Shown};
use mv_terms::PicType::{self, B, I, P};
use std::process::Abort;
use std::test::Fail;

/// Each picture in coded order, by its type and its number in display order.
const CODED: [(PicType, u8); 13] = [
    (I, 1),
    (P, 4),
    (B, 2),
    (B, 3),
    (P, 7),
    (B, 5),
    (B, 6),
    (I, 10),
    (B, 8),
    (B, 9),
    (P, 13),
    (B, 11),
    (B, 12),
];

const IN_ORDER: [u8; 13] = [1, 2, 3, 4, 5, 6, 7, 8, 9, 10, 11, 12, 13];

/// Commits a picture whose samples are all its number.
fn decode(store: &mut RefStore, pic: PicType, number: u8) -> Shown {
    for v in store.lend(pic).current.samples_mut() {
        *v = number;
    }
    store.commit(pic)
}

fn number_of(picture: &Picture) -> u8 {
    picture.samples().first().copied().unwrap_or(0)
}

/// The numbers of the references that a picture of this type has if it comes next.
fn next_references(store: &RefStore, pic: PicType) -> (u8, u8) {
    let refs = store.next(pic).refs;
    (number_of(refs.forward), number_of(refs.backward))
}

fn check_next(rt: &impl Abort, store: &mut RefStore, pic: PicType, number: u8, want: (u8, u8)) {
    assert_eq!(rt; next_references(store, pic), want);
    decode(store, pic, number);
    let held = store.last(pic);
    assert_eq!(rt; number_of(held.picture), number);
    assert_eq!(rt;
        (number_of(held.refs.forward), number_of(held.refs.backward)),
        want
    );
}

/// The number of the picture that is shown when one of this type was committed.
fn shown_number(store: &RefStore, pic: PicType, answer: Shown) -> Option<u8> {
    let held = store.last(pic);
    match answer {
        Shown::Nothing => None,
        Shown::Previous => Some(number_of(held.refs.forward)),
        Shown::Current => Some(number_of(held.picture)),
    }
}

#[test]
fn pictures_come_out_in_the_order_of_their_numbers(rt: HostRuntime) -> Result<(), Fail> {
    let mut store = RefStore::start(rt.alloc(), 1, 1)?;
    let mut count = 0usize;
    for (pic, number) in CODED {
        let answer = decode(&mut store, pic, number);
        let shown = shown_number(&store, pic, answer);
        if shown.is_some() {
            same(&rt, &shown, &IN_ORDER.get(count).copied());
            count = count.saturating_add(1);
        }
    }
    same(&rt, &count, &12);
    same(&rt, &next_references(&store, P).0, &IN_ORDER[12]);
    Ok(())
}

#[test]
fn each_picture_has_the_references_of_its_place(rt: HostRuntime) -> Result<(), Fail> {
    let mut store = RefStore::start(rt.alloc(), 1, 1)?;
    check_next(&rt, &mut store, I, 1, (128, 128));
    check_next(&rt, &mut store, P, 4, (1, 128));
    check_next(&rt, &mut store, B, 2, (1, 4));
    check_next(&rt, &mut store, B, 3, (1, 4));
    check_next(&rt, &mut store, P, 7, (4, 1));
    check_next(&rt, &mut store, B, 5, (4, 7));
    Ok(())
}

#[test]
fn b_pictures_before_any_anchor_have_grey_references(rt: HostRuntime) -> Result<(), Fail> {
    let mut store = RefStore::start(rt.alloc(), 1, 1)?;
    check_next(&rt, &mut store, B, 5, (128, 128));
    check_next(&rt, &mut store, B, 6, (128, 128));
    same(&rt, &decode(&mut store, I, 7), &Shown::Nothing);
    check_next(&rt, &mut store, B, 6, (128, 7));
    Ok(())
}
