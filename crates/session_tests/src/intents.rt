//! Files with an intent behind its gate, made by hand: the items are made at the opening, or the file is refused.

use super::rows::{answered, changed, see_kept, see_session};
use super::upgrades::see_upgraded;
use mem_sessions::{Part, SMOOTH};
use std::alloc::{AllocError, Global};
use std::process::Abort;

// Places in the header page: the intent's gate, and the intent, which ends with the page.
const GATE: usize = 640;

const INTENT: usize = 3584;

// A copy of a file with an intent, and this byte for its gate.
fn with_intent(rt: &impl Abort, alloc: Global, file: &[u8], gate: u8, intent: &[u8]) -> Vec<u8> {
    let mut copy = changed(rt, alloc, file, &[(GATE, gate)]);
    for (offset, byte) in intent.iter().enumerate() {
        if let Some(old) = copy.get_mut(INTENT.saturating_add(offset)) {
            *old = *byte;
        }
    }
    copy
}

// The intent of `batch put a 1 ; remove c`.
const SPELLED: &[u8] = &[2, 1, 1, 1, b'a', b'1', 2, 1, 0, b'c'];

/// Its items are made, and in no ledger; then the gate is 0, and the next opening leaves every byte.
#[test]
fn an_odd_gate_has_the_items_made(rt: HostRuntime) {
    let parts = [Part::Lines(b"put c 3\n", b"stored\n")];
    let file = answered(&rt, rt.alloc(), "0", &parts);
    for gate in [1, 0xFF] {
        let left = with_intent(&rt, rt.alloc(), &file, gate, SPELLED);
        let script = b"cost\nget a\nget c\n";
        let said = b"cost updates=0 charge=0 bound=32\nfound 1\nabsent\n".as_slice();
        let opened = see_session(&rt, rt.alloc(), &left, script, SMOOTH, (0, said));
        assert_eq!(rt; opened.file.get(GATE).copied(), Some(0));
        see_kept(&rt, rt.alloc(), &opened.file, script, (0, said));
    }
}

/// An even gate is left as it is, and what stands in the place of an intent too.
#[test]
fn an_even_gate_has_nothing_made(rt: HostRuntime) {
    let parts = [Part::Lines(b"put c 3\n", b"stored\n")];
    let file = answered(&rt, rt.alloc(), "0", &parts);
    for (gate, intent) in [(0, SPELLED), (2, SPELLED), (0xFE, &[17])] {
        let left = with_intent(&rt, rt.alloc(), &file, gate, intent);
        let said = b"absent\nfound 3\n".as_slice();
        see_kept(&rt, rt.alloc(), &left, b"get a\nget c\n", (0, said));
    }
}

/// A batch that is opened at a full store makes room first.
#[test]
fn items_make_room_for_one_another(rt: HostRuntime) {
    let file = answered(&rt, rt.alloc(), "0", &[Part::Put(1, 64)]);
    let intent = [2, 2, 4, 0, b'k', b'0', b'0', b'1', 1, 1, 0, b'x'];
    let left = with_intent(&rt, rt.alloc(), &file, 1, &intent);
    let said = b"found\nabsent\ncheck ok records=64 height=0\n".as_slice();
    let script = b"get x\nget k001\ncheck\n";
    see_session(&rt, rt.alloc(), &left, script, SMOOTH, (0, said));
}

// An intent, and the line of the refusal.
type Refused = (&'static [u8], &'static [u8]);

// In an empty store of one segment.
const REFUSED: &[Refused] = &[
    (&[0], b"refused intent 3584\n"),
    (&[17], b"refused intent 3584\n"),
    (&[1, 3, 1, 0, b'a'], b"refused intent 3585\n"),
    (&[1, 1, 0, 0], b"refused intent 3585\n"),
    (&[1, 1, 25, 0], b"refused intent 3585\n"),
    (&[1, 1, 1, 33, b'a'], b"refused intent 3585\n"),
    (&[1, 2, 1, 1, b'c', b'd'], b"refused intent 3585\n"),
    (&[2, 1, 1, 0, b'a', 2, 1, 0, b'a'], b"refused intent 3589\n"),
];

// Sees that a file is refused for its intent, and keeps every byte.
fn see_refused(rt: &impl Abort, alloc: Global, file: &[u8], intent: &[u8], line: &[u8]) {
    let left = with_intent(rt, alloc, file, 1, intent);
    see_kept(rt, alloc, &left, b"get a\n", (3, line));
}

#[test]
fn what_is_wrong_with_an_intent_is_said(rt: HostRuntime) {
    let empty = answered(&rt, rt.alloc(), "0", &[]);
    for (intent, line) in REFUSED {
        see_refused(&rt, rt.alloc(), &empty, intent, line);
    }
}

// Nine puts of a key of 24 bytes and a value of 32, each of 59 bytes, as far as there is room for them.
fn nine_puts(alloc: Global) -> Result<Vec<u8>, AllocError> {
    let mut intent = Vec::from_slice(alloc, &[9])?;
    for number in b"123456789" {
        intent.extend_from_slice(&[1, 24, 32, *number])?;
        intent.extend_from_slice(&[b'k'; 23])?;
        intent.extend_from_slice(&[b'v'; 32])?;
    }
    intent.truncate(512);
    Ok(intent)
}

/// The ninth begins at 4057 and would end behind the page.
#[test]
fn an_item_past_the_page_is_refused(rt: HostRuntime) {
    let empty = answered(&rt, rt.alloc(), "0", &[]);
    let intent = nine_puts(rt.alloc()).expect(&rt, "memory");
    see_refused(&rt, rt.alloc(), &empty, &intent, b"refused intent 4057\n");
}

/// A put that finds no room is refused by its place: the first item, or one behind a put of a present key.
#[test]
fn a_put_without_room_is_refused(rt: HostRuntime) {
    let full = answered(&rt, rt.alloc(), "0", &[Part::Put(1, 64)]);
    for (intent, line) in [
        (
            [1, 1, 1, 0, b'x'].as_slice(),
            b"refused intent 3585\n".as_slice(),
        ),
        (
            &[2, 1, 4, 0, b'k', b'0', b'0', b'1', 1, 1, 0, b'x'],
            b"refused intent 3592\n",
        ),
        (
            &[2, 1, 1, 0, b'x', 2, 4, 0, b'k', b'0', b'0', b'1'],
            b"refused intent 3585\n",
        ),
    ] {
        see_refused(&rt, rt.alloc(), &full, intent, line);
    }
}

/// What is wrong with the segments is said before.
#[test]
fn an_intent_is_validated_last(rt: HostRuntime) {
    let empty = answered(&rt, rt.alloc(), "0", &[]);
    let bad = changed(&rt, rt.alloc(), &empty, &[(24576, 2)]);
    see_refused(&rt, rt.alloc(), &bad, &[0], b"refused slot 0 0\n");
}

/// An upgrade makes the items first, so that the longer slots find no intent.
#[test]
fn an_upgrade_makes_the_items(rt: HostRuntime) {
    let file = answered(&rt, rt.alloc(), "2", &[Part::Put(1, 64)]);
    let intent = [
        2, 1, 4, 0, b'k', b'0', b'6', b'5', 2, 4, 0, b'k', b'0', b'0', b'1',
    ];
    let left = with_intent(&rt, rt.alloc(), &file, 1, &intent);
    let wide = see_upgraded(&rt, rt.alloc(), &left, (0, b""));
    assert_eq!(rt; wide.get(GATE).copied(), Some(0));
    let said = b"found\nabsent\ncheck ok records=64 height=1\n".as_slice();
    see_kept(
        &rt,
        rt.alloc(),
        &wide,
        b"get k065\nget k001\ncheck\n",
        (0, said),
    );
}

/// Sizes are those of the file's format.
#[test]
fn an_intent_of_longer_records(rt: HostRuntime) {
    let file = answered(&rt, rt.alloc(), "1", &[]);
    let mut intent = [b'k'; 45];
    intent[..4].copy_from_slice(&[1, 1, 25, 0]);
    see_refused(&rt, rt.alloc(), &file, &intent, b"refused intent 3585\n");
    let wide = see_upgraded(&rt, rt.alloc(), &file, (0, b""));
    let left = with_intent(&rt, rt.alloc(), &wide, 1, &intent);
    let said = b"found\nabsent\n".as_slice();
    let script = b"get kkkkkkkkkkkkkkkkkkkkkkkkk\nget k\n";
    see_session(&rt, rt.alloc(), &left, script, SMOOTH, (0, said));
    let left = changed(&rt, rt.alloc(), &left, &[(INTENT + 2, 41)]);
    see_kept(
        &rt,
        rt.alloc(),
        &left,
        b"get k\n",
        (3, b"refused intent 3585\n"),
    );
}
