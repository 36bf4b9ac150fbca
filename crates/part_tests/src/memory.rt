//! Slots side by side in memory.

use raw_slots::{RawSlots, SLOT_SIZE};

const A: [u8; SLOT_SIZE] = [1; SLOT_SIZE];

const B: [u8; SLOT_SIZE] = [2; SLOT_SIZE];

const C: [u8; SLOT_SIZE] = [3; SLOT_SIZE];

const EMPTY: [u8; SLOT_SIZE] = [0; SLOT_SIZE];

#[test]
fn a_run_moves_over_itself(rt: HostRuntime) {
    let mut slots = RawSlots::new(rt.alloc(), 4).expect(&rt, "memory");
    slots.set_slot(0, &A);
    slots.set_slot(1, &B);
    slots.set_slot(2, &C);
    slots.move_run(0, 1, 3);
    for (i, slot) in [A, A, B, C].iter().enumerate() {
        assert!(rt; slots.slot(i) == *slot, "slot {i} after a move up");
    }
    slots.clear_run(0, 1);
    for (i, slot) in [EMPTY, A, B, C].iter().enumerate() {
        assert!(rt;
            slots.slot(i) == *slot,
            "slot {i} once the first is cleared"
        );
    }
    slots.move_run(1, 0, 3);
    for (i, slot) in [A, B, C, C].iter().enumerate() {
        assert!(rt; slots.slot(i) == *slot, "slot {i} after a move down");
    }
}

#[test]
fn bytes_lie_slot_by_slot(rt: HostRuntime) {
    let mut slots = RawSlots::new(rt.alloc(), 3).expect(&rt, "memory");
    slots.bytes_mut(1, 2)[SLOT_SIZE + 5] = 7;
    assert_eq!(rt; slots.slot(2)[5], 7);
    assert_eq!(rt; slots.bytes(0, 3)[2 * SLOT_SIZE + 5], 7);
}

#[test]
fn no_memory_is_large_enough(rt: HostRuntime) {
    assert!(rt; RawSlots::new(rt.alloc(), usize::MAX).is_err());
    assert!(rt; RawSlots::new(rt.alloc(), 0).is_ok());
}
