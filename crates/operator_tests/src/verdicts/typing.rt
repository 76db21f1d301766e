//! What is known at the slots of an operator, where `types` has no line, and which bytes of the
//! stack.
use super::*;

/// The tag of a register at a slot where a path leads.
fn tag(operator: &Operator, slot: u64, reg: usize) -> Option<Tag> {
    match operator.typing(slot) {
        Some(tags) => tags.get(reg).copied(),
        None => None,
    }
}

/// A wide load, a jump over a slot to `exit`.
const UNREACHED: &str = "
    wide r0, 1
    ja 1
    mov64 r0, r5
    exit
";

#[test]
fn what_no_path_reaches_is_not_typed(rt: HostRuntime) -> Result<(), Fail> {
    let operator = accepted(&rt, rt.alloc(), UNREACHED, Kind::Unary)?;
    for slot in [1, 3, 5] {
        assert_eq!(rt; operator.typing(slot), None);
    }
    assert_eq!(rt; operator.stored(1, -1), None);
    assert_eq!(rt; tag(&operator, 4, 0), Some(Tag::Number));
    Ok(())
}

/// A store, a jump over another, and a third.
const STORING: &str = "
    stx32 r10, -8, r1
    jeq64 r1, 0, 1
    stx16 r10, -512, r1
    stx8 r10, -1, r1
    mov64 r0, 0
    exit
";

/// Slots and offsets, with whether the byte there is stored.
const MARKS: [(u64, i64, bool); 10] = [
    (0, -8, false),
    (2, -9, false),
    (2, -8, true),
    (2, -5, true),
    (2, -4, false),
    (3, -512, false),
    (3, -511, false),
    (3, -5, true),
    (4, -2, false),
    (4, -1, true),
];

/// Whether a byte of the stack is stored at a slot.
fn expect_mark(rt: &impl Abort, operator: &Operator, slot: u64, place: i64, stored: bool) {
    assert!(rt; -512 <= place);
    assert!(rt; place < 0);
    assert_eq!(rt;
        operator.stored(slot, place),
        Some(stored),
        "{place} at {slot}"
    );
}

#[test]
fn bytes_stored_on_all_paths_are_marked(rt: HostRuntime) -> Result<(), Fail> {
    let operator = accepted(&rt, rt.alloc(), STORING, Kind::Unary)?;
    for (slot, place, stored) in &MARKS {
        expect_mark(&rt, &operator, *slot, *place, *stored);
    }
    Ok(())
}
