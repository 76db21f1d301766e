//! Prices of each form, whole and under masks.
use super::*;

/// One by one, with an entry.
const ONE: Given = Of(1, 1, &[(0, 0, 41)]);

/// An apply of x + 1.
const INCREMENTED: Tried = Tried::Apply {
    kind: Kind::Unary,
    text: INCREMENT,
    thunk: None,
};
/// An apply of two instructions in three slots.
const WIDENED: Tried = Tried::Apply {
    kind: Kind::Unary,
    text: WIDE,
    thunk: None,
};

/// Applies without a thunk.
const APPLIES: [Case; 3] = [
    Case {
        tried: INCREMENTED,
        left: ONE,
        right: None,
        mask: None,
        wanted: Ok(3),
    },
    Case {
        tried: WIDENED,
        left: ONE,
        right: None,
        mask: None,
        wanted: Ok(2),
    },
    Case {
        tried: INCREMENTED,
        left: ONE,
        right: None,
        mask: Some(Of(1, 1, &[])),
        wanted: Ok(0),
    },
];

#[test]
fn apply_counts_entries_by_instructions(rt: HostRuntime) -> Result<(), Fail> {
    assert_cases(&rt, rt.alloc(), &APPLIES)
}

/// An apply of four instructions with the thunk 7.
const PLACED: Tried = Tried::Apply {
    kind: Kind::Index,
    text: DIAGONAL,
    thunk: Some(7),
};

/// An apply with a thunk, and selections.
const BY_INDEX: [Case; 3] = [
    Case {
        tried: PLACED,
        left: Full(2, 2),
        right: None,
        mask: None,
        wanted: Ok(16),
    },
    Case {
        tried: Tried::Select,
        left: Full(2, 2),
        right: None,
        mask: None,
        wanted: Ok(16),
    },
    Case {
        tried: Tried::Select,
        left: Full(2, 2),
        right: None,
        mask: Some(Of(2, 2, &[(1, 0, 0)])),
        wanted: Ok(4),
    },
];

#[test]
fn apply_with_a_thunk_and_select_want_index_operators(rt: HostRuntime) -> Result<(), Fail> {
    assert_cases(&rt, rt.alloc(), &BY_INDEX)
}

/// A row of two entries.
const TWO: Given = Of(1, 2, &[(0, 0, 10), (0, 1, 3)]);
/// A row with the first entry.
const FIRST_OF_TWO: Given = Of(1, 2, &[(0, 0, 4)]);
/// A row with no entry.
const NONE_OF_TWO: Given = Of(1, 2, &[]);
/// A row with the second entry.
const LAST_OF_TWO: Given = Of(1, 2, &[(0, 1, 0)]);
/// Unions, and what stands in both.
const JOINED: [Case; 5] = [
    Case {
        tried: Tried::Union,
        left: TWO,
        right: Some(FIRST_OF_TWO),
        mask: None,
        wanted: Ok(3),
    },
    Case {
        tried: Tried::Union,
        left: NONE_OF_TWO,
        right: Some(TWO),
        mask: None,
        wanted: Ok(0),
    },
    Case {
        tried: Tried::Union,
        left: TWO,
        right: Some(FIRST_OF_TWO),
        mask: Some(LAST_OF_TWO),
        wanted: Ok(3),
    },
    Case {
        tried: Tried::Union,
        left: TWO,
        right: Some(TWO),
        mask: Some(NONE_OF_TWO),
        wanted: Ok(0),
    },
    Case {
        tried: Tried::Both,
        left: FIRST_OF_TWO,
        right: Some(TWO),
        mask: None,
        wanted: Ok(3),
    },
];

#[test]
fn union_and_both_count_the_lesser_row(rt: HostRuntime) -> Result<(), Fail> {
    assert_cases(&rt, rt.alloc(), &JOINED)
}

/// Products, whole and under masks.
const PRODUCTS: [Case; 5] = [
    Case {
        tried: Tried::Product,
        left: TWO,
        right: Some(Of(2, 1, &[(0, 0, 1), (1, 0, 1)])),
        mask: None,
        wanted: Ok(12),
    },
    Case {
        tried: Tried::Product,
        left: Of(1, 2, &[(0, 0, 10)]),
        right: Some(Of(2, 1, &[(1, 0, 1)])),
        mask: None,
        wanted: Ok(0),
    },
    Case {
        tried: Tried::Product,
        left: Full(2, 2),
        right: Some(Full(2, 2)),
        mask: Some(Of(2, 2, &[(0, 0, 0), (1, 1, 0)])),
        wanted: Ok(48),
    },
    Case {
        tried: Tried::Product,
        left: Full(2, 2),
        right: Some(Full(2, 2)),
        mask: Some(Of(2, 2, &[(0, 0, 0)])),
        wanted: Ok(24),
    },
    Case {
        tried: Tried::Product,
        left: Full(2, 2),
        right: Some(Full(2, 2)),
        mask: Some(Of(2, 2, &[])),
        wanted: Ok(0),
    },
];

#[test]
fn product_counts_multiplications(rt: HostRuntime) -> Result<(), Fail> {
    assert_cases(&rt, rt.alloc(), &PRODUCTS)
}

/// A row of three entries, and a row of none.
const THREE: Given = Of(2, 3, &[(0, 0, 10), (0, 1, 3), (0, 2, 2)]);

/// Reductions, whole and under masks.
const REDUCTIONS: [Case; 3] = [
    Case {
        tried: Tried::Reduce,
        left: THREE,
        right: None,
        mask: None,
        wanted: Ok(6),
    },
    Case {
        tried: Tried::Reduce,
        left: THREE,
        right: None,
        mask: Some(Of(2, 1, &[])),
        wanted: Ok(0),
    },
    Case {
        tried: Tried::Reduce,
        left: THREE,
        right: None,
        mask: Some(Of(2, 1, &[(0, 0, 0)])),
        wanted: Ok(6),
    },
];

#[test]
fn reduce_counts_one_less_a_row(rt: HostRuntime) -> Result<(), Fail> {
    assert_cases(&rt, rt.alloc(), &REDUCTIONS)
}

/// An operator of so many instructions before `exit`.
fn long_operator(alloc: Global, count: u64) -> Result<Arc<Operator>, Fail> {
    let mut text = String::new(alloc);
    for _ in 0..count {
        text.push_str("mov64 r0, r1\n")?;
    }
    text.push_str("exit")?;
    operator(alloc, Kind::Binary, &text)
}

/// A column of so many rows times a row of 4,096 columns, added by an operator of so many
/// instructions before `exit`, has this price, or this fault.
fn assert_large(
    rt: &impl Abort,
    alloc: Global,
    count: u64,
    rows: u64,
    wanted: Result<u64, JobError>,
) -> Result<(), Fail> {
    let add = long_operator(alloc, count)?;
    let mul = operator(alloc, Kind::Binary, MULTIPLY)?;
    let left = full(alloc, rows, 1)?;
    let right = full(alloc, 1, 4096)?;
    let product = Form::Product {
        add,
        mul,
        left,
        right,
    };
    assert_priced(rt, alloc, product, None, wanted)
}

#[test]
fn highest_price_is_taken(rt: HostRuntime) -> Result<(), Fail> {
    assert_large(&rt, rt.alloc(), 252, 4096, Ok(4_294_967_296))?;
    assert_large(&rt, rt.alloc(), 253, 4096, Err(JobError::PriceTooHigh))?;
    assert_large(&rt, rt.alloc(), 253, 4097, Err(JobError::ResultTooLarge))
}
