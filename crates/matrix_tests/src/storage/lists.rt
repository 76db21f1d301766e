//! Lists of entries in any order: what they make, and what they refuse.
use super::limits::LAST;
use super::{
    FIVE, Order, SIDE, Triple, assert_at, assert_count, assert_equal, assert_holds, assert_refused,
    assert_sizes, assert_starts, builder_in, entry_at, finish_again,
};
use csr_store::{EntryList, Matrix, StoreError};
use std::alloc::{AllocError, Global};
use std::process::Abort;
use std::test::Fail;

/// The matrix of a list of entries, asked for once more where memory was refused.
fn listed(
    alloc: Global,
    (rows, columns): (u64, u64),
    entries: &[Triple],
) -> Result<Matrix, StoreError> {
    match listed_once(alloc, (rows, columns), entries) {
        Err(StoreError::Memory) => listed_once(alloc, (rows, columns), entries),
        other => other,
    }
}

fn listed_once(
    alloc: Global,
    (rows, columns): (u64, u64),
    entries: &[Triple],
) -> Result<Matrix, StoreError> {
    let mut list = EntryList::new(alloc, rows.min(16_777_216), columns.min(16_777_216));
    if list.reserve(entries.len()).is_err() {
        return Err(StoreError::Memory);
    }
    for (row, column, value) in entries {
        list.push(*row, *column, *value)?;
    }
    list.finish()
}

#[test]
fn list_makes_the_matrix(rt: HostRuntime) -> Result<(), Fail> {
    let matrix = listed(rt.alloc(), (4, 4), &FIVE)?;
    assert_sizes(&rt, &matrix, (4, 4));
    assert_holds(&rt, &matrix, &FIVE);
    assert_starts(&rt, &matrix, &[0, 3, 3, 5, 5]);
    Ok(())
}

#[test]
fn empty_list_makes_a_matrix(rt: HostRuntime) -> Result<(), Fail> {
    assert_holds(&rt, &listed(rt.alloc(), (0, 0), &[])?, &[]);
    Ok(())
}

/// A list refuses an entry for its position.
fn assert_outside(rt: &impl Abort, list: &mut EntryList, (row, column, value): Triple) {
    let answer = list.push(row, column, value);
    assert_refused(rt, answer, StoreError::IndexOutOfRange);
}

/// Entries outside a matrix of 3 rows and 4 columns.
const OUTSIDE: [Triple; 3] = [(3, 0, 1), (0, 4, 1), (u64::MAX, u64::MAX, 1)];

#[test]
fn list_refuses_indices(rt: HostRuntime) -> Result<(), Fail> {
    let mut list = EntryList::new(rt.alloc(), 3, 4);
    for entry in &OUTSIDE {
        assert_outside(&rt, &mut list, *entry);
    }
    Ok(())
}

/// A list of these entries makes no matrix of 3 rows and 4 columns, since a position is given
/// twice.
fn assert_twice(rt: &impl Abort, alloc: Global, entries: &[Triple]) {
    let answer = match listed(alloc, (3, 4), entries) {
        Ok(_) => Ok(()),
        Err(error) => Err(error),
    };
    assert_refused(rt, answer, StoreError::PositionGivenTwice);
}

/// Entries of which the first and the last have one position.
const TWICE: [Triple; 4] = [(1, 2, 10), (0, 0, 3), (2, 3, 1), (1, 2, 11)];

#[test]
fn list_refuses_a_position_given_twice(rt: HostRuntime) {
    assert_twice(&rt, rt.alloc(), &TWICE);
    assert_twice(&rt, rt.alloc(), &[(0, 0, 1), (0, 0, 1)]);
}

/// The index, from 0, of the first of these entries of a matrix of 4 rows and 4 columns that has
/// the position of an earlier one.
fn first_repeat(alloc: Global, entries: &[Triple]) -> Result<Option<usize>, StoreError> {
    let mut list = EntryList::new(alloc, 4, 4);
    for (row, column, value) in entries {
        list.push(*row, *column, *value)?;
    }
    let Some(repeats) = list.repeats() else {
        return Ok(None);
    };
    let mut repeats = repeats;
    for nth in 0..entries.len() {
        let (row, column, _) = entries[nth];
        if repeats.meet(row.min(3), column.min(3)) {
            return Ok(Some(nth));
        }
    }
    Ok(None)
}

/// The first entry of these that has the position of an earlier one is this.
fn assert_first_repeat(
    rt: &impl Abort,
    alloc: Global,
    entries: &[Triple],
    wanted: Option<usize>,
) -> Result<(), Fail> {
    let answer = first_repeat(alloc, entries)?;
    assert_eq!(rt; answer, wanted);
    Ok(())
}

/// Entries of which three positions repeat. The first that does is the last of them by rows and
/// columns.
const THREE_AGAIN: [Triple; 7] = [
    (3, 3, 1),
    (1, 1, 2),
    (2, 0, 3),
    (0, 2, 4),
    (3, 3, 5),
    (0, 2, 6),
    (1, 1, 7),
];

#[test]
fn repeats_are_met_in_any_order(rt: HostRuntime) -> Result<(), Fail> {
    assert_first_repeat(&rt, rt.alloc(), &[], None)?;
    assert_first_repeat(&rt, rt.alloc(), &FIVE, None)?;
    assert_first_repeat(&rt, rt.alloc(), &[(0, 0, 1), (0, 0, 1)], Some(1))?;
    assert_first_repeat(&rt, rt.alloc(), &[(3, 1, 5), (0, 2, 1), (3, 1, 6)], Some(2))?;
    assert_first_repeat(&rt, rt.alloc(), &THREE_AGAIN, Some(4))
}

/// Entries at the corners of the largest matrix.
const CORNERS: [Triple; 3] = [(LAST, LAST, 2), (0, LAST, 1), (LAST, 0, 3)];

#[test]
fn list_reaches_the_limit(rt: HostRuntime) -> Result<(), Fail> {
    let wide = listed(rt.alloc(), (16_777_216, 16_777_216), &CORNERS)?;
    assert_count(&rt, wide.entries(), 3);
    assert_at(
        &rt,
        &wide,
        &[
            (0, LAST, Some(1)),
            (LAST, 0, Some(3)),
            (LAST, LAST, Some(2)),
        ],
    );
    Ok(())
}

/// A list for 4,096 rows and 4,097 columns that has all the entries that there may be.
fn full_list(alloc: Global) -> Result<EntryList, StoreError> {
    let mut list = EntryList::new(alloc, 4096, 4097);
    for column in 0..4096 {
        for row in 0..4096 {
            list.push(row, column, row ^ column)?;
        }
    }
    Ok(list)
}

#[test]
fn full_list_refuses_in_order(rt: HostRuntime) -> Result<(), Fail> {
    let mut list = full_list(rt.alloc())?;
    assert_outside(&rt, &mut list, (4096, 0, 1));
    assert_refused(&rt, list.push(17, 5, 1), StoreError::TooManyEntries);
    let matrix = list.finish()?;
    assert_count(&rt, matrix.entries(), 16_777_216);
    assert_at(&rt, &matrix, &[(4095, 4094, Some(1)), (17, 4096, None)]);
    Ok(())
}

/// The entries of a matrix in an order.
fn entries_in(alloc: Global, order: Order) -> Result<Vec<Triple>, AllocError> {
    let mut entries = Vec::new(alloc);
    for index in 0..30_000u64 {
        entries.push(entry_at(order, index))?;
    }
    Ok(entries)
}

/// The matrix of a list of them is this.
fn assert_agrees(
    rt: &impl Abort,
    alloc: Global,
    matrix: &Matrix,
    order: Order,
) -> Result<(), Fail> {
    let entries = entries_in(alloc, order)?;
    assert_equal(rt, matrix, &listed(alloc, (SIDE, SIDE), &entries)?);
    Ok(())
}

#[test]
fn list_and_builder_agree(rt: HostRuntime) -> Result<(), Fail> {
    let ascending = finish_again(builder_in(rt.alloc(), Order::Ascending)?)?;
    assert_agrees(&rt, rt.alloc(), &ascending, Order::Descending)?;
    assert_agrees(&rt, rt.alloc(), &ascending, Order::Mixed)
}
