//! Each call once with ample memory, the refusals in their order, and full builders. Every test but
//! the full ones also passes where any one allocation is refused: it then asks again, and finds
//! what was put before.
use csr_store::{Builder, Matrix, StoreError, Version};
use std::alloc::{AllocError, Global};
use std::process::Abort;
use std::sync::Arc;
use std::test::Fail;

mod columns;
mod limits;
mod lists;
mod rows;

/// An entry: its row, its column and its value.
type Triple = (u64, u64, u64);

/// Puts an entry, and once more where memory was refused.
fn put_again(builder: &mut Builder, (row, column, value): Triple) -> Result<(), StoreError> {
    match builder.put(row, column, value) {
        Err(StoreError::Memory) => builder.put(row, column, value),
        other => other,
    }
}

/// The matrix of a builder, asked for once more where memory was refused.
fn finish_again(builder: Builder) -> Result<Matrix, AllocError> {
    let builder = match builder.finish() {
        Ok(matrix) => return Ok(matrix),
        Err(builder) => builder,
    };
    finish_once(builder)
}

/// The matrix of a builder.
fn finish_once(builder: Builder) -> Result<Matrix, AllocError> {
    match builder.finish() {
        Ok(matrix) => Ok(matrix),
        Err(_) => Err(AllocError),
    }
}

/// Puts entries one after another, each once more where memory was refused.
fn put_all(builder: &mut Builder, entries: &[Triple]) -> Result<(), StoreError> {
    for entry in entries {
        put_again(builder, *entry)?;
    }
    Ok(())
}

/// The value of the first of these entries that stands at a position.
fn value_of(entries: &[Triple], i: u64, j: u64) -> Option<u64> {
    for (row, column, value) in entries {
        if *row == i && *column == j {
            return Some(*value);
        }
    }
    None
}

/// A count is this.
fn assert_count(rt: &impl Abort, count: u64, wanted: u64) {
    assert_eq!(rt; count, wanted);
}

/// A matrix has these sizes.
fn assert_sizes(rt: &impl Abort, matrix: &Matrix, sizes: (u64, u64)) {
    assert_eq!(rt; (matrix.rows(), matrix.columns()), sizes);
}

/// So many entries stand before each row of a matrix, and at its end.
fn assert_starts(rt: &impl Abort, matrix: &Matrix, starts: &[u64]) {
    assert_eq!(rt; matrix.starts(), starts);
}

/// A position of a matrix has this value, or none.
fn assert_value(rt: &impl Abort, matrix: &Matrix, i: u64, j: u64, wanted: Option<u64>) {
    assert_eq!(rt; matrix.get(i, j), wanted, "at {i}, {j}");
}

/// Every position of the matrix has the value of `entries`, or none.
fn assert_holds(rt: &impl Abort, matrix: &Matrix, entries: &[Triple]) {
    assert_count(rt, matrix.entries(), entries.len() as u64);
    for i in 0..matrix.rows() {
        for j in 0..matrix.columns() {
            assert_value(rt, matrix, i, j, value_of(entries, i, j));
        }
    }
}

/// Positions of a matrix have these values, or none.
fn assert_at(rt: &impl Abort, matrix: &Matrix, wanted: &[(u64, u64, Option<u64>)]) {
    for (i, j, value) in wanted {
        assert_value(rt, matrix, *i, *j, *value);
    }
}

/// A row of a matrix has these cells.
fn assert_row(rt: &impl Abort, matrix: &Matrix, i: u64, cells: &[(u64, u64)]) {
    assert!(rt; i < matrix.rows());
    assert_eq!(rt; matrix.row(i), cells, "row {i}");
}

/// Rows of a matrix have these cells.
fn assert_rows(rt: &impl Abort, matrix: &Matrix, rows: &[(u64, &[(u64, u64)])]) {
    for (i, cells) in rows {
        assert_row(rt, matrix, *i, cells);
    }
}

/// Something that a builder or a list was asked for was refused for this.
fn assert_refused(rt: &impl Abort, answer: Result<(), StoreError>, error: StoreError) {
    assert_eq!(rt; answer, Err(error));
}

/// Five entries in no order.
const FIVE: [Triple; 5] = [(2, 1, 5), (0, 3, 7), (0, 0, u64::MAX), (2, 0, 0), (0, 1, 3)];

/// The rows that these make.
const ROWS_OF_FIVE: [(u64, &[(u64, u64)]); 3] = [
    (0, &[(0, u64::MAX), (1, 3), (3, 7)]),
    (1, &[]),
    (2, &[(0, 0), (1, 5)]),
];

#[test]
fn finds_what_was_put(rt: HostRuntime) -> Result<(), Fail> {
    let mut builder = Builder::new(rt.alloc(), 3, 4);
    put_all(&mut builder, &FIVE)?;
    let matrix = finish_again(builder)?;
    assert_sizes(&rt, &matrix, (3, 4));
    assert_holds(&rt, &matrix, &FIVE);
    assert_at(&rt, &matrix, &[(3, 0, None), (0, 4, None)]);
    assert_rows(&rt, &matrix, &ROWS_OF_FIVE);
    Ok(())
}

/// What is refused behind an entry at row 1 and column 2, and for what.
const REFUSED: [(Triple, StoreError); 5] = [
    ((3, 0, 1), StoreError::IndexOutOfRange),
    ((0, 4, 1), StoreError::IndexOutOfRange),
    ((u64::MAX, u64::MAX, 1), StoreError::IndexOutOfRange),
    ((1, 2, 11), StoreError::PositionGivenTwice),
    ((1, 2, 10), StoreError::PositionGivenTwice),
];

/// A builder refuses entries, each asked for once more where memory was refused.
fn assert_all_refused(rt: &impl Abort, builder: &mut Builder, refused: &[(Triple, StoreError)]) {
    for (entry, error) in refused {
        assert_refused(rt, put_again(builder, *entry), *error);
    }
}

#[test]
fn refuses_and_goes_on(rt: HostRuntime) -> Result<(), Fail> {
    let mut builder = Builder::new(rt.alloc(), 3, 4);
    put_again(&mut builder, (1, 2, 10))?;
    assert_all_refused(&rt, &mut builder, &REFUSED);
    put_again(&mut builder, (2, 3, 12))?;
    assert_holds(&rt, &finish_again(builder)?, &[(1, 2, 10), (2, 3, 12)]);
    Ok(())
}

#[test]
fn a_matrix_of_no_rows(rt: HostRuntime) -> Result<(), Fail> {
    let mut none = Builder::new(rt.alloc(), 0, 0);
    assert_refused(&rt, none.put(0, 0, 1), StoreError::IndexOutOfRange);
    assert_holds(&rt, &finish_again(none)?, &[]);
    Ok(())
}

#[test]
fn version_has_several_owners(rt: HostRuntime) -> Result<(), Fail> {
    let mut builder = Builder::new(rt.alloc(), 1, 1);
    put_again(&mut builder, (0, 0, 41))?;
    let matrix = finish_again(builder)?;
    let first: Version = match Arc::new(rt.alloc(), matrix) {
        Ok(version) => version,
        Err(refused) => Arc::new(rt.alloc(), refused.value)?,
    };
    let second = Arc::try_clone(&first)?;
    drop(first);
    assert_eq!(rt; second.get(0, 0), Some(41));
    Ok(())
}

/// Errors, each with its name and as it is shown.
const ERRORS: [(StoreError, &str, &str); 4] = [
    (
        StoreError::IndexOutOfRange,
        "J1",
        "J1: the row or the column is outside the matrix",
    ),
    (
        StoreError::PositionGivenTwice,
        "J2",
        "J2: the position has an entry already",
    ),
    (
        StoreError::TooManyEntries,
        "J3",
        "J3: a matrix has at most 16777216 entries",
    ),
    (StoreError::Memory, "memory", "no memory for the entry"),
];

/// What an error is shown as, asked for once more where memory was refused.
fn shown(alloc: Global, error: StoreError) -> Result<String, Fail> {
    let mut text = String::new(alloc);
    if write!(text, "{error}").is_err() {
        text.clear();
        write!(text, "{error}")?;
    }
    Ok(text)
}

/// An error has this name, and is shown as this.
fn assert_named(
    rt: &impl Abort,
    alloc: Global,
    error: StoreError,
    name: &str,
    text: &str,
) -> Result<(), Fail> {
    assert_eq!(rt; error.name(), name);
    assert_eq!(rt; shown(alloc, error)?.as_str(), text);
    Ok(())
}

#[test]
fn errors_are_named(rt: HostRuntime) -> Result<(), Fail> {
    for (error, name, text) in &ERRORS {
        assert_named(&rt, rt.alloc(), *error, name, text)?;
    }
    Ok(())
}

/// Two matrices have the same sizes, starts and rows.
fn assert_equal(rt: &impl Abort, left: &Matrix, right: &Matrix) {
    assert_sizes(rt, left, (right.rows(), right.columns()));
    assert_starts(rt, left, right.starts());
    for i in 0..left.rows().min(right.rows()) {
        assert_row(rt, left, i, right.row(i));
    }
}

/// Rows and columns of a matrix whose first 30,000 positions have entries.
const SIDE: u64 = 200;

/// In which order the entries of that matrix come.
#[derive(Clone, Copy)]
enum Order {
    Ascending,
    Descending,
    Mixed,
}

/// The entry that comes behind so many others.
fn entry_at(order: Order, index: u64) -> Triple {
    let k = match order {
        Order::Ascending => index,
        Order::Descending => 29_999u64.wrapping_sub(index),
        Order::Mixed => index.wrapping_mul(7_919) % 30_000,
    };
    (k / SIDE, k % SIDE, k)
}

/// A builder that was given these entries in an order.
fn builder_in(alloc: Global, order: Order) -> Result<Builder, StoreError> {
    let mut builder = Builder::new(alloc, SIDE, SIDE);
    for index in 0..30_000u64 {
        put_again(&mut builder, entry_at(order, index))?;
    }
    Ok(builder)
}

/// A builder that was given the entries in an order refuses one of their positions, and makes this
/// matrix.
fn assert_equal_in(
    rt: &impl Abort,
    alloc: Global,
    matrix: &Matrix,
    order: Order,
) -> Result<(), Fail> {
    let mut builder = builder_in(alloc, order)?;
    assert_refused(rt, builder.put(3, 4, 0), StoreError::PositionGivenTwice);
    assert_equal(rt, matrix, &finish_again(builder)?);
    Ok(())
}

#[test]
fn orders_give_equal_matrices(rt: HostRuntime) -> Result<(), Fail> {
    let ascending = finish_again(builder_in(rt.alloc(), Order::Ascending)?)?;
    assert_count(&rt, ascending.entries(), 30_000);
    assert_equal_in(&rt, rt.alloc(), &ascending, Order::Descending)?;
    assert_equal_in(&rt, rt.alloc(), &ascending, Order::Mixed)
}

#[test]
fn starts_count_the_entries_before(rt: HostRuntime) -> Result<(), Fail> {
    let mut builder = Builder::new(rt.alloc(), 4, 3);
    put_all(&mut builder, &[(3, 0, 1), (1, 2, 2), (1, 0, 3)])?;
    let matrix = finish_again(builder)?;
    assert_starts(&rt, &matrix, &[0, 0, 2, 2, 3]);
    let none = finish_again(Builder::new(rt.alloc(), 0, 5))?;
    assert_starts(&rt, &none, &[0]);
    Ok(())
}
