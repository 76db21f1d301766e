//! Columns that are listed by themselves: once products are to walk enough entries, and not before.
use super::{finish_again, put_again};
use csr_store::{Builder, MOST_SIDE, Matrix};
use std::alloc::Global;
use std::process::Abort;
use std::test::Fail;

/// The rows and columns of the least matrix whose columns are listed, if all positions have entries.
const SIDE: u64 = 64;

/// A matrix whose first positions have entries: the first with one word, the others with another.
fn filled(alloc: Global, sizes: (u64, u64), count: u64, words: (u64, u64)) -> Result<Matrix, Fail> {
    let mut builder = Builder::new(alloc, sizes.0.min(MOST_SIDE), sizes.1.min(MOST_SIDE));
    for k in 0..count {
        let word = if k == 0 { words.0 } else { words.1 };
        put_again(&mut builder, (k / sizes.1.max(1), k % sizes.1.max(1), word))?;
    }
    Ok(finish_again(builder)?)
}

/// Whether the columns of row `i` are listed, and then that they are those of its cells.
fn is_listed(rt: &impl Abort, matrix: &Matrix, i: u64) -> bool {
    assert!(rt; i < matrix.rows());
    let Some(columns) = matrix.columns_in(i) else {
        return false;
    };
    let cells = matrix.row(i);
    assert_eq!(rt; columns.len(), cells.len());
    for k in 0..columns.len().min(cells.len()) {
        assert_eq!(rt; u64::from(columns[k]), cells[k].0, "cell {k} of row {i}");
    }
    true
}

/// Whether the columns are listed once so many entries are to be walked, in two parts. Asked again
/// where memory was refused, which needs as many.
fn lists(
    rt: &impl Abort,
    alloc: Global,
    matrix: &mut Matrix,
    walked: u64,
    reads_words: bool,
) -> bool {
    for _ in 0..2 {
        matrix.expect_walk(alloc, walked / 2, reads_words);
        matrix.expect_walk(alloc, walked.div_ceil(2), reads_words);
        if is_listed(rt, matrix, 0) {
            return true;
        }
    }
    false
}

#[test]
fn columns_are_listed_once_half_is_walked(rt: HostRuntime) -> Result<(), Fail> {
    let mut matrix = filled(rt.alloc(), (SIDE, SIDE), SIDE * SIDE, (7, 7))?;
    assert!(&rt; !is_listed(&rt, &matrix, 3));
    matrix.expect_walk(rt.alloc(), SIDE * SIDE / 2 - 1, true);
    assert!(&rt; !is_listed(&rt, &matrix, 3));
    assert!(&rt; lists(&rt, rt.alloc(), &mut matrix, SIDE * SIDE / 2, true));
    for i in 0..SIDE {
        assert!(&rt; is_listed(&rt, &matrix, i));
    }
    assert_eq!(&rt; matrix.only_word(), Some(7));
    Ok(())
}

#[test]
fn words_that_differ_are_not_stood_for(rt: HostRuntime) -> Result<(), Fail> {
    let mut matrix = filled(rt.alloc(), (SIDE, SIDE), SIDE * SIDE, (1, 2))?;
    assert!(&rt; !lists(&rt, rt.alloc(), &mut matrix, SIDE * SIDE, true));
    assert!(&rt; lists(&rt, rt.alloc(), &mut matrix, SIDE * SIDE, false));
    assert_eq!(&rt; matrix.only_word(), None);
    Ok(())
}

#[test]
fn small_matrices_and_vectors_are_not_listed(rt: HostRuntime) -> Result<(), Fail> {
    let mut small = filled(rt.alloc(), (SIDE, SIDE), SIDE * SIDE - 1, (7, 7))?;
    assert!(&rt; !lists(&rt, rt.alloc(), &mut small, u64::MAX, false));
    let mut line = filled(rt.alloc(), (1, SIDE * SIDE), SIDE * SIDE, (7, 7))?;
    assert!(&rt; !lists(&rt, rt.alloc(), &mut line, u64::MAX, false));
    let mut column = filled(rt.alloc(), (SIDE * SIDE, 1), SIDE * SIDE, (7, 7))?;
    assert!(&rt; !lists(&rt, rt.alloc(), &mut column, u64::MAX, false));
    Ok(())
}
