//! The largest sizes, and builders that have all the entries that there may be.
use super::{
    Triple, assert_at, assert_count, assert_refused, assert_row, assert_starts, finish_again,
    finish_once, put_all,
};
use csr_store::{Builder, StoreError};
use std::alloc::Global;
use std::process::Abort;
use std::test::Fail;

/// The last row and the last column of the largest matrix.
pub const LAST: u64 = 16_777_215;

#[test]
fn sizes_reach_to_the_limit(rt: HostRuntime) -> Result<(), Fail> {
    let mut wide = Builder::new(rt.alloc(), 16_777_216, 16_777_216);
    put_all(&mut wide, &[(LAST, LAST, 2), (0, LAST, 1)])?;
    let wide = finish_again(wide)?;
    assert_count(&rt, wide.rows(), 16_777_216);
    assert_count(&rt, wide.entries(), 2);
    assert_at(
        &rt,
        &wide,
        &[(0, LAST, Some(1)), (LAST, LAST, Some(2)), (LAST, 0, None)],
    );
    assert_row(&rt, &wide, LAST, &[(LAST, 2)]);
    Ok(())
}

/// A builder of 4,096 rows and 4,097 columns that has all the entries that there may be.
fn full_builder(alloc: Global) -> Result<Builder, StoreError> {
    let mut builder = Builder::new(alloc, 4096, 4097);
    for row in 0..4096 {
        for column in 0..4096 {
            builder.put(row, column, row ^ column)?;
        }
    }
    Ok(builder)
}

/// What such a builder refuses, and for what.
const REFUSED_IN_ORDER: [(Triple, StoreError); 3] = [
    ((4096, 0, 1), StoreError::IndexOutOfRange),
    ((17, 5, 1), StoreError::PositionGivenTwice),
    ((17, 4096, 1), StoreError::TooManyEntries),
];

/// A builder refuses entries at once.
fn assert_refused_once(rt: &impl Abort, builder: &mut Builder, refused: &[(Triple, StoreError)]) {
    for ((row, column, value), error) in refused {
        assert_refused(rt, builder.put(*row, *column, *value), *error);
    }
}

#[test]
fn full_builder_refuses_in_order(rt: HostRuntime) -> Result<(), Fail> {
    let mut builder = full_builder(rt.alloc())?;
    assert_refused_once(&rt, &mut builder, &REFUSED_IN_ORDER);
    let matrix = finish_once(builder)?;
    assert_count(&rt, matrix.entries(), 16_777_216);
    assert_at(&rt, &matrix, &[(4095, 4094, Some(1)), (17, 4096, None)]);
    Ok(())
}

#[test]
fn most_rows_without_an_entry(rt: HostRuntime) -> Result<(), Fail> {
    let matrix = finish_again(Builder::new(rt.alloc(), 16_777_216, 1))?;
    assert_count(&rt, matrix.entries(), 0);
    assert_count(&rt, matrix.starts().len() as u64, 16_777_217);
    assert_count(&rt, matrix.rows(), 16_777_216);
    assert_row(&rt, &matrix, 16_777_215, &[]);
    Ok(())
}

/// A builder of two rows of which the second has all the entries that there may be.
fn builder_of_one_row(alloc: Global) -> Result<Builder, StoreError> {
    let mut builder = Builder::new(alloc, 2, 16_777_216);
    for column in 0..16_777_216 {
        builder.put(1, column, column)?;
    }
    Ok(builder)
}

#[test]
fn one_row_has_all_entries(rt: HostRuntime) -> Result<(), Fail> {
    let mut builder = builder_of_one_row(rt.alloc())?;
    assert_refused(&rt, builder.put(0, 5, 1), StoreError::TooManyEntries);
    let matrix = finish_once(builder)?;
    assert!(rt; matrix.rows() == 2);
    assert_starts(&rt, &matrix, &[0, 0, 16_777_216]);
    assert_eq!(rt; matrix.row(1).last(), Some(&(16_777_215, 16_777_215)));
    Ok(())
}
