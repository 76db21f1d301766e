//! Products of many rows, and of a long one.
use super::{assert_count, assert_rows, chunk_of, finished, operator, scattered};
use csr_store::{Builder, Matrix};
use job_forms::{Chunk, mult_count_in};
use row_product::Scratch;
use std::alloc::Global;
use std::ops::Range;
use std::process::Abort;
use std::test::Fail;
use test_operators::MULTIPLY;

/// x + y
const ADD: &str = "
    mov64 r0, r1
    add64 r0, r2
    exit
";

/// A range of rows of a product by addition, and by the operator of this text.
fn product_by(
    rt: &impl Abort,
    alloc: Global,
    text: &str,
    a: &Matrix,
    b: &Matrix,
    range: Range<u64>,
) -> Result<Chunk, Fail> {
    let add = operator(alloc, ADD)?;
    let mul = operator(alloc, text)?;
    let mut scratch = Scratch::new();
    Ok(chunk_of(rt, alloc, &mut scratch, a, b, &add, &mul, None, range))
}

/// A chunk has so many rows from one on, and took so many steps.
fn assert_chunk(
    rt: &impl Abort,
    chunk: Chunk,
    first: u64,
    count: u64,
    steps: u64,
) -> Result<(), Fail> {
    assert_count(rt, chunk.steps, steps);
    assert_rows(rt, &chunk.result?, first, count);
    Ok(())
}

/// How many multiplications the last of the most rows there may be take.
fn mults_of_last_rows(rt: &impl Abort, a: &Matrix, b: &Matrix) -> u64 {
    assert!(rt; a.rows() == 16_777_216);
    assert!(rt; a.columns() == b.rows());
    mult_count_in(a, b, None, 16_700_000..16_777_216)
}

#[test]
fn most_rows_with_nothing_in_them(rt: HostRuntime) -> Result<(), Fail> {
    let a = finished(Builder::new(rt.alloc(), 16_777_216, 3))?;
    let b = scattered(&rt, 3, 1, 1, 1, rt.alloc())?;
    let chunk = product_by(&rt, rt.alloc(), ADD, &a, &b, 16_776_960..16_777_216)?;
    assert_chunk(&rt, chunk, 16_776_960, 256, 0)?;
    assert_count(&rt, mults_of_last_rows(&rt, &a, &b), 0);
    Ok(())
}

#[test]
fn row_of_many_entries(rt: HostRuntime) -> Result<(), Fail> {
    let a = scattered(&rt, 1, 3, 8, 1, rt.alloc())?;
    let b = scattered(&rt, 3, 100_000, 9, 1, rt.alloc())?;
    assert_count(&rt, a.rows(), 1);
    let chunk = product_by(&rt, rt.alloc(), MULTIPLY, &a, &b, 0..1)?;
    assert_chunk(&rt, chunk, 0, 1, 1_500_000)
}
