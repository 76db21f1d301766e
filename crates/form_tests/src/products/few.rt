//! Products with few terms beside the columns, against the slow reference at the columns that have
//! any: what stands there, and the steps. The same in a scratch that holds all columns.
use super::{Operators, all_operators, assert_count, chunk_of, finished, reference, scattered};
use crate::masks::passes;
use bpf_verify::Operator;
use csr_store::{Builder, Matrix};
use row_product::Scratch;
use std::alloc::{AllocError, Global};
use std::process::Abort;
use std::test::Fail;

/// How many columns the products have.
const WIDTH: u64 = 100_000;

/// Those that have something.
const COLUMNS: [u64; 8] = [0, 1, 31, 4_096, 50_000, 65_536, 99_998, 99_999];

/// A matrix of so many rows, with a word at about one of so many positions in these columns.
fn sparse(
    rt: &impl Abort,
    rows: u64,
    seed: u64,
    one_of: u64,
    alloc: Global,
) -> Result<Matrix, Fail> {
    let choice = scattered(rt, rows, 8, seed, one_of, alloc)?;
    assert!(rt; choice.rows() <= 100);
    let mut builder = Builder::new(alloc, choice.rows(), WIDTH);
    for i in 0..choice.rows() {
        for (index, column) in COLUMNS.iter().enumerate() {
            if let Some(word) = choice.get(i, index as u64) {
                builder.put(i, *column, word)?;
            }
        }
    }
    Ok(finished(builder)?)
}

/// The cells of the product by the slow reference, row by row, with the steps of its calls added to
/// others.
fn reference_cells(
    rt: &impl Abort,
    alloc: Global,
    (a, b): (&Matrix, &Matrix),
    (add, mul): (&Operator, &Operator),
    mask: Option<&Matrix>,
    steps: &mut u64,
) -> Result<Vec<(u64, u64)>, AllocError> {
    let mut cells = Vec::new(alloc);
    for i in 0..a.rows() {
        for column in COLUMNS {
            if passes(mask, i, column) {
                if let Some(sum) = reference(rt, (a, b), (add, mul), (i, column), steps) {
                    cells.push((column, sum))?;
                }
            }
        }
    }
    Ok(cells)
}

/// The product in a scratch is the reference's.
fn assert_cells(
    rt: &impl Abort,
    alloc: Global,
    scratch: &mut Scratch,
    (a, b): (&Matrix, &Matrix),
    (add, mul): (&Operator, &Operator),
    mask: Option<&Matrix>,
) -> Result<(), Fail> {
    let mut steps = 0;
    let wanted = reference_cells(rt, alloc, (a, b), (add, mul), mask, &mut steps)?;
    let chunk = chunk_of(rt, alloc, scratch, a, b, add, mul, mask, 0..a.rows());
    assert_count(rt, chunk.steps, steps);
    let rows = chunk.result?;
    assert_eq!(rt; rows.cells(), wanted.as_slice());
    Ok(())
}

/// A scratch that holds all columns: a product with many terms allocated it.
fn wide_scratch(rt: &impl Abort, alloc: Global, operators: &Operators) -> Result<Scratch, Fail> {
    let a = scattered(rt, 1, 1, 3, 1, alloc)?;
    let b = scattered(rt, 1, WIDTH, 4, 4, alloc)?;
    let mut scratch = Scratch::new();
    let (sub, mul) = (&operators.sub, &operators.mul);
    let _rows = chunk_of(rt, alloc, &mut scratch, &a, &b, sub, mul, None, 0..1).result?;
    Ok(scratch)
}

/// The same of several operators, whole and under a mask, in a scratch without columns and in
/// one with all.
fn assert_density(
    rt: &impl Abort,
    alloc: Global,
    wide: &mut Scratch,
    operators: &Operators,
    one_of: u64,
) -> Result<(), Fail> {
    let a = scattered(rt, 4, 6, one_of.wrapping_add(23), one_of, alloc)?;
    let b = sparse(rt, 6, one_of.wrapping_add(71), one_of, alloc)?;
    let mask = sparse(rt, 4, one_of.wrapping_add(9), 2, alloc)?;
    let (sub, mul, uneven) = (&operators.sub, &operators.mul, &operators.uneven);
    let mut narrow = Scratch::new();
    assert_cells(rt, alloc, &mut narrow, (&a, &b), (sub, mul), None)?;
    assert_cells(rt, alloc, &mut narrow, (&a, &b), (uneven, sub), Some(&mask))?;
    assert_cells(rt, alloc, wide, (&a, &b), (sub, mul), None)?;
    assert_cells(rt, alloc, wide, (&a, &b), (uneven, sub), Some(&mask))
}

/// The same of matrices of several densities.
fn assert_densities(rt: &impl Abort, alloc: Global, operators: &Operators) -> Result<(), Fail> {
    let mut wide = wide_scratch(rt, alloc, operators)?;
    for one_of in 1..5 {
        assert_density(rt, alloc, &mut wide, operators, one_of)?;
    }
    Ok(())
}

#[test]
fn few_terms_in_many_columns(rt: HostRuntime) -> Result<(), Fail> {
    let operators = all_operators(rt.alloc())?;
    assert_densities(&rt, rt.alloc(), &operators)
}
