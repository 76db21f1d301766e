//! The factors of a product.
ghost use Rattle.std.specs.Prelude.{IfSome};
ghost use Rattle.bpf_verify.specs.Accepted.{IsAccepted};
ghost use Rattle.csr_store.specs.Grid.{IsGrid};
ghost use Rattle.row_product.specs.inner.StandIn.{StandsOnLeft, StandsOnRight};

use bpf_run::{reads_first, reads_second};
use bpf_verify::Operator;
use csr_store::{Column, Matrix};

/// The operators and the matrices of a product.
#[derive(Clone, Copy)]
pub struct Factors<'m> {
    pub add: &'m Operator,
    pub mul: &'m Operator,
    pub a: &'m Matrix,
    pub b: &'m Matrix,
    /// A copy of B, if there is one. Only a B of one column is copied.
    pub column: Option<&'m Column>,
}

impl<'m> Factors<'m> {
    /// What holds of any operators and matrices. It is for the prover alone.
    pub(crate) fn recall(&self)
        ensures add { IsAccepted self.now.add.now }
        ensures mul { IsAccepted self.now.mul.now }
        ensures a { IsGrid self.now.a.now }
        ensures b { IsGrid self.now.b.now }
    {
        self.add.recall();
        self.mul.recall();
        self.a.recall();
        self.b.recall();
    }
}

/// The factors of a product, with its mask if there is one.
#[derive(Clone, Copy)]
pub(crate) struct MaskedFactors<'m> {
    pub(crate) add: &'m Operator,
    pub(crate) mul: &'m Operator,
    pub(crate) a: &'m Matrix,
    pub(crate) b: &'m Matrix,
    pub(crate) column: Option<&'m Column>,
    /// A word that stands for each word of A in MUL, if there is one.
    pub(crate) left: Option<u64>,
    /// The same of B.
    pub(crate) right: Option<u64>,
    pub(crate) mask: Option<&'m Matrix>,
}

/// A word that stands for each word of A in MUL, if there is one: that of all entries, or any word
/// where MUL doesn't read it.
pub(crate) fn left_word(mul: &Operator, a: &Matrix) -> Option<u64>
    ensures { IfSome result (StandsOnLeft mul.now a.now) }
{
    match a.only_word() {
        Some(word) => Some(word),
        None if reads_first(mul) => None,
        None => Some(0),
    }
}

/// The same of B.
pub(crate) fn right_word(mul: &Operator, b: &Matrix) -> Option<u64>
    ensures { IfSome result (StandsOnRight mul.now b.now) }
{
    match b.only_word() {
        Some(word) => Some(word),
        None if reads_second(mul) => None,
        None => Some(0),
    }
}
