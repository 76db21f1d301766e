//! The table of the six forms, in code.
ghost use Rattle.std.specs.Prelude.{◌≡◌, ◌≤◌, ◌-◌, length, true};
ghost use Rattle.bpf_verify.specs.Accepted.{IsAccepted};
ghost use Rattle.csr_store.specs.Along.{summed};
ghost use Rattle.csr_store.specs.Grid.{limit, IsGrid};
ghost use Rattle.csr_store.specs.Mask.{mask_of, HasShape};
ghost use Rattle.job_forms.specs.Product.{mults_under};
ghost use Rattle.job_plan.specs.Kept.{form_of, IsForm, IsMask};
ghost use Rattle.job_plan.specs.Forms.{is_of, kind_with, operation, same_shape};
ghost use Rattle.job_plan.specs.Costing.{costing};
ghost use Rattle.job_plan.specs.Refusal.{has_shape};

use crate::form::Form;
use crate::rows::{count_in, folds_in, folds_under, least_in, lesser_in};
use bpf_insn::Kind;
use bpf_verify::Operator;
use csr_store::Matrix;
use job_forms::{mult_count, mult_count_in};
use std::ops::Range;

impl Form {
    /// What holds of all operators and matrices. It is for the prover alone.
    pub(crate) fn recall(&self)
        ensures { IsForm (form_of self.now) }
    {
        match self {
            Form::Apply {
                operator,
                operand,
                ..
            }
            | Form::Select {
                operator,
                operand,
                ..
            }
            | Form::Reduce { operator, operand } => recall(operator, operand),
            Form::Union {
                operator,
                left,
                right,
            }
            | Form::Both {
                operator,
                left,
                right,
            } => {
                recall(operator, left);
                recall(operator, right);
            }
            Form::Product {
                add,
                mul,
                left,
                right,
            } => {
                recall(add, left);
                recall(mul, right);
            }
        }
    }

    /// Whether the operators are of the kinds that the form takes.
    pub(crate) fn has_its_kinds(&self) -> bool
        ensures { result ≡ (operation (form_of self.now)).kinds }
    {
        match self {
            Form::Apply {
                operator,
                thunk,
                ..
            } => is_of(kind_with(*thunk), operator),
            Form::Select { operator, .. } => is_of(Kind::Index, operator),
            Form::Union { operator, .. }
            | Form::Both { operator, .. }
            | Form::Reduce { operator, .. } => is_of(Kind::Binary, operator),
            Form::Product { add, mul, .. } => is_of(Kind::Binary, add) && is_of(Kind::Binary, mul),
        }
    }

    /// Whether the matrices' shapes fit one another.
    pub(crate) fn has_fitting_shapes(&self) -> bool
        ensures { result ≡ (operation (form_of self.now)).shapes }
    {
        match self {
            Form::Union { left, right, .. } | Form::Both { left, right, .. } => {
                same_shape(left, right)
            }
            Form::Product { left, right, .. } => left.columns() == right.rows(),
            Form::Apply { .. } | Form::Select { .. } | Form::Reduce { .. } => true,
        }
    }

    /// The number of rows of the result.
    pub fn rows(&self) -> u64
        ensures rows { result ≡ (operation (form_of self.now)).rows }
        ensures few { result ≤ limit }
    {
        match self {
            Form::Apply { operand, .. }
            | Form::Select { operand, .. }
            | Form::Reduce { operand, .. } => operand.rows(),
            Form::Union { left, .. } | Form::Both { left, .. } | Form::Product { left, .. } => {
                left.rows()
            }
        }
    }

    /// The number of columns of the result.
    pub fn columns(&self) -> u64
        ensures { result ≡ (operation (form_of self.now)).columns }
    {
        match self {
            Form::Apply { operand, .. } | Form::Select { operand, .. } => operand.columns(),
            Form::Union { left, .. } | Form::Both { left, .. } => left.columns(),
            Form::Product { right, .. } => right.columns(),
            Form::Reduce { .. } => 1,
        }
    }

    /// How many entries the result can have, for a form with which that may be more than a matrix
    /// holds; otherwise 0.
    pub(crate) fn entries(&self, mask: Option<&Matrix>) -> u64
        requires shapes { (operation (form_of self.now)).shapes ≡ true }
        requires mask { has_shape (operation (form_of self.now)).rows (operation (form_of self.now)).columns (mask_of mask)
            ≡ true }
        ensures { result ≡ (costing (form_of self.now)).entries (mask_of mask.entry) }
    {
        match self {
            // An upper bound, known without a visit: positions that both have count twice.
            Form::Union { left, right, .. } => left.entries() + right.entries(),
            Form::Product { left, right, .. } => mult_count(left, right, mask),
            // No more entries than an operand, which is a matrix already.
            Form::Apply { .. } | Form::Select { .. } | Form::Both { .. } | Form::Reduce { .. } => 0,
        }
    }

    /// How many instructions the operators of a round have.
    pub(crate) fn round(&self) -> u64
        ensures round { result ≡ (costing (form_of self.now)).round }
        ensures few { result ≤ 8192 }
    {
        let (operator, other) = self.operators();
        // A product makes a call of each in a round: a multiplication and an addition.
        match other {
            None => length(operator),
            Some(other) => length(operator) + length(other),
        }
    }

    /// How many rounds of calls some rows take at most.
    pub(crate) fn rounds(&self, mask: Option<&Matrix>, range: Range<u64>) -> u64
        requires shapes { (operation (form_of self.now)).shapes ≡ true }
        requires mask { has_shape (operation (form_of self.now)).rows (operation (form_of self.now)).columns (mask_of mask)
            ≡ true }
        requires within { range.end ≤ (operation (form_of self.now)).rows }
        ensures { result ≡ summed ((costing (form_of self.now)).rounds (mask_of mask.entry)) range.start
            (range.end - range.start) }
    {
        match (self, mask) {
            (Form::Apply { operand, .. }, None) => count_in(operand, range),
            (Form::Apply { operand, .. }, Some(mask)) => lesser_in(operand, mask, range),
            (Form::Select { operand, .. }, None) => count_in(operand, range),
            (Form::Select { operand, .. }, Some(mask)) => lesser_in(operand, mask, range),
            (Form::Union { left, right, .. }, None) => lesser_in(left, right, range),
            (Form::Union { left, right, .. }, Some(mask)) => least_in(left, right, mask, range),
            (Form::Both { left, right, .. }, None) => lesser_in(left, right, range),
            (Form::Both { left, right, .. }, Some(mask)) => least_in(left, right, mask, range),
            // The mask cuts by rows here, so counting takes it along.
            (Form::Product { left, right, .. }, _) => mults_in(left, right, mask, range),
            (Form::Reduce { operand, .. }, None) => folds_in(operand, range),
            (Form::Reduce { operand, .. }, Some(mask)) => folds_under(operand, mask, range),
        }
    }
}

/// The kind of operator that `apply` takes: an index operator if there is a thunk, otherwise a
/// unary one.
fn kind_with(thunk: Option<u64>) -> Kind
    ensures { result ≡ kind_with thunk }
{
    match thunk {
        None => Kind::Unary,
        Some(_) => Kind::Index,
    }
}

/// What holds of any operator and of any matrix. It is for the prover alone.
fn recall(operator: &Operator, operand: &Matrix)
    ensures operator { IsAccepted operator.now }
    ensures operand { IsGrid operand.now }
{
    operator.recall();
    operand.recall();
}

/// Whether an operator is of a kind.
fn is_of(kind: Kind, operator: &Operator) -> bool
    ensures { result ≡ is_of kind operator.now }
{
    operator.kind() == kind
}

/// How many instructions an operator has.
fn length(operator: &Operator) -> u64
    ensures length { result ≡ length operator.now.insns }
    ensures few { result ≤ 4096 }
{
    // For the prover: an operator has at most 4,096 instructions.
    operator.recall();
    operator.len()
}

fn same_shape(a: &Matrix, b: &Matrix) -> bool
    ensures { result ≡ same_shape a.now b.now }
{
    a.rows() == b.rows() && a.columns() == b.columns()
}

/// Whether a mask has these sizes, or there is no mask.
pub(crate) fn has_shape(rows: u64, columns: u64, mask: Option<&Matrix>) -> bool
    ensures shape { result ≡ has_shape rows columns (mask_of mask.entry) }
    ensures mask { IsMask (mask_of mask.entry) }
{
    match mask {
        Some(mask) => mask.rows() == rows && mask.columns() == columns,
        None => true,
    }
}

/// How many multiplications some rows of a product take.
fn mults_in(a: &Matrix, b: &Matrix, mask: Option<&Matrix>, range: Range<u64>) -> u64
    requires shapes { a.now.columns ≡ b.now.rows }
    requires mask { HasShape a.now.rows b.now.columns (mask_of mask) }
    requires within { range.end ≤ a.now.rows }
    ensures { result ≡ mults_under (mask_of mask.entry) a.now b.now range.start (range.end - range.start) }
{
    // `mult_count_in` takes ordered ranges alone.
    if range.end <= range.start {
        return 0;
    }
    mult_count_in(a, b, mask, range)
}
