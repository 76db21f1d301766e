//! The six forms of jobs, generic over their operators and matrices.
ghost use Rattle.std.specs.Prelude.{◌≡◌};
ghost use Rattle.job_plan.specs.Form.{IsMapped, all_some, first_and_second, matrices_of, operators_of};

use bpf_verify::Operator;
use csr_store::Version;
use std::sync::Arc;

/// The six forms of jobs, each with just the operators, the thunk and the matrices that it takes.
/// In a line these are names; in a job they are operators and matrices that it owns, perhaps of the
/// wrong kind and of shapes that don't fit: [`Priced::of`](crate::Priced::of) checks that.
#[derive(Clone, Copy, Drop)]
pub enum Form<O = Arc<Operator>, M = Version> {
    /// A unary operator applied to each word; with a thunk, an index operator.
    Apply {
        operator: O,
        thunk: Option<u64>,
        operand: M,
    },
    /// The words for which an index operator doesn't return 0.
    Select {
        operator: O,
        thunk: u64,
        operand: M,
    },
    /// A binary operator applied to two words where both have an entry; if one does, its word.
    Union {
        operator: O,
        left: M,
        right: M,
    },
    /// A binary operator applied to two words where both have an entry.
    Both {
        operator: O,
        left: M,
        right: M,
    },
    /// The product of two matrices over two binary operators.
    Product {
        add: O,
        mul: O,
        left: M,
        right: M,
    },
    /// Each row folded by a binary operator, into one column.
    Reduce {
        operator: O,
        operand: M,
    },
}

impl<O, M> Form<O, M> {
    /// The operator, and the second one of a form that takes two.
    pub fn operators(&self) -> (&O, Option<&O>)
        ensures { first_and_second result ≡ operators_of self.now }
    {
        match self {
            Form::Apply { operator, .. }
            | Form::Select { operator, .. }
            | Form::Union { operator, .. }
            | Form::Both { operator, .. }
            | Form::Reduce { operator, .. } => (operator, None),
            Form::Product { add, mul, .. } => (add, Some(mul)),
        }
    }

    /// The matrix, and the second one of a form that takes two.
    pub fn matrices(&self) -> (&M, Option<&M>)
        ensures { first_and_second result ≡ matrices_of self.now }
    {
        match self {
            Form::Apply { operand, .. }
            | Form::Select { operand, .. }
            | Form::Reduce { operand, .. } => (operand, None),
            Form::Union { left, right, .. }
            | Form::Both { left, right, .. }
            | Form::Product { left, right, .. } => (left, Some(right)),
        }
    }

    /// The same form, with each operator and each matrix converted.
    // `Fn`, not `FnOnce`: a product has two of each.
    pub fn map<P, N, F: Fn(O) -> P, G: Fn(M) -> N>(self, of_operator: F, of_matrix: G) -> Form<P, N>
        requires operators { F.IsAlwaysCallable of_operator }
        requires matrices { G.IsAlwaysCallable of_matrix }
        ensures { IsMapped (F.post of_operator) (G.post of_matrix) self result }
    {
        match self {
            Form::Apply {
                operator,
                thunk,
                operand,
            } => Form::Apply {
                operator: of_operator(operator),
                thunk,
                operand: of_matrix(operand),
            },
            Form::Select {
                operator,
                thunk,
                operand,
            } => Form::Select {
                operator: of_operator(operator),
                thunk,
                operand: of_matrix(operand),
            },
            Form::Union {
                operator,
                left,
                right,
            } => Form::Union {
                operator: of_operator(operator),
                left: of_matrix(left),
                right: of_matrix(right),
            },
            Form::Both {
                operator,
                left,
                right,
            } => Form::Both {
                operator: of_operator(operator),
                left: of_matrix(left),
                right: of_matrix(right),
            },
            Form::Product {
                add,
                mul,
                left,
                right,
            } => Form::Product {
                add: of_operator(add),
                mul: of_operator(mul),
                left: of_matrix(left),
                right: of_matrix(right),
            },
            Form::Reduce { operator, operand } => Form::Reduce {
                operator: of_operator(operator),
                operand: of_matrix(operand),
            },
        }
    }
}

impl<O: Drop, M: Drop> Form<Option<O>, Option<M>> {
    /// The form, if all of its operators and matrices are there.
    pub fn transpose(self) -> Option<Form<O, M>>
        ensures { result ≡ all_some self }
    {
        match self {
            Form::Apply {
                operator,
                thunk,
                operand,
            } => Some(Form::Apply {
                operator: operator?,
                thunk,
                operand: operand?,
            }),
            Form::Select {
                operator,
                thunk,
                operand,
            } => Some(Form::Select {
                operator: operator?,
                thunk,
                operand: operand?,
            }),
            Form::Union {
                operator,
                left,
                right,
            } => Some(Form::Union {
                operator: operator?,
                left: left?,
                right: right?,
            }),
            Form::Both {
                operator,
                left,
                right,
            } => Some(Form::Both {
                operator: operator?,
                left: left?,
                right: right?,
            }),
            Form::Product {
                add,
                mul,
                left,
                right,
            } => Some(Form::Product {
                add: add?,
                mul: mul?,
                left: left?,
                right: right?,
            }),
            Form::Reduce { operator, operand } => Some(Form::Reduce {
                operator: operator?,
                operand: operand?,
            }),
        }
    }
}
