//! What stands in results, and what the calls for it cost.
ghost use Rattle.std.specs.Prelude.{◌≡◌, ◌-◌, ◌^◌, [], None, Some};
ghost use Rattle.bpf_run.specs.Calls.{steps_of};
ghost use Rattle.csr_store.specs.ByRows.{grid};
ghost use Rattle.job_forms.specs.Forms.{apply_at, select_at, union_at, both_at, joint_calls_at, reduce_at, reduce_calls_at};
ghost use Rattle.job_forms.specs.Product.{product_at, product_calls_at};
ghost use Rattle.worked_rows.specs.Rows.{inc, sub, mul, on_diagonal, wide, tall, two, three};

/// A product whose terms 10 and 3 are folded in ascending order: 7, and not -7. Two multiplications
/// and one subtraction take three steps each.
pub fn products()
    ensures entry { product_at sub mul wide tall (0, 0) ≡ Some 7 }
    ensures steps { steps_of (product_calls_at sub mul wide tall (0, 0)) ≡ 9 }
{}

/// Where one of two matrices stores a word, a union copies it and an intersection stores none;
/// neither makes a call.
pub fn unions()
    ensures copies { union_at sub (grid 1 2 []) two (0, 1) ≡ Some 4 }
    ensures free { steps_of (joint_calls_at sub (grid 1 2 []) two (0, 1)) ≡ 0 }
    ensures none { both_at sub (grid 1 2 []) two (0, 1) ≡ None }
    ensures both { both_at sub wide two (0, 1) ≡ Some (2 ^ 64 - 1) }
{}

/// A row is folded from its first word on, a row without words gives none, and a select keeps the
/// word for which it is asked.
pub fn rows()
    ensures applied { apply_at inc None two (0, 1) ≡ Some 5 }
    ensures fold { reduce_at sub three (0, 0) ≡ Some 5 }
    ensures steps { steps_of (reduce_calls_at sub three (0, 0)) ≡ 6 }
    ensures empty { reduce_at sub three (1, 0) ≡ None }
    ensures selected { select_at on_diagonal 0 two (0, 0) ≡ Some 3 }
    ensures dropped { select_at on_diagonal 0 two (0, 1) ≡ None }
{}
