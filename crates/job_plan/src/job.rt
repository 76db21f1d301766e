//! What a job is.
ghost use Rattle.std.specs.Prelude.{◌≡◌, ◌≤◌, ◌-◌, IfOk, IfErr, Some};
ghost use Rattle.std.specs.Option.{option_map};
ghost use Rattle.std.specs.Arc.{arc_value};
ghost use Rattle.std.specs.String.{string_bytes};
ghost use Rattle.csr_store.specs.Mask.{mask_of};
ghost use Rattle.job_plan.specs.Costing.{costing};
ghost use Rattle.job_plan.specs.Kept.{form_of};
ghost use Rattle.job_plan.specs.Meaning.{row_count};
ghost use Rattle.job_plan.specs.Price.{price_in, price_of};
ghost use Rattle.job_plan.specs.Refusal.{job_fault, IsPriced};
ghost use Rattle.job_plan.specs.inner.Refusal.{Passes};

use crate::error::JobError;
use crate::form::Form;
use crate::table::has_shape;
use csr_store::{MOST_ENTRIES, Matrix, Version};
use std::marker::Model;
use std::ops::Range;

/// The most steps that a job may cost. Rule J8.
const MOST_STEPS: u64 = 4_294_967_296;

/// A form with its operators and operands, a structural mask or none, and the name that the result
/// will be bound to. A contract sees the `Job` of `specs/Job.antt`, with matrices and accepted
/// operators instead of their owners.
#[derive(Drop)]
pub struct Job {
    form: Form,
    // Shared owners: rebinding a name doesn't affect a job that waits.
    mask: Option<Version>,
    output: String,
}

impl Model for Job {
    ghost use Rattle.std.specs.Option.{option_map};
    ghost use Rattle.std.specs.Arc.{arc_value};
    ghost use Rattle.std.specs.String.{string_bytes};
    ghost use Rattle.job_plan.specs.Job as is;

    ghost Value = { is.Job };

    ghost use Rattle.std.specs.Coded.{codes};
    ghost use Rattle.csr_store.specs.Grid.{grid_code};

    ghost coded = { Prim.hlevel (codes, grid_code) };

    ghost use Rattle.job_plan.specs.Kept.{form_of};

    ghost view = { λ j. record {
      form = form_of j.form;
      mask = option_map arc_value j.mask;
      output = string_bytes j.output;
    } };
}

impl Job {
    /// A job that cuts its result to a mask, if it is given one, and binds it to a name.
    pub fn new(form: Form, mask: Option<Version>, output: String) -> Self
        ensures { result ≡ record {
          form = form_of form;
          mask = option_map arc_value mask;
          output = string_bytes output;
        } }
    {
        Job { form, mask, output }
    }

    /// What is computed.
    pub fn form(&self) -> &Form
        ensures { form_of result.now ≡ self.now.form }
    {
        &self.form
    }

    /// The mask, if there is one.
    pub fn mask(&self) -> Option<&Matrix>
        ensures { mask_of result ≡ self.now.mask }
    {
        match &self.mask {
            Some(mask) => Some(mask),
            None => None,
        }
    }

    /// The name that the result will be bound to.
    pub fn output(&self) -> &str
        ensures { result.now ≡ self.now.output }
    {
        &self.output
    }

    /// The price, or the first rule that is broken.
    pub(crate) fn appraise(&self) -> Result<u64, JobError>
        ensures price { IfOk result (λ price. price ≡ price_of self.now) }
        ensures priced { IfOk result (λ _. IsPriced self.now) }
        ensures fault { IfErr result (λ fault. job_fault self.now ≡ Some fault) }
    {
        // Counted once: for a product these are the multiplications, which the price needs as well.
        let entries = self.check()?;
        let price = self.price_of_all(entries);
        if price > MOST_STEPS {
            return Err(JobError::PriceTooHigh);
        }
        Ok(price)
    }

    /// How many entries the result can have, by the form; or the first rule that is broken, of
    /// those that come before the price.
    fn check(&self) -> Result<u64, JobError>
        ensures passes { IfOk result (λ _. Passes self.now) }
        ensures entries { IfOk result (λ n. n ≡ (costing self.now.form).entries self.now.mask) }
        ensures fault { IfErr result (λ fault. job_fault self.now ≡ Some fault) }
    {
        let form = &self.form;
        let mask = self.mask();
        // For the prover: operators and matrices are valid, so nothing below overflows.
        form.recall();
        // In the order of the refusals: J4, J5, J9, J7.
        if !form.has_its_kinds() {
            return Err(JobError::WrongKind);
        }
        if !form.has_fitting_shapes() {
            return Err(JobError::WrongShapes);
        }
        if !has_shape(form.rows(), form.columns(), mask) {
            return Err(JobError::WrongMask);
        }
        // After the shapes, as the multiplications of matrices that don't fit aren't defined.
        let entries = form.entries(mask);
        if entries > MOST_ENTRIES {
            return Err(JobError::ResultTooLarge);
        }
        Ok(entries)
    }

    /// The price, given how many entries the result can have: for a product these are its
    /// multiplications, which are counted once.
    fn price_of_all(&self, entries: u64) -> u64
        requires passes { Passes self.now }
        requires entries { entries ≡ (costing self.now.form).entries self.now.mask }
        ensures { result ≡ price_of self.now }
    {
        let form = &self.form;
        if let Form::Product { .. } = form {
            // At most 2^24 times 2^13, so the product fits.
            return entries * form.round();
        }
        form.rounds(self.mask(), 0..form.rows()) * form.round()
    }
    /// The price of some rows.
    pub(crate) fn price_of_rows(&self, range: Range<u64>) -> u64
        requires passes { Passes self.now }
        requires within { range.end ≤ row_count self.now }
        ensures { result ≡ price_in self.now range.start (range.end - range.start) }
    {
        self.form.rounds(self.mask(), range) * self.form.round()
    }
}
