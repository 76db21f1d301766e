//! Jobs that were checked, with their prices.
ghost use Rattle.std.specs.Prelude.{◌≡◌, ◌≤◌};
ghost use Rattle.job_plan.specs.Price.{price_of, IsWithinPrice};
ghost use Rattle.job_plan.specs.Refusal.{job_fault, answered, IsPriced};

use crate::error::JobError;
use crate::job::Job;
use std::marker::Model;

/// A job that breaks no rule, with the most steps that it may take. A contract sees the job.
#[derive(Drop)]
pub struct Priced {
    job: Job,
    // Stored, as counting a product's multiplications visits its entries.
    price: u64,
}

impl Model for Priced {
    ghost use Rattle.std.specs.Prelude.{◌≡◌};
    ghost use Rattle.job_plan.specs.Job as is;

    ghost Value = { is.Job };

    ghost use Rattle.std.specs.Coded.{codes};
    ghost use Rattle.csr_store.specs.Grid.{grid_code};

    ghost coded = { Prim.hlevel (codes, grid_code) };

    ghost use Rattle.job_plan.specs.Refusal.{IsPriced};
    ghost use Rattle.job_plan.specs.Price.{price_of};

    ghost view = { λ p. p.job };

    ghost invariant = { λ p. IsPriced p.job × (p.price ≡ price_of p.job) };
}

impl Priced {
    /// Prices a job. Takes no memory.
    ///
    /// # Errors
    ///
    /// The job, with the first rule that it breaks, in this order: an operator of another kind,
    /// shapes that don't fit, a mask of another shape than the result, a result that could be too
    /// large, a price that is too high.
    pub fn of(job: Job) -> Result<Priced, (Job, JobError)>
        ensures { result ≡ answered job (job_fault job) }
    {
        match job.appraise() {
            Ok(price) => Ok(Priced { job, price }),
            // The job comes back: it owns matrices and operators.
            Err(error) => Err((job, error)),
        }
    }

    /// What holds of any priced job. It is for the prover alone.
    pub(crate) fn recall(&self)
        ensures { IsPriced self.now }
    {
        // Nothing is computed: the contract of `job` says it.
        let _ = self.job();
    }

    /// The job.
    pub fn job(&self) -> &Job
        ensures job { result.now ≡ self.now }
        ensures priced { IsPriced self.now }
    {
        &self.job
    }
}

/// The most steps that a job may take.
pub fn price(priced: &Priced) -> u64
    ensures price { result ≡ price_of priced.now }
    ensures low { result ≤ 4294967296 }
    ensures within { IsWithinPrice priced.now }
{
    priced.price
}
