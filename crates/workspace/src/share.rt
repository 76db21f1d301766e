//! Further owners of what a job needs.
ghost use Rattle.std.specs.Prelude.{◌≡◌, IfOk};
ghost use Rattle.std.specs.Option.{option_map};
ghost use Rattle.std.specs.Arc.{arc_value};
ghost use Rattle.job_plan.specs.Kept.{form_of};
ghost use Rattle.workspace.specs.inner.Lent.{lent_form, lent_mask, lent_job};

use crate::found::FoundJob;
use bpf_verify::Operator;
use csr_store::Version;
use job_plan::{Form, Job};
use std::alloc::{AllocError, Global};
use std::sync::Arc;

/// A form, as a further owner of its operators and matrices.
fn share_form(found: Form<&Arc<Operator>, &Version>) -> Result<Form, AllocError>
    ensures { IfOk result (λ form. form_of form ≡ lent_form found.entry) }
{
    found
        .map(
            |operator| Arc::try_clone(operator).ok(),
            |matrix| Arc::try_clone(matrix).ok(),
        )
        .transpose()
        .ok_or(AllocError)
}

fn share_mask(found: Option<&Version>) -> Result<Option<Version>, AllocError>
    ensures { IfOk result (λ mask. option_map arc_value mask ≡ lent_mask found.entry) }
{
    match found {
        None => Ok(None),
        Some(mask) => Ok(Some(Arc::try_clone(mask)?)),
    }
}

/// The job, as a further owner of what its names stand for.
pub fn share(alloc: Global, found: FoundJob<'_>, output: &str) -> Result<Job, AllocError>
    ensures { IfOk result (λ job. job ≡ lent_job output.now found.entry) }
{
    let form = share_form(found.form)?;
    let mask = share_mask(found.mask)?;
    let output = String::from_str(alloc, output)?;
    Ok(Job::new(form, mask, output))
}
