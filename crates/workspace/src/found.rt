//! What the names of a job stand for.
ghost use Rattle.std.specs.Prelude.{◌≡◌};
ghost use Rattle.std.specs.Option.{option_map};
ghost use Rattle.command_text.specs.Readings.{form_of, name_of, submission_of};
ghost use Rattle.job_plan.specs.Form.{found};
ghost use Rattle.workspace.specs.Found.{job_found};
ghost use Rattle.workspace.specs.inner.Lent.{lent_form, lent_job};
ghost use Rattle.workspace.specs.Workspace.{state_of};

use crate::workspace::Workspace;
use bpf_verify::Operator;
use command_text::{Name, Submission};
use csr_store::Version;
use job_plan::Form;
use std::sync::Arc;

/// What the names of a job's operators, matrices and mask stand for.
#[derive(Clone, Copy)]
pub struct FoundJob<'a> {
    pub form: Form<&'a Arc<Operator>, &'a Version>,
    pub mask: Option<&'a Version>,
}

/// What the names of a form stand for, where they all do.
fn find_form<'a>(
    workspace: &'a Workspace,
    form: Form<Name<'_>, Name<'_>>,
) -> Option<Form<&'a Arc<Operator>, &'a Version>>
    ensures { option_map lent_form result ≡
        found (state_of workspace.now).operators (state_of workspace.now).matrices (form_of form.entry) }
{
    form.map(
        |name| workspace.operator(name),
        |name| workspace.matrix(name),
    )
    .transpose()
}

/// What the names of a job stand for, where they all do.
pub fn find<'a>(workspace: &'a Workspace, submission: &Submission<'_>) -> Option<FoundJob<'a>>
    ensures { option_map (lent_job (name_of submission.now.output)) result ≡
        job_found (state_of workspace.now) (submission_of submission.now) }
{
    let form = find_form(workspace, submission.form)?;
    let mask = match submission.mask {
        None => None,
        Some(name) => Some(workspace.matrix(name)?),
    };
    Some(FoundJob { form, mask })
}
