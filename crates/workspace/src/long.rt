//! Which commands may take long. The replies before them are written first, so that none waits for
//! another command's work. No contract speaks of it.

use crate::workspace::Workspace;
use command_text::Command;
use job_plan::{Form, Priced, price};

/// To run a batch of so many steps, rows and copied entries takes as long as to write a reply.
const SHORT_WORK: u64 = 10_000;

/// So does writing the text of so many entries.
const SHORT_ENTRIES: u64 = 200;

/// Whether the answer to a command may take longer than to write what was said before.
pub fn takes_long(workspace: &Workspace, command: &Command<'_>) -> bool {
    match command {
        Command::Run => work(workspace.queue.jobs()) > SHORT_WORK,
        Command::Show { name } => match workspace.matrix(*name) {
            Some(matrix) => matrix.entries() > SHORT_ENTRIES,
            None => false,
        },
        _ => false,
    }
}

/// How long jobs may take, in steps: their prices, with a step for each row, and for each entry
/// that may be copied with no call.
fn work(jobs: &[Priced]) -> u64 {
    let mut work = 0u64;
    for job in jobs {
        let form = job.job().form();
        work = work.saturating_add(price(job)).saturating_add(form.rows());
        if let Form::Union { left, right, .. } | Form::Both { left, right, .. } = form {
            work = work
                .saturating_add(left.entries())
                .saturating_add(right.entries());
        }
    }
    work
}
