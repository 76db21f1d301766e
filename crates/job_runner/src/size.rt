//! How many workers a batch has.
ghost use Rattle.std.specs.Prelude.{◌≡◌, ◌≤◌, length};
ghost use Rattle.job_runner.specs.Chunk.{chunks_in};
ghost use Rattle.job_runner.specs.Crew.{crew_of, work_of, total_work};

use csr_store::RUN_ROWS;
use job_plan::{Plan, Priced, price};

/// How many steps each worker of several has to have. By the clock they take it 100 to 560
/// microseconds, and a thread costs 20 to 25 until it is joined, its buffers included.
const STEPS_OF_A_WORKER: u64 = 200_000;

/// How many steps take as long as the rows of a chunk do without any.
const STEPS_OF_A_CHUNK: u64 = 512;

/// How many of so many workers a plan is given: as many as its work feeds, of which no chunk counts
/// for more than one.
pub(crate) fn crew_size(plan: &Plan, workers: u64) -> u64
    requires { 1 ≤ workers }
    ensures size { result ≡ crew_of workers plan.now }
    ensures some { 1 ≤ result }
    ensures few { result ≤ workers }
{
    let fed = add_work(plan.jobs()) / STEPS_OF_A_WORKER;
    workers.min(fed).max(1)
}

/// The work of jobs together.
fn add_work(jobs: &[Priced]) -> u64
    requires few { length jobs.now ≤ 64 }
    ensures sum { result ≡ total_work jobs.now }
    ensures low { result ≤ 549755813888 }
{
    let mut sum = 0;
    for job in jobs {
        sum += count_work(job);
    }
    sum
}

/// The work of a job. A job of one chunk keeps no second worker busy, whatever its price is.
fn count_work(job: &Priced) -> u64
    ensures work { result ≡ work_of job.now }
    ensures low { result ≤ 8589934592 }
{
    let price = price(job);
    let chunks = count_chunks(job);
    (price + STEPS_OF_A_CHUNK * chunks).min(STEPS_OF_A_WORKER * chunks)
}

/// How many chunks a job has.
fn count_chunks(job: &Priced) -> u64
    ensures number { result ≡ chunks_in job.now }
    ensures few { result ≤ 65536 }
{
    job.job().form().rows().div_ceil(RUN_ROWS)
}
