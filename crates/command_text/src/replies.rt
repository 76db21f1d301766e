//! The replies, as bytes.
ghost use Rattle.std.specs.Prelude.{◌≡◌, ◌≤◌, ◌+◌, ◌++◌, [], length, codes, decimal};
ghost use Rattle.command_text.specs.ReplyText.{whole};
ghost use Rattle.command_text.specs.Lines.{line_of};
ghost use Rattle.command_text.specs.Replies.{refusal_words, refusal_text, matrix_text, operator_text, queued_text, job_text};
ghost use Rattle.command_text.specs.Replies.{run_line, show_text, list_text, budget_text, quit_text};

use crate::refusal::Refusal;
use crate::reply::Reply;

/// Begins a reply with these words, and drops the one before it.
fn begin(reply: &mut Reply, words: &[u8])
    requires { length words.now ≤ 8192 }
    ensures { reply.new ≡ record { line = words.now; text = [] } }
{
    reply.clear();
    reply.add(words);
}

/// Says nothing.
pub fn silent(reply: &mut Reply)
    ensures { whole reply.new ≡ [] }
{
    begin(reply, b"");
}

/// Adds a space and a number.
fn add_field(reply: &mut Reply, number: u64)
    requires { length reply.old.line + 21 ≤ 8192 }
    ensures value { reply.new ≡ record reply.old { line = reply.old.line ++ (codes " " ++ decimal number) } }
    ensures short { length reply.new.line ≤ length reply.old.line + 21 }
{
    reply.add(b" ");
    reply.add_number(number);
}

/// Adds the name of a rule, which has at most three bytes, and where it is broken.
fn add_place(reply: &mut Reply, rule: &str, number: u64)
    requires name { length rule.now ≤ 3 }
    requires capacity { length reply.old.line + 24 ≤ 8192 }
    ensures value { reply.new ≡
        record reply.old { line = reply.old.line ++ (rule.now ++ (codes " " ++ decimal number)) } }
    ensures short { length reply.new.line ≤ length reply.old.line + 24 }
{
    reply.add(rule.as_bytes());
    add_field(reply, number);
}

/// Adds that fewer steps are left than the price.
fn add_shortage(reply: &mut Reply, price: u64, left: u64)
    requires { length reply.old.line + 64 ≤ 8192 }
    ensures value { reply.new ≡
        record reply.old { line = reply.old.line ++ refusal_words (Refusal.Budget price left) } }
    ensures short { length reply.new.line ≤ length reply.old.line + 64 }
{
    reply.add(b"S8");
    add_field(reply, price);
    add_field(reply, left);
}

/// Adds why a command is refused.
fn add_reason(reply: &mut Reply, refusal: Refusal)
    requires { length reply.old.line + 64 ≤ 8192 }
    ensures value { reply.new ≡ record reply.old { line = reply.old.line ++ refusal_words refusal } }
    ensures short { length reply.new.line ≤ length reply.old.line + 64 }
{
    match refusal {
        Refusal::Session(rule) => reply.add(rule.name().as_bytes()),
        Refusal::Fatal(rule) => reply.add(rule.name().as_bytes()),
        Refusal::QueueFull => reply.add(b"J6"),
        Refusal::Job(fault) => reply.add(fault.name().as_bytes()),
        Refusal::Code(fault) => add_place(reply, fault.rule.name(), fault.slot),
        Refusal::Assembly(fault) => add_place(reply, fault.rule.name(), fault.line),
        Refusal::Market { rule, line } => add_place(reply, rule.name(), line),
        Refusal::Budget { price, left } => add_shortage(reply, price, left),
        Refusal::Memory => reply.add(b"memory"),
        Refusal::BatchMemory { spent } => {
            reply.add(b"memory");
            add_field(reply, spent);
        }
        Refusal::BatchThread { spent } => {
            reply.add(b"thread");
            add_field(reply, spent);
        }
    }
}

/// Says that a command is refused, and why.
pub fn refuse(reply: &mut Reply, refusal: Refusal)
    ensures { whole reply.new ≡ refusal_text refusal }
{
    begin(reply, b"no ");
    add_reason(reply, refusal);
    reply.add(b"\n");
}

/// Says that a matrix was taken: its rows, its columns and its entries.
pub fn accept_matrix(reply: &mut Reply, rows: u64, columns: u64, entries: u64)
    ensures { whole reply.new ≡ matrix_text rows columns entries }
{
    begin(reply, b"ok matrix");
    add_field(reply, rows);
    add_field(reply, columns);
    add_field(reply, entries);
    reply.add(b"\n");
}

/// Says that an operator was taken: its slots and its instructions.
pub fn accept_operator(reply: &mut Reply, slots: u64, instructions: u64)
    ensures { whole reply.new ≡ operator_text slots instructions }
{
    begin(reply, b"ok op");
    add_field(reply, slots);
    add_field(reply, instructions);
    reply.add(b"\n");
}

/// Says that a job waits, at which position of the queue, and at which price in steps.
pub fn queued(reply: &mut Reply, position: u64, price: u64)
    ensures { whole reply.new ≡ queued_text position price }
{
    begin(reply, b"ok queued");
    add_field(reply, position);
    add_field(reply, price);
    reply.add(b"\n");
}

/// Says how many steps of the budget are left, reserved and spent.
pub fn tell_budget(reply: &mut Reply, left: u64, reserved: u64, spent: u64)
    ensures { whole reply.new ≡ budget_text left reserved spent }
{
    begin(reply, b"ok budget");
    add_field(reply, left);
    add_field(reply, reserved);
    add_field(reply, spent);
    reply.add(b"\n");
}

/// Says that the session ends.
pub fn bye(reply: &mut Reply)
    ensures { whole reply.new ≡ quit_text }
{
    begin(reply, b"ok quit\n");
}

/// Shows a text, which the reply takes and does not copy.
pub fn show(reply: &mut Reply, text: Vec<u8>)
    ensures { whole reply.new ≡ show_text text.items }
{
    begin(reply, b"ok show");
    add_field(reply, text.len() as u64);
    reply.add(b"\n");
    reply.attach(text);
}

/// Says that a list of so many lines follows, with the words that begin it; the reply takes the
/// lines and does not copy them.
pub fn list(reply: &mut Reply, command: &str, lines: u64, text: Vec<u8>)
    requires { length command.now ≤ 16 }
    ensures { whole reply.new ≡ list_text command.now lines text.items }
{
    begin(reply, b"ok ");
    reply.add(command.as_bytes());
    add_field(reply, lines);
    reply.add(b"\n");
    reply.attach(text);
}

/// What a job's line tells: its output, the rows, columns and entries of its matrix, and its steps.
#[derive(Clone, Copy)]
pub struct JobLine<'a> {
    pub output: &'a str,
    pub rows: u64,
    pub columns: u64,
    pub entries: u64,
    pub steps: u64,
}

/// Says that a batch was run, how many jobs it had and how many steps it took. A line for each job
/// follows, by `add_job`.
pub fn begin_run(reply: &mut Reply, jobs: u64, spent: u64)
    ensures text { reply.new ≡ record { line = run_line jobs spent; text = [] } }
    ensures short { length reply.new.line ≤ 64 }
{
    begin(reply, b"ok run");
    add_field(reply, jobs);
    add_field(reply, spent);
    reply.add(b"\n");
}

/// Adds the line of a job that was run.
///
/// The line has at most 117 bytes: a name of 32, four numbers of 20 digits, and 5 around them.
pub fn add_job(reply: &mut Reply, job: &JobLine<'_>)
    requires name { length job.now.output.now ≤ 32 }
    requires capacity { length reply.old.line + 117 ≤ 8192 }
    ensures value { reply.new ≡ record reply.old { line = reply.old.line ++ job_text (line_of job.now) } }
    ensures short { length reply.new.line ≤ length reply.old.line + 117 }
{
    reply.add(job.output.as_bytes());
    add_field(reply, job.rows);
    add_field(reply, job.columns);
    add_field(reply, job.entries);
    add_field(reply, job.steps);
    reply.add(b"\n");
}
