//! The command line as `clap` reads it: its two commands, their options, and the text of `--help`.
ghost use Rattle.std.specs.Prelude.{◌≡◌, false, IfOk};
ghost use Rattle.clap.specs.Words.{app_of, rule_of};
ghost use Rattle.clap.specs.declared.builder.command.Command.TheViews.{out-Command};
ghost use Rattle.command_line.specs.Words as line;

use crate::version::VERSION;
use clap::builder::ValueParser;
use clap::{Arg, ArgAction, Command, value_parser};
use std::alloc::{AllocError, Global};

/// The most steps that a budget opens with: 2^62.
// i64, as the bounds of `clap`'s ranges are.
pub const MOST_STEPS: i64 = 4_611_686_018_427_387_904;

/// The most workers that run the jobs of a session.
pub const MOST_WORKERS: i64 = 64;

/// The last port.
pub const LAST_PORT: i64 = 65_535;

/// The most sessions that can be asked for.
pub const MOST_SESSIONS: i64 = 1_000_000;

/// The longest that a session may have to wait for its client, in seconds.
pub const MOST_SECONDS: i64 = 1_000_000;

/// The highest rate that a command can be required to arrive with, in bytes a second.
pub const MOST_RATE: i64 = 1_000_000_000;

/// An option `--NAME N`, which may be required.
fn number_option<'a>(
    alloc: Global,
    name: &'a str,
    sign: &'a str,
    help: &'a str,
    numbers: ValueParser<'a>,
    is_needed: bool,
) -> Arg<'a>
    ensures rule { rule_of result ≡ line.number_option name.entry.now numbers.entry is_needed }
    ensures local { result.global ≡ false }
{
    Arg::new(alloc, name)
        .long(name)
        .value_name(sign)
        .help(help)
        .required(is_needed)
        .value_parser(numbers)
}

/// The option `--steps N`.
fn steps_option<'a>(alloc: Global, help: &'a str) -> Arg<'a>
    ensures rule { rule_of result ≡ line.steps_option }
    ensures local { result.global ≡ false }
{
    let numbers = value_parser!(u64).range(..=MOST_STEPS);
    number_option(alloc, "steps", "N", help, numbers, true)
}

/// The option `--workers W`.
fn workers_option<'a>(alloc: Global) -> Arg<'a>
    ensures rule { rule_of result ≡ line.workers_option }
    ensures local { result.global ≡ false }
{
    let help = "Workers that run the jobs of each batch: 1 to 64";
    let numbers = value_parser!(u64).range(1..MOST_WORKERS + 1);
    number_option(alloc, "workers", "W", help, numbers, true)
}

/// The option `--port P`.
fn port_option<'a>(alloc: Global) -> Arg<'a>
    ensures rule { rule_of result ≡ line.port_option }
    ensures local { result.global ≡ false }
{
    let help = "Port of 127.0.0.1 to listen on: 1 to 65535";
    let numbers = value_parser!(u64).range(1..LAST_PORT + 1);
    number_option(alloc, "port", "P", help, numbers, true)
}

/// The option `--sessions K`.
fn sessions_option<'a>(alloc: Global) -> Arg<'a>
    ensures rule { rule_of result ≡ line.sessions_option }
    ensures local { result.global ≡ false }
{
    let help = "End after so many sessions: 1 to 1000000; without it there is no end";
    let numbers = value_parser!(u64).range(1..MOST_SESSIONS + 1);
    number_option(alloc, "sessions", "K", help, numbers, false)
}

/// The option `--idle SECONDS`.
fn idle_option<'a>(alloc: Global) -> Arg<'a>
    ensures rule { rule_of result ≡ line.idle_option }
    ensures local { result.global ≡ false }
{
    let help =
        "End a session that waits so long for its client: 1 to 1000000; without it there is no end";
    let numbers = value_parser!(u64).range(1..MOST_SECONDS + 1);
    number_option(alloc, "idle", "SECONDS", help, numbers, false)
}

/// The option `--session-seconds N`.
fn session_seconds_option<'a>(alloc: Global) -> Arg<'a>
    ensures rule { rule_of result ≡ line.session_seconds_option }
    ensures local { result.global ≡ false }
{
    let help =
        "End a session that has lasted so long, once its batch has ended: 1 to 1000000; without it there is no end";
    let numbers = value_parser!(u64).range(1..MOST_SECONDS + 1);
    number_option(alloc, "session-seconds", "N", help, numbers, false)
}

/// The option `--min-rate BYTES`.
fn min_rate_option<'a>(alloc: Global) -> Arg<'a>
    ensures rule { rule_of result ≡ line.min_rate_option }
    ensures local { result.global ≡ false }
{
    let help =
        "End a session whose command arrives with fewer bytes a second: 1 to 1000000000; without it any rate will do";
    let numbers = value_parser!(u64).range(1..MOST_RATE + 1);
    number_option(alloc, "min-rate", "BYTES", help, numbers, false)
}

/// The option `--session-steps N`.
fn session_steps_option<'a>(alloc: Global) -> Arg<'a>
    ensures rule { rule_of result ≡ line.session_steps_option }
    ensures local { result.global ≡ false }
{
    let help =
        "Steps that each session may spend of these: 1 to 4611686018427387904; without it any may spend all";
    let numbers = value_parser!(u64).range(1..MOST_STEPS + 1);
    number_option(alloc, "session-steps", "N", help, numbers, false)
}

/// The option `--session-reserve N`.
fn session_reserve_option<'a>(alloc: Global) -> Arg<'a>
    ensures rule { rule_of result ≡ line.session_reserve_option }
    ensures local { result.global ≡ false }
{
    let help =
        "Steps that the queued jobs of each session may reserve at once: 1 to 4611686018427387904; without it any may reserve all";
    let numbers = value_parser!(u64).range(1..MOST_STEPS + 1);
    number_option(alloc, "session-reserve", "N", help, numbers, false)
}

/// The flag `--log`.
fn log_option<'a>(alloc: Global) -> Arg<'a>
    ensures rule { rule_of result ≡ line.log_option }
    ensures local { result.global ≡ false }
{
    Arg::new(alloc, "log")
        .long("log")
        .help(
            "Write lines on standard error about the process, sessions that start or end, clients turned away, and refusals",
        )
        // It takes no value: `clap` stores `true` for it, which `is_set` compares.
        .action(ArgAction::SetTrue)
}

/// The option `--log-format FORMAT`.
fn log_format_option<'a>(alloc: Global) -> Arg<'a>
    ensures rule { rule_of result ≡ line.log_format_option }
    ensures local { result.global ≡ false }
{
    Arg::new(alloc, "log-format")
        .long("log-format")
        .value_name("FORMAT")
        .help("Write the log as `text`, or as `json`: an object a line")
        // Any text: `format_if_any` checks it, so that its refusal names both formats.
        .value_parser(ValueParser::String)
}

/// The option `--log-every SECONDS`.
fn log_every_option<'a>(alloc: Global) -> Arg<'a>
    ensures rule { rule_of result ≡ line.log_every_option }
    ensures local { result.global ≡ false }
{
    let help = "Write how each running session stands after so many seconds each: 1 to 1000000";
    let numbers = value_parser!(u64).range(1..MOST_SECONDS + 1);
    number_option(alloc, "log-every", "SECONDS", help, numbers, false)
}

/// The command `run`.
fn run_command<'a>(alloc: Global) -> Result<Command<'a>, AllocError>
    ensures { IfOk result (λ command. (app_of command ≡ line.run_command) × ((out-Command command).has_globals ≡ false)) }
{
    let help = "Steps that the jobs of the session may spend: 0 to 4611686018427387904 (2^62)";
    Command::new(alloc, "run")
        .about("Serves one session on standard input and output")
        .arg(steps_option(alloc, help))?
        .arg(workers_option(alloc))?
        .arg(idle_option(alloc))?
        .arg(log_option(alloc))?
        .arg(log_format_option(alloc))?
        .arg(log_every_option(alloc))
}

/// The command `serve`.
fn serve_command<'a>(alloc: Global) -> Result<Command<'a>, AllocError>
    ensures { IfOk result (λ command. (app_of command ≡ line.serve_command) × ((out-Command command).has_globals ≡ false)) }
{
    let help = "Steps that the jobs of all sessions may spend: 0 to 4611686018427387904 (2^62)";
    Command::new(alloc, "serve")
        .about("Serves up to 16 sessions at once over TCP, on one budget of steps")
        .arg(port_option(alloc))?
        .arg(steps_option(alloc, help))?
        .arg(workers_option(alloc))?
        .arg(sessions_option(alloc))?
        .arg(idle_option(alloc))?
        .arg(session_seconds_option(alloc))?
        .arg(min_rate_option(alloc))?
        .arg(session_steps_option(alloc))?
        .arg(session_reserve_option(alloc))?
        .arg(log_option(alloc))?
        .arg(log_format_option(alloc))?
        .arg(log_every_option(alloc))
}

/// The command line: `spmat run ..`, `spmat serve ..` or `spmat --version`.
pub fn program<'a>(alloc: Global) -> Result<Command<'a>, AllocError>
    ensures { IfOk result (λ command. app_of command ≡ line.program) }
{
    Command::new(alloc, "spmat")
        .version(VERSION)
        .about(
            "A server for jobs over sparse matrices of 64-bit integers, whose operators are BPF code",
        )
        // `spmat` alone would have nothing to do.
        .subcommand_required(true)
        .subcommand(run_command(alloc)?)?
        .subcommand(serve_command(alloc)?)
}
