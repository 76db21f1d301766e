//! The settings that the words of the command line give.
ghost use Rattle.std.specs.Prelude.{◌≡◌, ◌≢◌, ◌≤◌, ℕ, Option, Some, Err, true, is_some, codes, map};
ghost use Rattle.std.specs.Prelude.{IfOk, IfSome, MatchResult};
ghost use Rattle.clap.specs.Words.{first_of, found_of, kind_of, one_of, rows_of, takes};
ghost use Rattle.command_line.specs.Words as line;
ghost use Rattle.command_line.specs.Words.{AsksVersion, IsAsked, IsAskedIn, IsNumberOf, IsFormatIfAny, IsNumberIfAny, MayAskVersion};
ghost use Rattle.session_log.specs.declared.journal.LogFormat.{LogFormat};
ghost use Rattle.command_line.specs.InRange.{IsInRange, IsWithin};

use crate::asked::{Settings, SettingsFault};
use crate::grammar::{
    LAST_PORT, MOST_RATE, MOST_SECONDS, MOST_SESSIONS, MOST_STEPS, MOST_WORKERS, program,
};
use clap::ArgMatches;
use clap::error::ErrorKind;
use session_log::LogFormat;
use std::alloc::Global;
use std::convert::AsStr;

/// The text if a format is unknown, or if an option has no number in its range, which `clap` would
/// have to let pass.
const NO_VALUES: &str =
    "error: --log-format is `text` or `json`; numbers are in their ranges, as `--help` of the command tells them\n";

/// What follows the text if the command that is named doesn't exist.
const OTHER_COMMANDS: &str =
    "\nAlgorithms on graphs, as pagerank, are commands of spmat-graph (python3 -m spmat).\n";

/// The fault for an error of `clap`: memory ran out, the version is asked for, or the words are
/// refused with its text.
fn fault_of(alloc: Global, error: &clap::Error) -> SettingsFault
    ensures memory { kind_of error.now ≡ ErrorKind.OutOfMemory → result ≡ SettingsFault.Memory }
    ensures version { kind_of error.now ≡ ErrorKind.DisplayVersion → result ≡ SettingsFault.Version }
    ensures version_asked { result ≡ SettingsFault.Version → kind_of error.now ≡ ErrorKind.DisplayVersion }
{
    // First: the text of this error would need memory as well.
    if error.kind() == ErrorKind::OutOfMemory {
        return SettingsFault::Memory;
    }
    if error.kind() == ErrorKind::DisplayVersion {
        return SettingsFault::Version;
    }
    // The Python package has commands of its own, which users try here.
    let text = if error.kind() == ErrorKind::InvalidSubcommand {
        format!(in alloc; "{error}{OTHER_COMMANDS}")
    } else {
        format!(in alloc; "{error}")
    };
    match text {
        Ok(text) => SettingsFault::Words(text),
        // Formatting the text takes memory, too.
        Err(_) => SettingsFault::Memory,
    }
}

/// The number of an option, if it lies in a range.
fn number(matches: &ArgMatches<'_>, name: &str, least: u64, most: u64) -> Option<u64>
    ensures given { IfSome result (λ n. (least ≤ n) × (n ≤ most) ×
        IsNumberOf (one_of name.now (rows_of (found_of matches.now))) n) }
    ensures taken { (n : ℕ) → IsNumberOf (one_of name.now (rows_of (found_of matches.now))) n →
        least ≤ n → n ≤ most → result ≡ Some n }
{
    let number = matches.get_one::<u64>(name)?;
    // `clap` was given the same range. It is tested here so that the contract follows from this
    // code.
    if least <= number && number <= most {
        Some(number)
    } else {
        None
    }
}

/// Whether an option is given.
fn is_given(matches: &ArgMatches<'_>, name: &str) -> bool
    ensures { result ≡ is_some (one_of name.now (rows_of (found_of matches.now))) }
{
    match matches.try_get_one::<u64>(name) {
        Ok(None) => false,
        Ok(Some(_)) => true,
        // An error is about a value of another type, so there is a value.
        Err(_) => true,
    }
}

/// Whether a flag is set.
fn is_set(matches: &ArgMatches<'_>, name: &str) -> bool
    ensures { result ≡ line.is_set (first_of name.now (rows_of (found_of matches.now))) }
{
    match matches.get_str(name) {
        // The value that `ArgAction::SetTrue` stores.
        Some(text) => text == "true",
        None => false,
    }
}

/// The number of an option if it is given, and if it lies in a range from 1.
fn number_if_any(matches: &ArgMatches<'_>, name: &str, most: u64) -> Option<Option<u64>>
    ensures given { IfSome result (λ o. IsWithin most o ×
        IsNumberIfAny (one_of name.now (rows_of (found_of matches.now))) o) }
    ensures taken { (o : Option ℕ) → IsNumberIfAny (one_of name.now (rows_of (found_of matches.now))) o →
        IsWithin most o → result ≡ Some o }
{
    // Not given is an answer, too. Given and out of range isn't.
    if !is_given(matches, name) {
        return Some(None);
    }
    let number = number(matches, name, 1, most)?;
    Some(Some(number))
}

/// The format of the log, if it is given.
fn format_if_any(matches: &ArgMatches<'_>) -> Option<Option<LogFormat>>
    ensures given { IfSome result (λ o. IsFormatIfAny (first_of (codes "log-format") (rows_of (found_of matches.now))) o) }
    ensures taken { (o : Option LogFormat) → IsFormatIfAny (first_of (codes "log-format") (rows_of (found_of matches.now))) o →
        result ≡ Some o }
{
    match matches.get_str("log-format") {
        None => Some(None),
        Some(text) => match text {
            "text" => Some(Some(LogFormat::Text)),
            "json" => Some(Some(LogFormat::Json)),
            // Any other text is refused by `settings`, with the names of both formats.
            _ => None,
        },
    }
}

/// The settings of `run`.
fn run_settings(matches: &ArgMatches<'_>) -> Option<Settings>
    ensures asked { IfSome result (λ s. IsAskedIn (codes "run") (rows_of (found_of matches.now)) s) }
    ensures range { IfSome result (λ s. IsInRange s) }
    ensures taken { (s : Settings) → IsAskedIn (codes "run") (rows_of (found_of matches.now)) s → IsInRange s →
        result ≡ Some s }
{
    Some(Settings::Run {
        steps: number(matches, "steps", 0, MOST_STEPS as u64)?,
        workers: number(matches, "workers", 1, MOST_WORKERS as u64)?,
        idle: number_if_any(matches, "idle", MOST_SECONDS as u64)?,
        log: is_set(matches, "log"),
        log_format: format_if_any(matches)?,
        log_every: number_if_any(matches, "log-every", MOST_SECONDS as u64)?,
    })
}

/// The settings of `serve`.
fn serve_settings(matches: &ArgMatches<'_>) -> Option<Settings>
    ensures asked { IfSome result (λ s. IsAskedIn (codes "serve") (rows_of (found_of matches.now)) s) }
    ensures range { IfSome result (λ s. IsInRange s) }
    ensures taken { (s : Settings) → IsAskedIn (codes "serve") (rows_of (found_of matches.now)) s → IsInRange s →
        result ≡ Some s }
{
    let steps = number(matches, "steps", 0, MOST_STEPS as u64)?;
    let workers = number(matches, "workers", 1, MOST_WORKERS as u64)?;
    Some(Settings::Serve {
        // At most 65,535, so the cast is exact.
        port: number(matches, "port", 1, LAST_PORT as u64)? as u16,
        steps,
        workers,
        sessions: number_if_any(matches, "sessions", MOST_SESSIONS as u64)?,
        idle: number_if_any(matches, "idle", MOST_SECONDS as u64)?,
        session_seconds: number_if_any(matches, "session-seconds", MOST_SECONDS as u64)?,
        min_rate: number_if_any(matches, "min-rate", MOST_RATE as u64)?,
        session_steps: number_if_any(matches, "session-steps", MOST_STEPS as u64)?,
        session_reserve: number_if_any(matches, "session-reserve", MOST_STEPS as u64)?,
        log: is_set(matches, "log"),
        log_format: format_if_any(matches)?,
        log_every: number_if_any(matches, "log-every", MOST_SECONDS as u64)?,
    })
}

/// The settings of the command that was named.
fn settings_in(name: &str, matches: &ArgMatches<'_>) -> Option<Settings>
    ensures asked { IfSome result (λ s. IsAskedIn name.now (rows_of (found_of matches.now)) s) }
    ensures range { IfSome result (λ s. IsInRange s) }
    ensures taken { (s : Settings) → IsAskedIn name.now (rows_of (found_of matches.now)) s → IsInRange s →
        result ≡ Some s }
{
    match name {
        "run" => run_settings(matches),
        "serve" => serve_settings(matches),
        // `clap` accepts no other command.
        _ => None,
    }
}

/// Reads the words of the command line, of which the first is the program's own name.
///
/// # Errors
///
/// `Words` with the text of `clap`, if it refuses them or they ask for help, `Version`, if they ask
/// for the version, and `Memory`. Words that `clap` accepts, with numbers in their ranges, are
/// refused only if memory runs out.
pub fn settings<'a, S: AsStr>(alloc: Global, words: &'a [S]) -> Result<Settings, SettingsFault>
    ensures asked { IfOk result (λ s. IsAsked (map S.text words.now) s) }
    ensures range { IfOk result (λ s. IsInRange s) }
    ensures taken { (s : Settings) → takes line.program (map S.text words.now) ≡ true →
        IsAsked (map S.text words.now) s → IsInRange s →
        MatchResult result (λ t. t ≡ s) (λ fault. fault ≡ SettingsFault.Memory) }
    ensures version { AsksVersion (map S.text words.now) → result ≢ Err SettingsFault.Memory →
        result ≡ Err SettingsFault.Version }
    ensures version_asked { result ≡ Err SettingsFault.Version → MayAskVersion (map S.text words.now) }
{
    let matches = match program::<'a>(alloc)?.try_get_matches_from(words) {
        Ok(matches) => matches,
        Err(error) => return Err(fault_of(alloc, &error)),
    };
    if let Some((name, command)) = matches.subcommand() {
        if let Some(settings) = settings_in(name, command) {
            return Ok(settings);
        }
    }
    // Reached by an unknown log format. Numbers out of range are refused by `clap` before.
    Err(SettingsFault::Words(String::from_str(alloc, NO_VALUES)?))
}
