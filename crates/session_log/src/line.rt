//! What the log tells, as a line for each event: text, or an object of JSON.
//!
//! Contracts say the text of each field, but for what the clock tells: the time at the front of a
//! line, and the seconds of a session.
ghost use Rattle.std.specs.Prelude.{Some, option_map};
ghost use Rattle.std.specs.Fmt.{DisplaysOnOk, WritesOnOk};
ghost use Rattle.session_log.specs.inner.Text.{account_text, number_text, number_text_if_any, untold_text, who_text, word_text};

use crate::entry::{Account, Entry, Event};
use crate::journal::LogFormat;
use crate::origin::Origin;
use crate::pace::Untold;
use crate::refusal::Refusal;
use crate::roster::Standing;
use crate::tally::Counts;
use jiff::Timestamp;
use std::fmt;
use std::time::{Duration, SystemTime};

/// Where a line of a server stands: when it is written, where the clients of the server come in,
/// and in which format.
#[derive(Clone, Copy)]
pub struct Context {
    pub at: Option<SystemTime>,
    pub address: Origin,
    pub format: LogFormat,
}

/// The terms on which sessions are served, as a log names them. Without a number there is no bound.
#[derive(Clone, Copy, Debug, PartialEq, Eq)]
pub struct LoggedTerms {
    /// How many workers run a batch of a session.
    pub workers: u64,
    /// How many sessions are started.
    pub sessions: Option<u64>,
    /// How many seconds a session waits for its client, how many it lasts, and how many bytes of a
    /// command have to arrive in one.
    pub idle: Option<u64>,
    pub session_seconds: Option<u64>,
    pub min_rate: Option<u64>,
    /// How many steps a session may have spent and reserved together, and how many reserved.
    pub session_steps: Option<u64>,
    pub session_reserve: Option<u64>,
}

/// Why no more sessions are served.
#[derive(Clone, Copy, Debug, PartialEq, Eq)]
pub enum CloseReason {
    /// As many were started as were asked for, and have ended.
    Sessions,
    /// A connection could not be accepted.
    NetworkFailed,
    /// There was no memory for the first.
    NoMemory,
}

/// A server that opens: its program's version, the steps of its purse, and its terms.
#[derive(Clone, Copy)]
pub struct Opening<'o> {
    pub context: Context,
    pub version: &'o str,
    pub steps: u64,
    pub terms: LoggedTerms,
}

/// A server whose sessions have all ended: why it takes no more, what it served and spent, what is
/// left, and what had no line.
#[derive(Clone, Copy)]
pub struct Closing {
    pub context: Context,
    pub reason: CloseReason,
    pub counts: Counts,
    pub spent: u64,
    pub left: u64,
    pub untold: Untold,
}

/// An entry as a line: words and fields `NAME=VALUE`, or an object of JSON.
#[derive(Clone, Copy)]
pub struct Line<'e> {
    pub entry: &'e Entry,
    pub format: LogFormat,
}

/// The date and time of day of a moment, in UTC.
fn stamp_of(at: Option<SystemTime>) -> Option<Timestamp> {
    Timestamp::try_from(at?).ok()
}

/// What a line begins with: when it happened, and what.
fn begin<W: fmt::Write>(
    f: &mut fmt::Formatter<W>,
    format: LogFormat,
    at: Option<SystemTime>,
    event: &str,
) -> fmt::Result {
    let stamp = stamp_of(at);
    match format {
        LogFormat::Text => {
            f.write_str("spmat: ")?;
            if let Some(at) = stamp {
                write!(f, "time={at:.3} ")?;
            }
            f.write_str(event)
        }
        LogFormat::Json => {
            f.write_str("{")?;
            if let Some(at) = stamp {
                write!(f, "\"time\":\"{at:.3}\",")?;
            }
            write!(f, "\"event\":\"{event}\"")
        }
    }
}

/// What a line ends with.
fn finish<W: fmt::Write>(f: &mut fmt::Formatter<W>, format: LogFormat) -> fmt::Result {
    match format {
        LogFormat::Text => Ok(()),
        LogFormat::Json => f.write_str("}"),
    }
}

/// A field whose value is a word.
fn word<W: fmt::Write, D: fmt::Display + Drop>(
    f: &mut fmt::Formatter<W>,
    format: LogFormat,
    name: &str,
    value: D,
) -> fmt::Result
    ensures { DisplaysOnOk W.write_str_gives f.old result (option_map (word_text format name.now) (D.output value)) f.new }
{
    match format {
        LogFormat::Text => write!(f, " {name}={value}"),
        LogFormat::Json => write!(f, ",\"{name}\":\"{value}\""),
    }
}

/// A field whose value is a number.
fn number<W: fmt::Write>(
    f: &mut fmt::Formatter<W>,
    format: LogFormat,
    name: &str,
    value: u64,
) -> fmt::Result
    ensures { WritesOnOk W.write_str_gives f.old result (number_text format name.now value) f.new }
{
    match format {
        LogFormat::Text => write!(f, " {name}={value}"),
        LogFormat::Json => write!(f, ",\"{name}\":{value}"),
    }
}

/// A field whose value is a number, or none.
fn number_if_any<W: fmt::Write>(
    f: &mut fmt::Formatter<W>,
    format: LogFormat,
    name: &str,
    value: Option<u64>,
) -> fmt::Result
    ensures { WritesOnOk W.write_str_gives f.old result (number_text_if_any format name.now value) f.new }
{
    match (value, format) {
        (Some(value), _) => number(f, format, name, value),
        (None, LogFormat::Text) => write!(f, " {name}=none"),
        (None, LogFormat::Json) => write!(f, ",\"{name}\":null"),
    }
}

/// The field `seconds`, which may not be known.
fn seconds<W: fmt::Write>(
    f: &mut fmt::Formatter<W>,
    format: LogFormat,
    time: Option<Duration>,
) -> fmt::Result {
    let Some(time) = time else {
        return match format {
            LogFormat::Text => f.write_str(" seconds=unknown"),
            LogFormat::Json => f.write_str(",\"seconds\":null"),
        };
    };
    let (whole, thousandths) = (time.as_secs(), time.subsec_millis());
    match format {
        LogFormat::Text => write!(f, " seconds={whole}.{thousandths:03}"),
        LogFormat::Json => write!(f, ",\"seconds\":{whole}.{thousandths:03}"),
    }
}

/// The fields of a refusal.
fn refused<W: fmt::Write>(
    f: &mut fmt::Formatter<W>,
    format: LogFormat,
    refusal: Refusal,
) -> fmt::Result {
    word(f, format, "rule", refusal)?;
    if let Refusal::Steps { price, left } = refusal {
        number(f, format, "price", price)?;
        number(f, format, "left", left)?;
    }
    Ok(())
}

/// The fields of a line that tell whose it is.
fn who<W: fmt::Write>(f: &mut fmt::Formatter<W>, format: LogFormat, entry: &Entry) -> fmt::Result
    ensures { WritesOnOk W.write_str_gives f.old result (who_text format entry.now) f.new }
{
    number_if_any(f, format, "id", entry.number)?;
    word(f, format, "client", entry.client)
}

/// The fields of what a session took.
fn taken<W: fmt::Write>(
    f: &mut fmt::Formatter<W>,
    format: LogFormat,
    account: &Account,
) -> fmt::Result
    ensures { WritesOnOk W.write_str_gives f.old result (account_text format account.now) f.new }
{
    number(f, format, "in", account.received)?;
    number(f, format, "out", account.sent)?;
    number(f, format, "commands", account.commands)?;
    number(f, format, "jobs", account.jobs)?;
    number(f, format, "steps", account.spent)?;
    number(f, format, "refused", account.refused)
}

/// The fields of a session that runs.
fn runs<W: fmt::Write>(
    f: &mut fmt::Formatter<W>,
    format: LogFormat,
    time: Option<Duration>,
    standing: &Standing,
) -> fmt::Result {
    seconds(f, format, time)?;
    word(f, format, "state", standing.state)?;
    number(f, format, "jobs", standing.jobs)?;
    number(f, format, "reserved", standing.reserved)?;
    number(f, format, "steps", standing.spent)?;
    number(f, format, "in", standing.received)?;
    number(f, format, "out", standing.sent)
}

/// The fields of what has no line, of lines that tell of steps.
fn untold_steps<W: fmt::Write>(
    f: &mut fmt::Formatter<W>,
    format: LogFormat,
    untold: &Untold,
) -> fmt::Result
    ensures { WritesOnOk W.write_str_gives f.old result (untold_text format untold.now) f.new }
{
    number(f, format, "untold", untold.lines)?;
    number(f, format, "untold_steps", untold.steps)
}

impl fmt::Display for Line<'_> {
    fn fmt<W: fmt::Write>(&self, f: &mut fmt::Formatter<W>) -> fmt::Result {
        let format = self.format;
        let Entry {
            at,
            event,
            untold,
            ..
        } = *self.entry;
        let name = match event {
            Event::Start => "start",
            Event::Refused(_) => "refused",
            Event::End(_) => "session",
            Event::Runs { .. } => "runs",
        };
        begin(f, format, at, name)?;
        who(f, format, self.entry)?;
        match event {
            Event::Start => number(f, format, "untold", untold.lines)?,
            Event::Refused(refusal) => {
                refused(f, format, refusal)?;
                number(f, format, "untold", untold.lines)?;
            }
            Event::End(account) => {
                word(f, format, "end", account.ending)?;
                seconds(f, format, account.time)?;
                taken(f, format, &account)?;
                untold_steps(f, format, &untold)?;
            }
            Event::Runs { time, standing } => runs(f, format, time, &standing)?,
        }
        finish(f, format)
    }
}

impl fmt::Display for Opening<'_> {
    fn fmt<W: fmt::Write>(&self, f: &mut fmt::Formatter<W>) -> fmt::Result {
        let Context {
            at,
            address,
            format,
        } = self.context;
        let terms = self.terms;
        begin(f, format, at, "server-start")?;
        word(f, format, "address", address)?;
        word(f, format, "version", self.version)?;
        number(f, format, "steps", self.steps)?;
        number(f, format, "workers", terms.workers)?;
        number_if_any(f, format, "sessions", terms.sessions)?;
        number_if_any(f, format, "idle", terms.idle)?;
        number_if_any(f, format, "session_seconds", terms.session_seconds)?;
        number_if_any(f, format, "min_rate", terms.min_rate)?;
        number_if_any(f, format, "session_steps", terms.session_steps)?;
        number_if_any(f, format, "session_reserve", terms.session_reserve)?;
        finish(f, format)
    }
}

impl fmt::Display for Closing {
    fn fmt<W: fmt::Write>(&self, f: &mut fmt::Formatter<W>) -> fmt::Result {
        let Context {
            at,
            address,
            format,
        } = self.context;
        begin(f, format, at, "server-end")?;
        word(f, format, "address", address)?;
        let why = match self.reason {
            CloseReason::Sessions => "sessions",
            CloseReason::NetworkFailed => "network-failed",
            CloseReason::NoMemory => "no-memory",
        };
        word(f, format, "end", why)?;
        number(f, format, "sessions", self.counts.sessions)?;
        number(f, format, "turned_away", self.counts.turned_away)?;
        number(f, format, "refused", self.counts.refused)?;
        number(f, format, "steps", self.spent)?;
        number(f, format, "left", self.left)?;
        untold_steps(f, format, &self.untold)?;
        finish(f, format)
    }
}
