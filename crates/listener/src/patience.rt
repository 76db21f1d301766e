//! For how long a session waits for its client, and why it is ended then.
ghost use Rattle.std.specs.Prelude.{◌≡◌, ◌<◌, ◌+◌, ◌-◌, ◌^◌, ◌↔◌, min, IsTrue, None};
ghost use Rattle.listener.specs.inner.Patience.{age_bound, call_bound, grace_by, rate_bound, read_bound, sooner, time_over, write_bound};

use session_log::Cut;

/// For how long a session may still wait, in thousandths of a second, and why it is ended then.
#[derive(Clone, Copy, Debug, PartialEq, Eq)]
pub struct Bound {
    pub left: u64,
    pub cut: Cut,
}

/// Bounds on how long a session waits for its client. Without a number there is none.
#[derive(Clone, Copy, Debug, PartialEq, Eq)]
pub struct Patience {
    /// For how many seconds it waits in one call.
    pub idle: Option<u64>,
    /// For how many seconds it lasts.
    pub seconds: Option<u64>,
    /// How many bytes of a command have to arrive in a second.
    pub rate: Option<u64>,
}

/// The command that a client is sending: how many bytes of it have come since the last reply, and
/// for how many thousandths of a second the session has waited for more of them.
#[derive(Clone, Copy, Debug, PartialEq, Eq)]
pub struct Arrival {
    pub bytes: u64,
    pub waited: u64,
}

/// How long a command may take to arrive whatever its rate, and how long a session that has lasted
/// long enough may still write replies, in thousandths of a second.
const GRACE: u64 = 10_000;

impl Arrival {
    /// No command yet.
    pub fn none() -> Self
        ensures { result ≡ record { bytes = 0; waited = 0 } }
    {
        Arrival {
            bytes: 0,
            waited: 0,
        }
    }

    /// So many bytes more, for which the session waited so long. What it waited for the first of
    /// them isn't counted.
    pub fn and(self, bytes: u64, waited: u64) -> Self
        ensures bytes { result.bytes ≡ min (self.bytes + bytes) (2 ^ 64 - 1) }
        ensures first { self.bytes ≡ 0 → result.waited ≡ self.waited }
        ensures more { 0 < self.bytes → result.waited ≡ min (self.waited + waited) (2 ^ 64 - 1) }
    {
        let waited = if self.bytes == 0 { 0 } else { waited };
        Arrival {
            bytes: self.bytes.saturating_add(bytes),
            waited: self.waited.saturating_add(waited),
        }
    }
}

/// The bound of one call.
fn call_bound(idle: Option<u64>) -> Option<Bound>
    ensures { result ≡ call_bound idle }
{
    match idle {
        Some(seconds) => Some(Bound {
            left: seconds.saturating_mul(1000),
            cut: Cut::Idle,
        }),
        None => None,
    }
}

/// How long a command may take whatever its rate.
fn grace_by(idle: Option<u64>) -> u64
    ensures { result ≡ grace_by idle }
{
    match idle {
        Some(seconds) => GRACE.min(seconds.saturating_mul(1000)),
        None => GRACE,
    }
}

/// The bound of a session that has lasted so long, and so much longer.
fn age_bound(seconds: Option<u64>, lasted: u64, more: u64) -> Option<Bound>
    ensures { result ≡ age_bound seconds lasted more }
{
    match seconds {
        Some(seconds) => Some(Bound {
            left: seconds
                .saturating_mul(1000)
                .saturating_sub(lasted)
                .saturating_add(more),
            cut: Cut::Seconds,
        }),
        None => None,
    }
}

/// The bound of a command that arrives.
fn rate_bound(rate: Option<u64>, grace: u64, arrival: Arrival) -> Option<Bound>
    ensures { result ≡ rate_bound rate grace arrival }
{
    match rate {
        Some(rate) => {
            if 0 < arrival.bytes {
                let due = arrival.bytes.saturating_mul(1000) / rate.max(1);
                Some(Bound {
                    left: grace.saturating_add(due).saturating_sub(arrival.waited),
                    cut: Cut::Slow,
                })
            } else {
                None
            }
        }
        None => None,
    }
}

/// The bound that comes first.
fn sooner(one: Option<Bound>, other: Option<Bound>) -> Option<Bound>
    ensures { result ≡ sooner one other }
{
    match (one, other) {
        (None, other) => other,
        (Some(one), None) => Some(one),
        (Some(one), Some(other)) => {
            if other.left < one.left {
                Some(other)
            } else {
                Some(one)
            }
        }
    }
}

impl Patience {
    /// Whether nothing but single calls is bounded.
    pub fn is_plain(&self) -> bool
        ensures { IsTrue result ↔ (self.now.seconds ≡ None) × (self.now.rate ≡ None) }
    {
        self.seconds.is_none() && self.rate.is_none()
    }

    /// How long a session that has lasted so long has been over its time.
    pub fn over(&self, lasted: u64) -> u64
        ensures { result ≡ time_over self.now.seconds lasted }
    {
        match self.seconds {
            Some(seconds) => lasted.saturating_sub(seconds.saturating_mul(1000)),
            None => 0,
        }
    }

    /// For how long a session that has lasted so long may wait for bytes, where so much of a
    /// command has come.
    pub fn to_read(&self, lasted: u64, arrival: Arrival) -> Option<Bound>
        ensures { result ≡ read_bound self.now lasted arrival }
    {
        let usual = sooner(call_bound(self.idle), age_bound(self.seconds, lasted, 0));
        sooner(usual, rate_bound(self.rate, grace_by(self.idle), arrival))
    }

    /// For how long it may wait until its client takes bytes, where it has waited for so long
    /// already past its time.
    pub fn to_write(&self, lasted: u64, late: u64) -> Option<Bound>
        ensures { result ≡ write_bound self.now lasted late }
    {
        let more = GRACE.saturating_sub(late);
        sooner(call_bound(self.idle), age_bound(self.seconds, lasted, more))
    }
}
