//! Why a call of the system failed.
ghost use Rattle.std.specs.Prelude.{◌≡◌, ℤ, None, Some};
ghost use Rattle.std.specs.IoError.{raw_os_error};

use std::io::ErrorKind;
use std::{fmt, io};

/// Why a call of the system failed, as far as that is known.
#[derive(Clone, Copy, Debug, PartialEq, Eq)]
pub enum Cause {
    /// The system tells it by this number.
    System(i32),
    /// It waited for as long as it may.
    Idle,
    /// The system doesn't tell it.
    Unknown,
}

impl Cause {
    /// The cause that an error tells.
    pub fn of(error: &io::Error) -> Self
        ensures reported { (code : ℤ) → raw_os_error error.now ≡ Some code → result ≡ Cause.System code }
        ensures untold { raw_os_error error.now ≡ None → result ≡ Cause.Unknown }
    {
        match error.raw_os_error() {
            Some(code) => Cause::System(code),
            None => Cause::Unknown,
        }
    }
}

impl fmt::Display for Cause {
    fn fmt<W: fmt::Write>(&self, f: &mut fmt::Formatter<W>) -> fmt::Result {
        let code = match *self {
            Cause::System(code) => code,
            Cause::Idle => return f.write_str("the idle timeout expired"),
            Cause::Unknown => return f.write_str("the cause is unknown"),
        };
        let error = io::Error::from_raw_os_error(code);
        match error.kind() {
            ErrorKind::AddrInUse => f.write_str("the address is in use"),
            ErrorKind::PermissionDenied => f.write_str("permission denied"),
            ErrorKind::BrokenPipe => f.write_str("the other end is closed"),
            _ => write!(f, "{error}"),
        }
    }
}
