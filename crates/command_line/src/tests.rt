//! The words of the command line, and the statuses.
use crate::asked::{Settings, SettingsFault};
use crate::ending::{Detail, Done, Ending, Failure, Fault, Message, Status, ending_of, finish};
use crate::words::settings;
use session::{End, FatalRule, ServeFault};
use session_log::{Cause, ListenFault, LogFormat};
use std::alloc::Global;
use std::io;
use std::process::{Abort, ExitCode};
use std::test::Fail;

/// The settings of a command line whose words are separated by single blanks.
fn settings_from(alloc: Global, line: &str) -> Result<Settings, SettingsFault> {
    let words: Vec<&str> = line.split(' ').collect(alloc)?;
    settings(alloc, words.as_slice())
}

/// Settings of `run`.
fn run(steps: u64, workers: u64) -> Settings {
    Settings::Run {
        steps,
        workers,
        idle: None,
        log: false,
        log_format: None,
        log_every: None,
    }
}

#[test]
fn words_that_are_taken(rt: HostRuntime) {
    let few = Settings::Serve {
        port: 1,
        steps: 0,
        workers: 1,
        sessions: None,
        idle: None,
        session_seconds: None,
        min_rate: None,
        session_steps: None,
        session_reserve: None,
        log: false,
        log_format: None,
        log_every: None,
    };
    let all = Settings::Serve {
        port: 65535,
        steps: 9,
        workers: 64,
        sessions: Some(1_000_000),
        idle: Some(2),
        session_seconds: Some(3),
        min_rate: Some(1_000_000_000),
        session_steps: Some(8),
        session_reserve: Some(4_611_686_018_427_387_904),
        log: true,
        log_format: Some(LogFormat::Json),
        log_every: Some(60),
    };
    let as_text = Settings::Serve {
        port: 2,
        steps: 9,
        workers: 1,
        sessions: None,
        idle: None,
        session_seconds: None,
        min_rate: None,
        session_steps: None,
        session_reserve: None,
        log: false,
        log_format: Some(LogFormat::Text),
        log_every: None,
    };
    let patient = Settings::Run {
        steps: 1,
        workers: 1,
        idle: Some(1_000_000),
        log: false,
        log_format: None,
        log_every: None,
    };
    let expected = Settings::Run {
        steps: 1,
        workers: 1,
        idle: None,
        log: true,
        log_format: Some(LogFormat::Json),
        log_every: Some(1),
    };
    let cases = [
        ("spmat run --steps 100 --workers 1", run(100, 1)),
        ("spmat run --workers 64 --steps 0", run(0, 64)),
        (
            "spmat run --steps=4611686018427387904 --workers=2",
            run(4_611_686_018_427_387_904, 2),
        ),
        ("spmat run --steps 007 --workers +3", run(7, 3)),
        (" run --steps 1 --workers 1", run(1, 1)),
        ("spmat serve --port 1 --steps 0 --workers 1", few),
        (
            "spmat serve --idle 2 --session-seconds 3 --min-rate 1000000000 --log --sessions 1000000 --workers 64 --steps 9 --port 65535 --log-every 60 --log-format json --session-steps 8 --session-reserve 4611686018427387904",
            all,
        ),
        (
            "spmat serve --port 2 --steps 9 --workers 1 --log-format=text",
            as_text,
        ),
        ("spmat run --idle 1000000 --steps 1 --workers 1", patient),
        (
            "spmat run --log --steps 1 --workers 1 --log-every 1 --log-format json",
            expected,
        ),
    ];
    for (line, settings) in cases {
        let asked = settings_from(rt.alloc(), line);
        assert!(rt; matches!(&asked, Ok(s) if *s == settings), "{line}");
    }
}

#[test]
fn the_version_is_asked_for(rt: HostRuntime) {
    for line in ["spmat --version", "spmat -V"] {
        let asked = settings_from(rt.alloc(), line);
        assert!(rt; matches!(&asked, Err(SettingsFault::Version)), "{line}");
    }
}

/// The words are refused, with a text that contains this.
fn assert_refused<H: Abort>(rt: &H, alloc: Global, line: &str, said: &str) {
    let asked = settings_from(alloc, line);
    assert!(rt;
        matches!(&asked, Err(SettingsFault::Words(text)) if text.contains(said)),
        "{line}"
    );
}

#[test]
fn words_that_are_refused(rt: HostRuntime) {
    let cases = [
        ("spmat", "'spmat' requires a subcommand"),
        ("spmat stop", "unrecognized subcommand 'stop'"),
        ("spmat pagerank", "commands of spmat-graph"),
        ("spmat run", "required arguments were not provided"),
        ("spmat run --steps 1", "--workers <W>"),
        ("spmat run --workers 1", "--steps <N>"),
        ("spmat run --steps 1 --workers 0", "0 is not in 1..=64"),
        ("spmat run --steps 1 --workers 65", "65 is not in 1..=64"),
        (
            "spmat run --steps 4611686018427387905 --workers 1",
            "4611686018427387905 is not in 0..=4611686018427387904",
        ),
        ("spmat run --steps x --workers 1", "invalid value 'x'"),
        ("spmat run --steps -1 --workers 1", "error:"),
        (
            "spmat run --steps 1 --workers 1 more",
            "unexpected argument 'more'",
        ),
        (
            "spmat run --steps 1 --steps 1 --workers 1",
            "cannot be used multiple times",
        ),
        (
            "spmat run --steps 1 --workers 1 --port 7",
            "unexpected argument '--port'",
        ),
        ("spmat serve --steps 1 --workers 1", "--port <P>"),
        (
            "spmat serve --port 0 --steps 1 --workers 1",
            "0 is not in 1..=65535",
        ),
        (
            "spmat serve --port 65536 --steps 1 --workers 1",
            "65536 is not in 1..=65535",
        ),
        (
            "spmat serve --port 7 --steps 1 --workers 1 --session-steps 0",
            "0 is not in 1..=4611686018427387904",
        ),
        (
            "spmat serve --port 7 --steps 1 --workers 1 --log-format xml",
            "--log-format is `text` or `json`",
        ),
        (
            "spmat run --steps 1 --workers 1 --session-reserve 1",
            "unexpected argument '--session-reserve'",
        ),
        (
            "spmat serve --port 7 --steps 1 --workers 1 --sessions 0",
            "0 is not in 1..=1000000",
        ),
        (
            "spmat serve --port 7 --steps 1 --workers 1 --idle 1000001",
            "1000001 is not in 1..=1000000",
        ),
        (
            "spmat run --steps 1 --workers 1 --idle 0",
            "0 is not in 1..=1000000",
        ),
        (
            "spmat serve --port 7 --steps 1 --workers 1 --log=yes",
            "unexpected value 'yes'",
        ),
        (
            "spmat run --steps 1 --workers 1 --session-seconds 1",
            "unexpected argument '--session-seconds'",
        ),
        ("spmat run --version", "unexpected argument '--version'"),
    ];
    for (line, said) in cases {
        assert_refused(&rt, rt.alloc(), line, said);
    }
}

#[test]
fn help_names_the_ranges(rt: HostRuntime) {
    let cases = [
        ("spmat --help", "Usage: spmat <COMMAND>"),
        ("spmat --help", "Serves up to 16 sessions at once over TCP"),
        (
            "spmat run --help",
            "Usage: spmat run [OPTIONS] --steps <N> --workers <W>",
        ),
        ("spmat run --help", "0 to 4611686018427387904"),
        (
            "spmat serve --help",
            "Usage: spmat serve [OPTIONS] --port <P> --steps <N> --workers <W>",
        ),
        ("spmat serve --help", "1 to 65535"),
        ("spmat serve --help", "1 to 64\n"),
        (
            "spmat serve --help",
            "End after so many sessions: 1 to 1000000",
        ),
        ("spmat serve --help", "--idle <SECONDS>"),
        ("spmat serve --help", "--log"),
        ("spmat --help", "--version"),
    ];
    for (line, said) in cases {
        assert_refused(&rt, rt.alloc(), line, said);
    }
}

/// A failure ends the program with status 1, and names itself by these words, followed by this.
fn assert_named<H: Abort>(rt: &H, failure: Failure, words: &'static str, detail: Detail) {
    let failed = Ending {
        status: Status::Failed,
        message: Message::Fault(Fault { words, detail }),
    };
    assert_eq!(rt; ending_of(Err(failure)), failed);
}

/// The cause that the system reports by this number.
fn cause(code: i32) -> Cause {
    Cause::of(&io::Error::from_raw_os_error(code))
}

#[test]
fn failures_are_named(rt: HostRuntime) {
    let closed = cause(32);
    let sessions = [
        (ServeFault::Read, "spmat: read failed"),
        (ServeFault::Write, "spmat: write failed"),
        (ServeFault::Turns, "spmat: too many reads"),
        (ServeFault::Memory, "spmat: no memory"),
    ];
    for (fault, words) in sessions {
        let failure = Failure::Session { fault, cause: None };
        assert_named(&rt, failure, words, Detail::Nothing);
        let failure = Failure::Session {
            fault,
            cause: Some(closed),
        };
        assert_named(&rt, failure, words, Detail::Failed(closed));
    }
    let failure = Failure::Listening(ListenFault::Network(closed));
    assert_named(
        &rt,
        failure,
        "spmat: network failed",
        Detail::NotAccepted(closed),
    );
    let failure = Failure::Listening(ListenFault::Memory);
    assert_named(&rt, failure, "spmat: no memory", Detail::Nothing);
    let failure = Failure::Binding {
        port: 7,
        cause: closed,
    };
    let detail = Detail::NotBound {
        port: 7,
        cause: closed,
    };
    assert_named(&rt, failure, "spmat: network failed", detail);
    assert_named(&rt, Failure::Memory, "spmat: no memory", Detail::Nothing);
    assert_named(
        &rt,
        Failure::Output(closed),
        "spmat: write failed",
        Detail::Failed(closed),
    );
    let failure = Failure::Settings(SettingsFault::Memory);
    assert_named(&rt, failure, "spmat: no memory", Detail::Nothing);
}

/// A fault is printed in these words.
fn assert_told<H: Abort>(
    rt: &H,
    alloc: Global,
    words: &'static str,
    detail: Detail,
    line: &str,
) -> Result<(), Fail> {
    let fault = Fault { words, detail };
    assert_eq!(rt; format!(in alloc; "{fault}")?.as_str(), line);
    Ok(())
}

#[test]
fn faults_tell_their_causes(rt: HostRuntime) -> Result<(), Fail> {
    let in_use = Detail::NotBound {
        port: 7171,
        cause: cause(98),
    };
    let expected = [
        (
            "spmat: network failed",
            in_use,
            "spmat: network failed\nspmat: because listening on 127.0.0.1:7171 failed: the address is in use",
        ),
        (
            "spmat: network failed",
            Detail::NotAccepted(cause(24)),
            "spmat: network failed\nspmat: because accepting a connection failed: Too many open files (os error 24)",
        ),
        (
            "spmat: write failed",
            Detail::Failed(cause(32)),
            "spmat: write failed\nspmat: because the other end is closed",
        ),
        (
            "spmat: too many reads",
            Detail::Nothing,
            "spmat: too many reads",
        ),
    ];
    for (words, detail, line) in expected {
        assert_told(&rt, rt.alloc(), words, detail, line)?;
    }
    Ok(())
}

/// What ended well says nothing, and has this status.
fn assert_silent<H: Abort>(rt: &H, done: Done, status: Status) {
    let ended = Ending {
        status,
        message: Message::Nothing,
    };
    assert_eq!(rt; ending_of(Ok(done)), ended);
}

#[test]
fn sessions_end(rt: HostRuntime) {
    for end in [End::Quit, End::InputEnd] {
        assert_silent(&rt, Done::Session(end), Status::Ended);
    }
    assert_silent(&rt, Done::Sessions, Status::Ended);
    assert_silent(&rt, Done::Version, Status::Ended);
    for rule in [
        FatalRule::MalformedWords,
        FatalRule::InputEndsInBody,
        FatalRule::LineTooLong,
        FatalRule::BodyTooLong,
    ] {
        assert_silent(
            &rt,
            Done::Session(End::Refused(rule)),
            Status::SessionRefused,
        );
    }
}

#[test]
fn words_that_give_no_settings_end_the_program(rt: HostRuntime) -> Result<(), Fail> {
    let text = String::from_str(rt.alloc(), "no words\n")?;
    let refused = ending_of(Err(Failure::Settings(SettingsFault::Words(text))));
    assert_eq!(rt; refused.status, Status::WordsRefused);
    assert!(rt; matches!(&refused.message, Message::Words(text) if text.as_str() == "no words\n"));
    Ok(())
}

#[test]
fn statuses_have_numbers(rt: HostRuntime) {
    let statuses = [
        (Status::Ended, 0),
        (Status::Failed, 1),
        (Status::WordsRefused, 2),
        (Status::SessionRefused, 3),
    ];
    for (status, number) in statuses {
        let ending = Ending {
            status,
            message: Message::Nothing,
        };
        assert!(rt; finish(&rt, ending) == ExitCode::from(number));
    }
}

#[test]
fn faults_have_texts(rt: HostRuntime) -> Result<(), Fail> {
    let text = String::from_str(rt.alloc(), "no words")?;
    for (fault, said) in [
        (SettingsFault::Words(text), "no words"),
        (SettingsFault::Version, "the version is asked for"),
        (SettingsFault::Memory, "no memory"),
    ] {
        assert_eq!(rt; format!(in rt.alloc(); "{fault}")?.as_str(), said);
    }
    Ok(())
}
