//! How sessions end, in whatever pieces their input comes and their output goes.
use super::*;
use command_text::FatalRule;

#[test]
fn pieces_do_not_change_the_text(rt: HostRuntime) -> Result<(), Fail> {
    for (read, written) in [
        (8192, 8192),
        (1, 8192),
        (2, 8192),
        (7, 8192),
        (8192, 1),
        (1, 1),
    ] {
        let reads = Pace {
            piece: read,
            ..AMPLE
        };
        let writes = Pace {
            piece: written,
            ..AMPLE
        };
        let want = Want {
            outcome: Ok(End::Quit),
            text: FIRST_RUN_TEXT,
            spent: 3,
        };
        assert_talk(
            &rt,
            rt.alloc(),
            (FIRST_RUN.as_bytes(), reads),
            writes,
            100,
            want,
        )?;
    }
    Ok(())
}

#[test]
fn a_failing_read_ends_the_session(rt: HostRuntime) -> Result<(), Fail> {
    // The reads that succeed, each of 17 bytes where a body doesn't end before, the bytes written
    // by then, and the steps spent. The fifth and the ninth end a body, and after the tenth a job
    // waits. Eleven reads bring the whole input.
    let failing = [
        (0, 0, 0),
        (1, 0, 0),
        (4, 0, 0),
        (5, 16, 0),
        (8, 16, 0),
        (9, 26, 0),
        (10, 40, 0),
        (11, 142, 3),
    ];
    for (calls, length, spent) in failing {
        let reads = Pace {
            piece: 17,
            calls,
            most: None,
        };
        let outcome = if calls < 11 {
            Err(ServeFault::Read)
        } else {
            Ok(End::Quit)
        };
        let want = Want {
            outcome,
            text: FIRST_RUN_TEXT.get(..length).ok_or("a front part")?,
            spent,
        };
        assert_talk(
            &rt,
            rt.alloc(),
            (FIRST_RUN.as_bytes(), reads),
            AMPLE,
            100,
            want,
        )?;
    }
    Ok(())
}

#[test]
fn a_failing_write_ends_the_session(rt: HostRuntime) -> Result<(), Fail> {
    // The bytes that a read brings and that a write takes at most, the writes that succeed, the
    // bytes written by then, and the steps spent. All replies to one read are one write. A write
    // that takes none has failed.
    let failing = [
        (8192, 8192, 0, 0, 3),
        (17, 8192, 0, 0, 0),
        (17, 8192, 1, 16, 0),
        (17, 8192, 2, 26, 0),
        (17, 8192, 3, 40, 3),
        (17, 1, 33, 33, 0),
        (17, 1, 100, 100, 3),
        (17, 1, 141, 141, 3),
        (8192, 1, 141, 141, 3),
        (17, 0, 9, 0, 0),
    ];
    for (read, piece, calls, length, spent) in failing {
        let want = Want {
            outcome: Err(ServeFault::Write),
            text: FIRST_RUN_TEXT.get(..length).ok_or("a front part")?,
            spent,
        };
        let reads = Pace {
            piece: read,
            ..AMPLE
        };
        let writes = Pace {
            piece,
            calls,
            most: None,
        };
        assert_talk(
            &rt,
            rt.alloc(),
            (FIRST_RUN.as_bytes(), reads),
            writes,
            100,
            want,
        )?;
    }
    Ok(())
}

#[test]
fn replies_to_one_read_are_one_write(rt: HostRuntime) -> Result<(), Fail> {
    let want = Want {
        outcome: Ok(End::Quit),
        text: FIRST_RUN_TEXT,
        spent: 3,
    };
    let writes = Pace { calls: 1, ..AMPLE };
    assert_talk(
        &rt,
        rt.alloc(),
        (FIRST_RUN.as_bytes(), AMPLE),
        writes,
        100,
        want,
    )
}

#[test]
fn one_read_too_many_ends_the_session(rt: HostRuntime) -> Result<(), Fail> {
    let reads = Pace {
        piece: 1,
        calls: u64::MAX,
        most: Some(10),
    };
    let want = Want {
        outcome: Err(ServeFault::Turns),
        text: "ok budget 100 0 0\n",
        spent: 0,
    };
    assert_talk(
        &rt,
        rt.alloc(),
        (b"budget\nbudget\n", reads),
        AMPLE,
        100,
        want,
    )
}

#[test]
fn an_endless_line_takes_1026_bytes(rt: HostRuntime) -> Result<(), Fail> {
    let reads = Pace {
        piece: 1,
        calls: u64::MAX,
        most: Some(1026),
    };
    let want = Want {
        outcome: Ok(End::Refused(FatalRule::LineTooLong)),
        text: "no S6\n",
        spent: 0,
    };
    let line = [b'x'; 2000];
    assert_talk(&rt, rt.alloc(), (&line, reads), AMPLE, 5, want)
}

#[test]
fn the_input_ends_at_each_place_in_a_body(rt: HostRuntime) -> Result<(), Fail> {
    // The first line takes 12 bytes, and its body 62.
    for length in 12..74 {
        let input = FIRST_RUN.get(..length).ok_or("a front part")?;
        let want = Want {
            outcome: Ok(End::Refused(FatalRule::InputEndsInBody)),
            text: "no S5\n",
            spent: 0,
        };
        assert_talk(&rt, rt.alloc(), (input.as_bytes(), AMPLE), AMPLE, 5, want)?;
    }
    Ok(())
}

#[test]
fn sessions_end_as_told(rt: HostRuntime) -> Result<(), Fail> {
    let refused = |rule| Ok(End::Refused(rule));
    let long = [b'x'; 1025];
    let sessions: [(&[u8], Result<End, ServeFault>, &str); 9] = [
        (b"", Ok(End::InputEnd), ""),
        (b"\n \r\n\t\n\r\n", Ok(End::InputEnd), ""),
        (b"budget", Ok(End::InputEnd), "ok budget 5 0 0\n"),
        (
            b"budgets\nquit\nbudget\n",
            Ok(End::Quit),
            "no S1\nok quit\n",
        ),
        (
            b"matrix A 62\n1 1 1\n",
            refused(FatalRule::InputEndsInBody),
            "no S5\n",
        ),
        (
            b"matrix A 268435457\nquit\n",
            refused(FatalRule::BodyTooLong),
            "no S7\n",
        ),
        (
            b"op a unary 262145\nquit\n",
            refused(FatalRule::BodyTooLong),
            "no S7\n",
        ),
        (&long, refused(FatalRule::LineTooLong), "no S6\n"),
        (&long[1..], Ok(End::InputEnd), "no S1\n"),
    ];
    for (input, outcome, text) in sessions {
        let want = Want {
            outcome,
            text,
            spent: 0,
        };
        assert_talk(&rt, rt.alloc(), (input, AMPLE), AMPLE, 5, want)?;
    }
    Ok(())
}
