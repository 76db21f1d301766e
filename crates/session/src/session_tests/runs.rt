//! What a session settles at its end, and a session that is short of memory.
use super::*;

#[test]
fn a_waiting_job_is_settled_at_the_end(rt: HostRuntime) -> Result<(), Fail> {
    let mut input = String::from_str(rt.alloc(), SETUP)?;
    input.push_str("apply B inc A\nbudget\n")?;
    let mut text = String::from_str(rt.alloc(), SETUP_TEXT)?;
    text.push_str("ok queued 1 3\nok budget 97 3 0\n")?;
    let want = Want {
        outcome: Ok(End::InputEnd),
        text: &text,
        spent: 0,
    };
    assert_talk(&rt, rt.alloc(), (input.as_bytes(), AMPLE), AMPLE, 100, want)
}

/// Whether two texts are the same line by line, up to a line of the first that says that there is
/// no memory.
fn agrees_until_memory_is_refused(text: &str, ample: &str) -> bool {
    for (line, wanted) in text.lines().zip(ample.lines()) {
        if line != wanted {
            return line.starts_with("no memory");
        }
    }
    text == ample
}

/// This holds whichever allocation is refused: nothing is written, or the text is that of ample
/// memory up to a refusal that says so, and the session goes on to its end.
#[test]
fn first_run_short_of_memory(rt: HostRuntime) -> Result<(), Fail> {
    let Ok(mut text) = Vec::with_capacity(rt.alloc(), 1024) else {
        return Ok(());
    };
    let mut steps = Tally::open(100);
    let input = (FIRST_RUN.as_bytes(), AMPLE);
    let outcome = talk(&rt, rt.alloc(), input, (&mut text, AMPLE), &mut steps);
    let text = str::from_utf8(&text)?;
    if outcome == Err(ServeFault::Memory) {
        assert_eq!(rt; text, "");
    } else {
        assert_eq!(rt; outcome, Ok(End::Quit));
        assert!(rt;
            agrees_until_memory_is_refused(text, FIRST_RUN_TEXT),
            "{text}"
        );
        assert!(rt; text.ends_with("ok quit\n"), "{text}");
    }
    assert_eq!(rt; steps.owed(), 0);
    Ok(())
}
