//! How errors of reading are shown. What is read and written is seen in sessions of the program.
use csr_store::{EntryList, RefusedGrowth};
use matrix_market::{MarketError, MarketRule, read};
use std::alloc::Global;
use std::process::Abort;
use std::test::Fail;

/// An error is shown as this.
fn assert_shown(
    rt: &impl Abort,
    alloc: Global,
    error: MarketError,
    wanted: &str,
) -> Result<(), Fail> {
    assert_eq!(rt; format!(in alloc; "{error}")?.as_str(), wanted);
    Ok(())
}

/// What a list tells that asks for more room than a block of memory can have.
fn refused_growth(rt: &impl Abort, alloc: Global) -> RefusedGrowth {
    let mut list = EntryList::new(alloc, 1, 1);
    match list.reserve(usize::MAX) {
        Ok(()) => panic!(rt; "room for {} entries", usize::MAX),
        Err(refused) => refused,
    }
}

#[test]
fn errors_are_shown_with_their_line(rt: HostRuntime) -> Result<(), Fail> {
    match read(
        rt.alloc(),
        b"%%MatrixMarket matrix coordinate integer general\n1 1\n",
    ) {
        Ok(_) => panic!(rt; "a size line of two numbers"),
        Err(error) => assert_shown(&rt, rt.alloc(), error, "line 2: M3")?,
    }
    let refused = refused_growth(&rt, rt.alloc());
    for error in &[MarketError::NoRoom(refused), MarketError::Memory(refused)] {
        assert_shown(&rt, rt.alloc(), *error, "no memory for the matrix")?;
    }
    let late = MarketError::Fault {
        rule: MarketRule::LineAfterLastEntry,
        line: 7,
    };
    assert_shown(&rt, rt.alloc(), late, "line 7: M10")?;
    assert_eq!(rt; MarketRule::SymmetricNotSquare.name(), "M12");
    Ok(())
}

/// A text whose fourth line breaks a rule. No position is given again before it.
const LATE_FAULT: &[u8] =
    b"%%MatrixMarket matrix coordinate integer general\n2 2 3\n1 1 5\n2 2 x\n1 2 7\n";

/// What reading a text is refused for, asked for once more where the room of its entries was
/// refused.
fn refusal_of(alloc: Global, text: &[u8]) -> Option<MarketError> {
    match read(alloc, text) {
        Ok(_) => None,
        Err(MarketError::NoRoom(_)) => read(alloc, text).err(),
        Err(error) => Some(error),
    }
}

/// Memory for the entries is allocated before the lines are read, and no more where a fault is
/// found. So this passes whichever one allocation is refused.
#[test]
fn a_fault_that_is_found_is_told_without_memory(rt: HostRuntime) -> Result<(), Fail> {
    match refusal_of(rt.alloc(), LATE_FAULT) {
        Some(error) => assert_shown(&rt, rt.alloc(), error, "line 4: M5")?,
        None => panic!(rt; "an entry line with a word"),
    }
    Ok(())
}
