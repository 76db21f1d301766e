//! A tally, on values from outside.
use crate::steps::Steps;
use crate::tally::Tally;
use step_purse::{Reply, Totals};

#[test]
fn a_tally_counts(rt: HostRuntime) {
    let mut tally = Tally::open(12);
    assert_eq!(rt; tally.reserve(&rt, 13), Reply::NotEnough(12));
    assert_eq!(rt; tally.reserve(&rt, 12), Reply::Took(12));
    assert_eq!(rt; tally.owed(), 12);
    tally.settle(&rt, 12, 9);
    let totals = Totals {
        left: 3,
        reserved: 0,
        spent: 9,
    };
    assert_eq!(rt; tally.totals(&rt), totals);
}
