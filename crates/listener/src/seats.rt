//! The seats of a server, of which each running session has one.
ghost use Rattle.std.specs.Prelude.{◌≡◌, ◌≤◌, ◌+◌, IfSome, IfNone};

use std::sync::ledger::{Blank, Book, Ledger, Share};
use std::sync::{Mutex, Wait};

/// How many sessions run at once.
pub const SEATS: u64 = 16;

/// How many seats are free. Those that are taken are counted by a ledger, which takes no memory: a
/// token for each is out.
#[derive(Drop)]
pub struct Seats<L: Ledger> {
    free: u64,
    taken: Book<L>,
    rest: Share<L>,
    ghost adds_up: { free + taken.total ≡ 16 },
    ghost backed: { free ≤ rest.parts },
    ghost idle: { rest.amount ≡ 0 },
}

/// What stands for one seat that is taken.
#[derive(Drop)]
pub struct Token<L: Ledger> {
    share: Share<L>,
    ghost part: { share.parts ≡ 1 },
    ghost one: { share.amount ≡ 1 },
}

impl<L: Ledger> Seats<L> {
    /// Sixteen free seats, counted by this ledger.
    pub fn new(blank: Blank) -> Self
        requires { (blank.name ≡ L.name) × (blank.parts ≡ L.parts) × (blank.parts ≡ 16) }
        ensures { result.taken.total ≡ 0 }
    {
        let (taken, rest) = blank.open();
        Seats {
            free: SEATS,
            taken,
            rest,
        }
    }

    /// Takes a seat, if one is free.
    fn take(&mut self) -> Option<Token<L>>
        ensures some { IfSome result (λ t. self.new.taken.total ≡ self.old.taken.total + 1) }
        ensures none { IfNone result (self.old.taken.total ≡ 16) }
    {
        if self.free == 0 {
            return None;
        }
        let Seats { free, taken, rest } = self;
        let mut share = rest.split_off(1, 0);
        taken.add(&mut share, 1);
        *free -= 1;
        Some(Token { share })
    }

    /// Takes a seat back.
    fn give_back(&mut self, token: Token<L>)
        ensures { self.new.taken.total + 1 ≡ self.old.taken.total }
    {
        let Token { mut share } = token;
        let Seats { free, taken, rest } = self;
        taken.sub(&mut share, 1);
        rest.merge(share);
        *free += 1;
    }
}

/// A seat that is taken. It is free again where this is dropped: at the end of a session, and where
/// no thread could be started for one.
pub struct Seat<'h, R: Wait, L: Ledger> {
    rt: &'h R,
    seats: &'h Mutex<Seats<L>>,
    token: Token<L>,
}

impl<R: Wait, L: Ledger> Drop for Seat<'_, R, L> {
    fn drop(self) {
        let Seat { rt, seats, token } = self;
        seats.lock(rt).give_back(token);
    }
}

/// Takes a seat, if one is free.
pub fn take_seat<'h, R: Wait, L: Ledger>(
    rt: &'h R,
    seats: &'h Mutex<Seats<L>>,
) -> Option<Seat<'h, R, L>> {
    let token = seats.lock(rt).take()?;
    Some(Seat { rt, seats, token })
}
