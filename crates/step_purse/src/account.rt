//! The cell of a purse with its allowance, and one method for each kind of step: Refuse or Look
//! (`ask`), Look (`look`), Read (`count`), Reserve, Settle or Look (`exchange`), Split (`tell`) and
//! Join (`gather`), besides the first one (`open`). Only `exchange` changes the words. `reserve`
//! and `settle` try until an exchange makes the call.
ghost use Rattle.std.specs.Prelude.{◌≡◌, ◌+◌, ◌^◌, ◌≤◌, [], nat_le, slice_index, true, MatchBool, IfOk};
ghost use Rattle.crossbeam_utils.specs.Seq.{cell_view};
ghost use Rattle.step_purse.specs.Plain.{total, IsReplyTo, PlainlyLeads, MayMake};
ghost use Rattle.step_purse.specs.Shares.{whole, half, IsWhole};
ghost use Rattle.step_purse.specs.Histories.{Makes};
ghost use Rattle.step_purse.specs.Rule.{blank, idle};
ghost use Rattle.step_purse.specs.inner.Rule.{AddsUp, SeesBoth, giving, joined, words_of, totals_in, withheld};
ghost use Rattle.step_purse.specs.declared.dealings.Dealing.TheVariants.{Reserved, Settled, Observed};
ghost use Rattle.step_purse.specs.declared.dealings.Reply.TheVariants.{NotEnough};

use crate::dealings::{Dealing, Reply, Totals};
use crate::plain::{GREATEST_ALLOWANCE, PlainPurse};
use crate::rule::{
    Allowed, Asking, Asks, Both, Calling, Counts, Exchanges, Learns, Moves, Opens, Peeks,
    PurseCell, Seat, Tells,
};
use std::alloc::{AllocError, Global};
use std::marker::Brand;
use std::sync::Wait;

/// The cell of a purse, and what the purse was opened with.
#[derive(Drop)]
pub struct Account {
    cell: PurseCell,
    // Stored, as the cell's rule can't name it: see `open`.
    allowance: u64,
    ghost small: { allowance ≤ 2 ^ 62 },
}

// The cell's first step gives its views the allowance.
fn begin<S: Allowed>(cell: &PurseCell, first: &mut Seat, allowance: u64) -> Seat
    requires pick { S.allowance ≡ allowance }
    requires small { allowance ≤ 2 ^ 62 }
    requires blank { (first.old.table_id ≡ cell.now.table.shared.table_id) × (cell_view first.old ≡ blank) }
    ensures idle { (result.table_id ≡ cell.now.table.shared.table_id) × (cell_view result ≡ idle allowance [] whole) }
{
    cell.split_pass::<Opens<S>>(first)
}

impl Account {
    ghost use Rattle.step_purse.specs.Seats.{IsSeatOf};
    ghost use Rattle.step_purse.specs.inner.Seats.{CallsAt};

    /// A new cell of this allowance, with the whole of it for one seat.
    pub fn open(alloc: Global, allowance: u64) -> Result<(Account, Seat), AllocError>
        requires { allowance ≤ 2 ^ 62 }
        ensures allowance { IfOk result (λ r. r.0.allowance ≡ allowance) }
        ensures own { IfOk result (λ r. IsSeatOf r.0 r.1) }
        ensures view { IfOk result (λ r. cell_view r.1 ≡ idle allowance [] whole) }
    {
        // The rule of a cell can't name a number that is known only at run time, so every cell
        // begins with the words of the greatest allowance. A smaller purse withholds the difference
        // permanently, and its first word includes it (`read` and `words` below).
        let (cell, mut first) = PurseCell::ruled(alloc, [GREATEST_ALLOWANCE, 0, 0])?;
        let seat = begin::<Brand>(&cell, &mut first, allowance);
        Ok((Account { cell, allowance }, seat))
    }

    /// Moves the amount from left to reserved, or changes nothing if less is left.
    pub fn reserve<R: Wait>(&self, rt: &R, seat: &mut Seat, amount: u64) -> Reply
        requires { IsSeatOf self.now seat.old }
        ensures recorded { CallsAt self.now seat.old (Reserved amount result) seat.new }
        ensures amount { IsReplyTo amount result }
    {
        // No bound on the tries: other calls may always come between.
        for _ in rt.forever() {
            // The load itself records a refusal, so that no exchange is needed to refuse.
            let now = self.ask::<Brand, R>(rt, seat, amount);
            // On a copy: the cell changes only if the exchange succeeds.
            let mut next = PlainPurse::at(now);
            let reply = next.reserve(amount);
            // `ask` has made the call already.
            let Reply::Took(_) = reply else {
                return reply;
            };
            let call = Dealing::Reserved(amount, reply);
            // It fails if another call changed the words since they were read. Then all is computed
            // anew.
            if self.exchange::<Brand, R>(rt, seat, now, next.totals(), call) {
                return reply;
            }
        }
        // `forever` doesn't end.
        unreachable!()
    }

    /// Takes the amount from reserved, adds `spent` to spent and the rest to left.
    pub fn settle<R: Wait>(&self, rt: &R, seat: &mut Seat, amount: u64, spent: u64)
        requires own { IsSeatOf self.now seat.old }
        requires spent { spent ≤ amount }
        requires owed { amount ≤ (cell_view seat.old).known.owes }
        ensures recorded { CallsAt self.now seat.old (Settled amount spent) seat.new }
    {
        for _ in rt.forever() {
            // A plain look: what a caller owes is reserved, so `settle` is never refused.
            let now = self.look(rt, seat);
            let mut next = PlainPurse::at(now);
            next.settle(amount, spent);
            let call = Dealing::Settled(amount, spent);
            if self.exchange::<Brand, R>(rt, seat, now, next.totals(), call) {
                return;
            }
        }
        unreachable!()
    }

    /// The part of the greatest allowance that this purse never gives out.
    fn withheld(&self) -> u64
        ensures { result ≡ withheld self.now.allowance }
    {
        // The allowance is at most 2^62, so this can't underflow.
        GREATEST_ALLOWANCE - self.allowance
    }

    // What the words say.
    fn read(&self, words: [u64; 3]) -> Totals
        requires { AddsUp self.now.allowance words }
        ensures { result ≡ totals_in self.now.allowance words }
    {
        Totals {
            // The first word includes what is withheld.
            left: words[0] - self.withheld(),
            reserved: words[1],
            spent: words[2],
        }
    }

    // The words that say so.
    fn words(&self, totals: Totals) -> [u64; 3]
        requires { total totals ≡ self.now.allowance }
        ensures { result ≡ words_of self.now.allowance totals }
    {
        // The inverse of `read`.
        [totals.left + self.withheld(), totals.reserved, totals.spent]
    }

    /// Refuses the amount if less is left, and otherwise looks.
    fn ask<S: Asking, R: Wait>(&self, rt: &R, seat: &mut Seat, amount: u64) -> Totals
        requires pick { S.amount ≡ amount }
        requires seat { IsSeatOf self.now seat.old }
        ensures adds_up { total result ≡ self.now.allowance }
        ensures asked { IsSeatOf self.now seat.new × (let v = (cell_view seat.old).known in
            let w = (cell_view seat.new).known in
            MatchBool (nat_le amount result.left) (w ≡ v)
            (Makes self.now.allowance v (Reserved amount (NotEnough result.left)) w)) }
    {
        // What this load means depends on what it finds: `Asks` says which step it is.
        let words = self.cell.load_as::<Asks<S>, R>(rt, seat);
        self.read(words)
    }

    /// Looks.
    fn look<R: Wait>(&self, rt: &R, seat: &mut Seat) -> Totals
        requires { IsSeatOf self.now seat.old }
        ensures same { IsSeatOf self.now seat.new × (cell_view seat.new ≡ cell_view seat.old) }
        ensures adds_up { total result ≡ self.now.allowance }
        ensures reserved { (cell_view seat.old).known.owes ≤ result.reserved }
    {
        // Unlike `count`, it isn't a call: nothing is recorded.
        let words = self.cell.load_as::<Peeks, R>(rt, seat);
        self.read(words)
    }

    /// Reads the totals.
    pub fn count<R: Wait>(&self, rt: &R, seat: &mut Seat) -> Totals
        requires { IsSeatOf self.now seat.old }
        ensures recorded { CallsAt self.now seat.old (Observed result) seat.new }
        ensures adds_up { total result ≡ self.now.allowance }
        ensures owed { IsWhole (cell_view seat.old).known.share →
            result.reserved ≡ (cell_view seat.old).known.owes }
    {
        let words = self.cell.load_as::<Counts, R>(rt, seat);
        self.read(words)
    }

    /// Makes the call, if the totals are still these. False if they aren't.
    fn exchange<S: Calling, R: Wait>(
        &self,
        rt: &R,
        seat: &mut Seat,
        now: Totals,
        next: Totals,
        call: Dealing,
    ) -> bool
        requires pick { (S.call ≡ call) × (S.expected ≡ words_of self.now.allowance now) }
        requires seat { IsSeatOf self.now seat.old }
        requires call { (total now ≡ self.now.allowance) × PlainlyLeads now call next ×
            MayMake (cell_view seat.old).known.owes call }
        ensures recorded { IsSeatOf self.now seat.new × (let v = (cell_view seat.old).known in
            let w = (cell_view seat.new).known in
            MatchBool result (Makes self.now.allowance v call w) (w ≡ v)) }
    {
        // All three words at once, so that a change of any of them is noticed.
        let expected = self.words(now);
        let written = self.words(next);
        self.cell
            .compare_exchange_as::<Exchanges<S>, R>(rt, seat, expected, written)
            .is_ok()
    }

    /// A new seat that has seen the same, with half of the share.
    pub fn tell(&self, seat: &mut Seat) -> Seat
        requires { IsSeatOf self.now seat.old }
        ensures own { IsSeatOf self.now seat.new × IsSeatOf self.now result }
        ensures views { (let v = cell_view seat.old in (cell_view seat.new ≡ giving v) ×
            (cell_view result ≡ idle self.now.allowance v.known.seen (half v.known.share))) }
    {
        // A split leaves the words as they are, so nothing has to be tried again.
        self.cell.split_pass::<Tells>(seat)
    }

    /// One seat of two, which has looked.
    pub fn gather<R: Wait>(&self, rt: &R, first: Seat, second: Seat) -> Seat
        requires { IsSeatOf self.now first × IsSeatOf self.now second }
        ensures own { IsSeatOf self.now result }
        ensures learned { SeesBoth (joined (cell_view first) (cell_view second)) (cell_view result) }
    {
        let mut first = first;
        let mut second = second;
        // Only a seat that hasn't stepped can be joined, so the second's view moves to a new one.
        let moved = self.cell.split_pass::<Moves>(&mut second);
        self.cell.join_pass::<Both>(&mut first, moved);
        // Either seat may have seen more. This load shows a history that begins with both.
        self.cell.load_as::<Learns, R>(rt, &mut first);
        first
    }
}
