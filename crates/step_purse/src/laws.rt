//! What holds of every legal history, and of the calls that a pass makes in order. These functions
//! compute nothing: each states a law of the definitions.
ghost use Rattle.std.specs.Prelude.{◌≡◌, ◌+◌, ◌≤◌, ℕ, List, [], ◌∷◌, ◌++◌};
ghost use Rattle.step_purse.specs.Plain.{opened, total, after_all, IsLegal, PlainlyLeads};
ghost use Rattle.step_purse.specs.Plain.{owed_after_all, total_taken, total_settled};
ghost use Rattle.step_purse.specs.Shares.{IsWhole, half, both_shares};
ghost use Rattle.step_purse.specs.Histories.{Begins, IsSound, Makes, Leads, totals_seen, own_calls};
ghost use Rattle.step_purse.specs.declared.dealings.Dealing.{Dealing};
ghost use Rattle.step_purse.specs.declared.views.Books.{Books};
ghost use Rattle.step_purse.specs.declared.views.Share.{Share};

/// Left, reserved and spent add up to the allowance at every point of a legal history.
pub fn adds_up_at_every_point()
    ensures { (allowance : ℕ) (history rest : List Dealing) → IsLegal (opened allowance) (history ++ rest)
        → total (after_all (opened allowance) history) ≡ allowance }
{}

/// A caller that makes all calls of a legal history owes exactly what is reserved.
pub fn one_caller_owes_what_is_reserved()
    ensures { (allowance : ℕ) (history : List Dealing) → IsLegal (opened allowance) history
        → owed_after_all 0 history ≡ (after_all (opened allowance) history).reserved }
{}

/// What a pass owes is at most the allowance.
pub fn owed_is_bounded()
    ensures { (allowance : ℕ) (k : Books) → IsSound allowance k → k.owes ≤ allowance }
{}

/// A caller that gives away half of a share and takes it back has the whole again, if it had that.
pub fn shares_come_back()
    ensures { (s : Share) → IsWhole s → IsWhole (both_shares (half s) (half s)) }
{}

/// A pass that has the whole share gets the replies of a purse of one thread, at the totals that it
/// saw last.
pub fn alone_is_answered_as_one_thread()
    ensures { (allowance : ℕ) (before : Books) (call : Dealing) (now : Books) → Makes allowance before call now
        → IsWhole before.share → PlainlyLeads (totals_seen allowance before) call (totals_seen allowance now) }
{}

/// Calls in order, followed by others in order, are calls in order; so are calls in order followed
/// by another call.
pub fn calls_in_a_row()
    ensures others { (allowance : ℕ) (first next last : Books) (ds es : List Dealing) → Leads allowance first ds next
        → Leads allowance next es last → Leads allowance first (ds ++ es) last }
    ensures one_more { (allowance : ℕ) (first next last : Books) (ds : List Dealing) (d : Dealing)
        → Leads allowance first ds next → Makes allowance next d last → Leads allowance first (ds ++ d ∷ []) last }
{}

/// Calls in order are the pass's own, after those that it had before. It sees a longer history, and
/// its share stays.
pub fn calls_in_order()
    ensures own { (allowance : ℕ) (before : Books) (ds : List Dealing) (now : Books) → Leads allowance before ds now
        → own_calls now ≡ own_calls before ++ ds }
    ensures seen { (allowance : ℕ) (before : Books) (ds : List Dealing) (now : Books) → Leads allowance before ds now
        → Begins before.seen now.seen }
    ensures share { (allowance : ℕ) (before : Books) (ds : List Dealing) (now : Books) → Leads allowance before ds now
        → now.share ≡ before.share }
{}

/// A pass owes what its calls in order took and didn't settle.
pub fn calls_in_order_are_owed()
    ensures owes { (allowance : ℕ) (before : Books) (ds : List Dealing) (now : Books) → Leads allowance before ds now
        → now.owes ≡ owed_after_all before.owes ds }
    ensures balance { (allowance : ℕ) (before : Books) (ds : List Dealing) (now : Books) → Leads allowance before ds now
        → now.owes + total_settled ds ≡ before.owes + total_taken ds }
{}

/// If a pass has the whole share, its calls in order are all that happened, and the purse of one
/// thread gives the same replies and ends with the same totals.
pub fn calls_in_order_alone()
    ensures seen { (allowance : ℕ) (before : Books) (ds : List Dealing) (now : Books) → Leads allowance before ds now
        → IsWhole before.share → now.seen ≡ before.seen ++ ds }
    ensures legal { (allowance : ℕ) (before : Books) (ds : List Dealing) (now : Books) → Leads allowance before ds now
        → IsWhole before.share → IsLegal (totals_seen allowance before) ds }
    ensures leaves { (allowance : ℕ) (before : Books) (ds : List Dealing) (now : Books) → Leads allowance before ds now
        → IsWhole before.share → totals_seen allowance now ≡ after_all (totals_seen allowance before) ds }
{}
