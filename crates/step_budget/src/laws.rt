//! What the calls of a wallet are. The function computes nothing: it states a law of the
//! definitions.
ghost use Rattle.std.specs.Prelude.{◌≡◌, ◌++◌, List};
ghost use Rattle.step_budget.specs.Budget.{Deals};
ghost use Rattle.step_budget.specs.Drawing.{Draws};
ghost use Rattle.step_purse.specs.Histories.{Leads, own_calls};
ghost use Rattle.step_purse.specs.Passes.{PassState};
ghost use Rattle.step_purse.specs.declared.dealings.Dealing.{Dealing};

/// The calls of a wallet, in order, are those that its pass gained, and it stays a pass of its
/// purse.
pub fn calls_of_a_wallet()
    ensures purse { (old : PassState) (ds : List Dealing) (new : PassState) → Deals Draws old ds new
        → (new.purse ≡ old.purse) × (new.allowance ≡ old.allowance) }
    ensures leads { (old : PassState) (ds : List Dealing) (new : PassState) → Deals Draws old ds new
        → Leads old.allowance old.known ds new.known }
    ensures own { (old : PassState) (ds : List Dealing) (new : PassState) → Deals Draws old ds new
        → own_calls new.known ≡ own_calls old.known ++ ds }
{}
