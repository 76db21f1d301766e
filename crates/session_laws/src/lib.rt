//! Laws of whole sessions, over the definitions that the session's contract cites.
//!
//! Each function does nothing. Its contract states a law, or talks that show that the law isn't
//! empty.
#![tactic(auto)]

ghost use Rattle.std.specs.Prelude.{[], ◌∷◌, ◌++◌, true, false, Some, codes};
ghost use Rattle.command_text.specs.Replies.{refusal_text, budget_text, quit_text};
ghost use Rattle.command_text.specs.declared.refusal.Refusal.TheVariants as no;
ghost use Rattle.command_text.specs.declared.rules.SessionRule.TheVariants.{MalformedWords};
ghost use Rattle.session.specs.Talk.{Talk};
ghost use Rattle.session.specs.declared.end.End.TheVariants.{InputEnd, Quit};
ghost use Rattle.session_laws.specs.Laws.{SameText, SameFirst, SaidByCommands, TellNoWant, exchanges};
ghost use Rattle.step_purse.specs.declared.dealings.Dealing.TheVariants.{Observed};
ghost use Rattle.step_purse.specs.declared.dealings.Totals.{Totals};
ghost use Rattle.workspace.specs.State.{empty};

/// The bytes of a session and what the budget replies to it determine its text, its end and its
/// calls of the budget, as long as no reply tells of lack of memory or of a thread. The number of
/// workers has no part in it.
pub fn same_text()
    ensures law { SameText }
{}

/// The first commands of two sessions have the same replies and the same calls of the budget, as long
/// as none of these replies tells of such lack. One session may have read more than the other, and
/// either may have been broken off by a write that failed.
pub fn same_first()
    ensures law { SameFirst }
{}

/// What a session says, and its calls of the budget, are those of its commands, in order.
pub fn said_by_commands()
    ensures law { SaidByCommands }
{}

/// The law is of talks that there are: this one lacks nothing, whatever the budget's totals are.
pub fn budget_told()
    ensures talk { (totals : Totals) → (talk : Talk false (empty 1) (codes "budget\nquit\n") false (Observed totals ∷ [])
        (budget_text totals.left totals.reserved totals.spent ++ quit_text) (Some Quit) (empty 1)) × TellNoWant (exchanges talk) }
{}

/// The law needs its premise: to one line a session may reply with the rule that it breaks, or that
/// it is out of memory.
pub fn want_told()
    ensures rule { (talk : Talk false (empty 1) (codes "op A x 0\n") true [] (refusal_text (no.Session MalformedWords))
        (Some InputEnd) (empty 1)) × TellNoWant (exchanges talk) }
    ensures want { Talk false (empty 1) (codes "op A x 0\n") true [] (refusal_text no.Memory) (Some InputEnd) (empty 1) }
{}
