//! The purse of one thread, and shares of a purse.
ghost use Rattle.std.specs.Prelude.{◌≡◌, [], ◌∷◌};
ghost use Rattle.step_purse.specs.Plain.{opened, after_all, IsLegal};
ghost use Rattle.step_purse.specs.declared.dealings.Dealing.TheVariants.{Reserved, Settled, Observed};
ghost use Rattle.step_purse.specs.declared.dealings.Reply.TheVariants.{Took, NotEnough};

/// Of 12 steps 12 are reserved and 1 is refused; once 9 of them were spent, 3 are left.
pub fn histories()
    ensures legal { IsLegal (opened 12) (Reserved 12 (Took 12) ∷ Reserved 1 (NotEnough 0) ∷ Settled 12 9
        ∷ Observed (record { left = 3; reserved = 0; spent = 9 }) ∷ []) }
    ensures leaves { after_all (opened 12) (Reserved 12 (Took 12) ∷ Settled 12 9 ∷ [])
        ≡ record { left = 3; reserved = 0; spent = 9 } }
{}
