//! What a call of an operator means.
ghost use Rattle.worked_rows.specs.Meaning.{NoOtherMeaning};

/// The machine alone decides what a call of an accepted operator gives and costs.
pub fn no_other_meaning()
    ensures { NoOtherMeaning }
{}
