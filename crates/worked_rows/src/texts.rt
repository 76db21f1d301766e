//! Matrix text.
ghost use Rattle.std.specs.Prelude.{◌≡◌, [], ◌∷◌, true, false, Some, codes};
ghost use Rattle.matrix_market.specs.Market.{banner_of, size_of, entries_of, words_at, rules_at};
ghost use Rattle.matrix_market.specs.declared.rule.MarketRule.TheVariants.{PositionGivenTwice, TooFewEntries};
ghost use Rattle.worked_rows.specs.Rows.{symmetric, symmetric_lines, repeated, short};

/// A symmetric text breaks no rule. Its entry off the diagonal stands for both positions, and the
/// one on it for one.
pub fn mirrors()
    ensures banner { banner_of (codes "%%MatrixMarket matrix coordinate integer symmetric")
        ≡ Some (record { pattern = false; symmetric = true }) }
    ensures faultless { (rules_at symmetric 1 ≡ []) × (rules_at symmetric 2 ≡ []) × (rules_at symmetric 3 ≡ [])
        × (rules_at symmetric 4 ≡ []) × (rules_at symmetric 5 ≡ []) }
    ensures size { size_of symmetric_lines ≡ Some (record { rows = 2; columns = 2; entries = 2 }) }
    ensures lower { words_at true (entries_of false symmetric_lines) (1, 0) ≡ 5 ∷ [] }
    ensures upper { words_at true (entries_of false symmetric_lines) (0, 1) ≡ 5 ∷ [] }
    ensures diagonal { words_at true (entries_of false symmetric_lines) (0, 0) ≡ 7 ∷ [] }
    ensures empty { words_at true (entries_of false symmetric_lines) (1, 1) ≡ [] }
{}

/// The mirror of an entry that was given is M8 at its line, and an entry that is missing is M9
/// behind the last.
pub fn faults()
    ensures twice { rules_at repeated 4 ≡ PositionGivenTwice ∷ [] }
    ensures missing { rules_at short 4 ≡ TooFewEntries ∷ [] }
{}
