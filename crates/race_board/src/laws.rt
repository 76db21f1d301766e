//! What the calls of a board have to do with the events of a race, and what the lists of all
//! workers say together, for whoever joins them. These functions do nothing: each states a law of
//! the definitions.
ghost use Rattle.std.specs.Prelude.{◌≡◌, ℕ, ◌+◌, ◌<◌, ◌≤◌, List, All, length, slice_index, slice_get, slice_set, Some};
ghost use Rattle.race_board.specs.Race.{Worker, RaceState, BoardState, IsClosing, IsFinished, IsDrained, total_of, steps_of, race, drawn, holding, drained, completed, failed, after_event};
ghost use Rattle.race_board.specs.declared.worker_state.WorkerState.TheVariants.{Free, Holds};
ghost use Rattle.race_board.specs.declared.event.RaceEvent.TheVariants.{Draw, Complete, Fail};
ghost use Rattle.race_board.specs.Chunks.{AreEachOnce, AreOnceAtMost, StandsOnce, CostJust, CostAtMost, completed_by, recorded_by, steps_in, sum_below};
ghost use Rattle.race_board.specs.declared.totals.Totals.{Totals};

/// What `Board`'s calls make of a worker's record is what an event makes of it, in any race in
/// which each worker stands at the index of its number; a draw finds the count. Each event changes
/// that record and no other.
pub fn calls_are_events()
    ensures draw { (r : RaceState) (w : Worker) → slice_get r.workers w.number ≡ Some w → w.state ≡ Free
        → after_event r (Draw w.number) ≡
        race r.prices (r.count + 1) (slice_set r.workers w.number (drawn r.prices r.count w)) }
    ensures chunk { (prices : List ℕ) (found : ℕ) (w : Worker) → found < length prices → drawn prices found w ≡ holding found w }
    ensures end { (prices : List ℕ) (found : ℕ) (w : Worker) → length prices ≤ found → drawn prices found w ≡ drained w }
    ensures complete { (r : RaceState) (w : Worker) (chunk steps : ℕ) → slice_get r.workers w.number ≡ Some w
        → w.state ≡ Holds chunk → steps ≤ slice_index r.prices chunk → after_event r (Complete w.number chunk steps) ≡
        race r.prices r.count (slice_set r.workers w.number (completed chunk steps w)) }
    ensures fail { (r : RaceState) (w : Worker) (chunk steps : ℕ) → slice_get r.workers w.number ≡ Some w
        → w.state ≡ Holds chunk → steps ≤ slice_index r.prices chunk → after_event r (Fail w.number chunk steps) ≡
        race r.prices r.count (slice_set r.workers w.number (failed chunk steps w)) }
{}

/// Where a board closes with all its workers told the end, what they completed, put into one list,
/// has each chunk once. What they recorded of a board that closes in any way has each chunk at most
/// once, none costs more than its price, and the steps are all of theirs. The two lists are one
/// where none failed.
pub fn closed_lists()
    ensures completed { (board : BoardState) (workers : List Worker) (totals : Totals) → IsClosing board workers totals
        → IsFinished board workers → All IsDrained workers → AreEachOnce (length board.prices) (completed_by workers) }
    ensures recorded { (board : BoardState) (workers : List Worker) (totals : Totals) → IsClosing board workers totals
        → AreOnceAtMost (length board.prices) (recorded_by workers) }
    ensures steps { (workers : List Worker) → steps_in (recorded_by workers) ≡ total_of steps_of workers }
    ensures within { (board : BoardState) (workers : List Worker) (totals : Totals) → IsClosing board workers totals
        → CostAtMost (slice_index board.prices) (recorded_by workers) }
    ensures drained { (workers : List Worker) → All IsDrained workers → recorded_by workers ≡ completed_by workers }
{}

/// Each chunk that is there once stands at one index.
pub fn each_chunk_at_one_place()
    ensures { (n : ℕ) (chunks : List (ℕ × ℕ)) → AreEachOnce n chunks → (c : ℕ) → c < n → StandsOnce c chunks }
{}

/// The steps of chunks that each stand there once are a sum over the chunks, and at most that where
/// some are left out.
pub fn steps_by_chunk()
    ensures just { (cost : ℕ → ℕ) (n : ℕ) (chunks : List (ℕ × ℕ)) → AreEachOnce n chunks → CostJust cost chunks
        → steps_in chunks ≡ sum_below cost n }
    ensures at_most { (cost : ℕ → ℕ) (n : ℕ) (chunks : List (ℕ × ℕ)) → AreOnceAtMost n chunks → CostAtMost cost chunks
        → steps_in chunks ≤ sum_below cost n }
{}
