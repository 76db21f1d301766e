//! How chunks of work are handed to up to 64 workers over two atomic words, with no lock.
//!
//! Each chunk is drawn by exactly one worker, and the steps spent are counted exactly: that is the
//! contract, in the words seat, worker, chunk and record of `specs/Race.antt`. It is proved of
//! every list of events by `replay`, a core without threads, and of workers in threads by `Board`:
//! each of its calls changes its worker's record as an event does, and its workers meet the same
//! law.
//!
//! Read `specs/Race.antt` with `worker_state`, `event` and `totals` first, then `race` with
//! `worker` (the core), then `board` and `seat`. `laws` with `specs/Chunks.antt` joins calls with
//! events, and says what the lists of all workers say together. How the board keeps its promise is
//! in `race_key`, `rule` (what holds between any two steps) and `crew` (the steps themselves).
//! Threads are run by the crate thread_tests, a client as a batch is.
#![tactic(auto)]

mod board;
mod crew;
mod event;
pub mod laws;
mod priced_chunks;
mod race;
mod race_key;
mod rule;
mod seat;
mod totals;
mod worker;
mod worker_state;

pub use board::Board;
pub use event::RaceEvent;
pub use priced_chunks::PricedChunks;
pub use race::{Race, replay};
pub use seat::BoardSeat;
pub use totals::Totals;
pub use worker_state::WorkerState;
