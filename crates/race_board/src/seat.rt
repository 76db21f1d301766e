//! A worker's seat at a board.
use crate::crew::Crew;
use std::marker::Model;

/// The seat of one worker, which may go to any thread. Contracts see it as a `SeatState` of
/// `specs/Race.antt`: the board that it is of, and the worker's record.
#[derive(Drop)]
pub struct BoardSeat {
    pub(crate) crew: Crew,
}

impl Model for BoardSeat {
    ghost use Rattle.race_board.specs.Race.{SeatState};
    ghost use Rattle.race_board.specs.Naming.{name_of, first_worker};
    ghost use Rattle.race_board.specs.inner.Naming.{IsAlone};

    ghost Value = { SeatState };

    ghost view = { λ s. record { board = name_of s.crew.table_seat.table_id; worker = first_worker s.crew.table_seat.me.0 } };

    ghost invariant = { λ s. IsAlone s.crew.table_seat.me.0 };
}
