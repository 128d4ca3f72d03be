//! The replay on threads.

ghost use Rattle.std.specs.Prelude.{◌≡◌, length, All, IfOk};
ghost use Rattle.std.specs.Thread.{IsSync};
ghost use Rattle.waff_model.specs.Messages.{sizes_of};
ghost use Rattle.waff_model.specs.declared.cell.Cell.{Cell};
ghost use Rattle.waff_cells.specs.Grid.{cells_in, HasSizes};
ghost use Rattle.waff_cells.specs.Serial.{serial};
ghost use Rattle.waff_board.specs.Endings.{SeesAll};
ghost use Rattle.waff_board.specs.Tokens.{IsOf};
ghost use Rattle.waff_core.specs.Seats.{IsSeats};

use crate::gate::Gate;
use crate::sleepers::Sleepers;
use crate::work::Worker;
use std::alloc::{AllocError, Global};
use std::sync::Wait;
use std::thread;
use std::thread::Threads;
use waff_board::{Board, CloseError, EndSeat, Seat};
use waff_cells::State;
use waff_core::Job;

/// The state that the job's messages leave when this many workers run them, each in a thread of its
/// own. The calling thread is one of the workers. Where a thread can't be started there are fewer
/// workers.
pub fn replay<R: Threads + Wait + Sync, G: Gate>(
    rt: &R,
    alloc: Global,
    job: Job,
    workers: u32,
    gate: &G,
) -> Result<State, AllocError>
    requires workers { IsSeats workers }
    ensures sizes { IfOk result (λ state. HasSizes state (sizes_of job.layout.spaces)) }
    ensures cells { IfOk result (λ state. (cell : Cell)
        → cells_in state cell ≡ serial job.ops (length job.ops) cell) }
{
    let Ok((board, mut others)) = Board::new(alloc, job, workers) else {
        return Err(AllocError);
    };
    let Some(mine) = others.pop() else {
        unreachable!()
    };
    let sleepers = Sleepers::new(alloc, workers)?;
    let end = settle(rt, &board, team(rt, &board, &sleepers, mine, others, gate));
    match board.close(end) {
        Ok(state) => Ok(state),
        Err(CloseError::Memory) => Err(AllocError),
        Err(CloseError::Unfinished { .. }) => unreachable!(),
    }
}

/// Has a thread work on each of the other seats, and works on this one.
fn team<R: Threads + Wait + Sync, G: Gate>(
    rt: &R,
    board: &Board,
    sleepers: &Sleepers,
    mine: Seat,
    mut others: Vec<Seat>,
    gate: &G,
) -> EndSeat
    requires mine { IsOf board.now mine }
    requires others { All (IsOf board.now) others.items }
    ensures { IsOf board.now result }
{
    let Some(other) = others.pop() else {
        let number = 0;
        let worker = Worker {
            rt,
            board,
            sleepers,
            number,
        };
        return worker.work(mine, gate);
    };
    let number = others.len() + 1;
    let theirs = move || -> EndSeat
        requires { IsSync R.row × IsSync G.row × IsOf board.now other }
    {
        let worker = Worker {
            rt,
            board,
            sleepers,
            number,
        };
        worker.work(other, gate)
    };
    let ours = move || -> EndSeat
        requires { IsSync R.row × IsSync G.row × IsOf board.now mine
            × All (IsOf board.now) others.items }
        ensures { IsOf board.entry.now result }
    { team(rt, board, sleepers, mine, others, gate) };
    let (_, end) = thread::join(rt, theirs, ours);
    end
}

/// Looks at all messages until all are seen done.
fn settle<R: Wait>(rt: &R, board: &Board, mut end: EndSeat) -> EndSeat
    requires { IsOf board.now end }
    ensures of { IsOf board.now result }
    ensures seen { SeesAll result.view }
{
    for _ in rt.forever() {
        end = board.end_looks(end);
        if end.unseen().is_none() {
            return end;
        }
    }
    unreachable!()
}
