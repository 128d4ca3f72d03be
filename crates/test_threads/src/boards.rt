//! The running board over the hierarchical sample.

ghost use Rattle.std.specs.Prelude.{◌≤◌, All};
ghost use Rattle.waff_model.specs.Messages.{sizes_of};
ghost use Rattle.waff_cells.specs.Grid.{HasSizes};
ghost use Rattle.waff_board.specs.Tokens.{IsOf};

use crate::jobs::job;
use crate::states::is_left;
use std::alloc::Global;
use std::process::Abort;
use waff_board::{Board, Clear, Cleared, CloseError, Draw, Drawn, EndSeat, Seat};
use waff_cells::State;
use waff_model::{Cell, Layout};
use waff_read::read_hierarchy;
use waff_samples::{H1, X1};

/// Cells of the sample: f:0, f:2 and g:0.
const F0: Cell = Cell { space: 0, index: 0 };

const F2: Cell = Cell { space: 0, index: 2 };

const G0: Cell = Cell { space: 2, index: 0 };

/// A board with so many seats for a trace under the hierarchical sample, in this order.
fn seated(
    rt: &impl Abort,
    alloc: Global,
    trace: &str,
    order: &[u32],
    seats: u32,
) -> (Board, Vec<Seat>)
    requires some { 1 ≤ seats }
    requires few { seats ≤ 16 }
    ensures { All (IsOf result.0) result.1.items }
{
    let job = job(rt, alloc, H1, trace, order).expect(rt, "a job");
    Board::new(alloc, job, seats).expect(rt, "a board")
}

/// Takes the last of the seats.
fn sit(rt: &impl Abort, board: &Board, seats: &mut Vec<Seat>) -> Seat
    requires { All (IsOf board.now) seats.old.items }
    ensures seat { IsOf board.now result }
    ensures others { All (IsOf board.now) seats.new.items }
{
    match seats.pop() {
        Some(seat) => seat,
        None => panic!(rt; "no seat is left"),
    }
}

/// Draws a message, which has to be there.
fn draw(rt: &impl Abort, board: &Board, seat: Seat) -> Drawn
    requires { IsOf board.now seat }
    ensures { IsOf board.now result }
{
    match board.draw(seat) {
        Draw::Got(drawn) => drawn,
        Draw::Over(_) => panic!(rt; "no message is left"),
    }
}

/// Draws past the end of the order.
fn draw_over(rt: &impl Abort, board: &Board, seat: Seat) -> EndSeat
    requires { IsOf board.now seat }
    ensures { IsOf board.now result }
{
    match board.draw(seat) {
        Draw::Over(seat) => seat,
        Draw::Got(_) => panic!(rt; "a message is left"),
    }
}

/// Looks at the needs of a message, which have to be done.
fn clear(rt: &impl Abort, board: &Board, drawn: Drawn) -> Cleared
    requires { IsOf board.now drawn }
    ensures { IsOf board.now result }
{
    match board.clear(drawn) {
        Clear::Go(cleared) => cleared,
        Clear::Wait { .. } => panic!(rt; "a need is not done"),
    }
}

/// Looks at the needs of a message, one of which is not done: which one.
fn wait(rt: &impl Abort, board: &Board, drawn: Drawn) -> (Drawn, u32)
    requires { IsOf board.now drawn }
    ensures { IsOf board.now result.0 }
{
    match board.clear(drawn) {
        Clear::Wait { drawn, on } => (drawn, on),
        Clear::Go(_) => panic!(rt; "all needs are done"),
    }
}

/// Runs the message that the seat has drawn.
fn run(rt: &impl Abort, board: &Board, drawn: Drawn) -> Seat
    requires { IsOf board.now drawn }
    ensures { IsOf board.now result }
{
    let grant = board.begin(clear(rt, board, drawn));
    board.finish(grant.run())
}

/// Draws and runs so many messages.
fn run_next(rt: &impl Abort, board: &Board, mut seat: Seat, count: u32) -> Seat
    requires { IsOf board.now seat }
    ensures { IsOf board.now result }
{
    for _ in 0..count {
        let drawn = draw(rt, board, seat);
        seat = run(rt, board, drawn);
    }
    seat
}

/// The state that one seat leaves of the first trace. The layout has to have its spaces.
fn left(rt: &impl Abort, alloc: Global, layout: &Layout) -> State
    ensures { HasSizes result (sizes_of layout.now.spaces) }
{
    let job = job(rt, alloc, H1, X1, &[1, 2, 3, 4, 5, 6]).expect(rt, "a job");
    assert!(rt; layout.same_spaces(job.layout()));
    let (board, mut seats) = Board::new(alloc, job, 1).expect(rt, "a board");
    let seat = sit(rt, &board, &mut seats);
    drop(seats);
    let seat = run_next(rt, &board, seat, 6);
    let end = board.end_looks(draw_over(rt, &board, seat));
    assert!(rt; end.unseen().is_none());
    board.close(end).expect(rt, "a state")
}

#[test]
fn one_seat_runs_all_messages(rt: HostRuntime) {
    let layout = read_hierarchy(rt.alloc(), H1.as_bytes()).expect(&rt, "a hierarchy");
    let state = left(&rt, rt.alloc(), &layout);
    is_left(
        &rt,
        rt.alloc(),
        &layout,
        &state,
        "f:0 5, f:2 7, f:4 1, g:0 5, g:4 1",
    );
    drop(state);
    drop(layout);
}

#[test]
fn a_board_closes_unfinished(rt: HostRuntime) {
    let trace = "message,cost,ops\nm1,1,read f:0\nm2,1,read f:0\nm3,1,read f:0\n";
    let (board, mut seats) = seated(&rt, rt.alloc(), trace, &[1, 2, 3], 3);
    let first = sit(&rt, &board, &mut seats);
    let second = sit(&rt, &board, &mut seats);
    let third = sit(&rt, &board, &mut seats);
    drop(seats);
    let first = run_next(&rt, &board, first, 1);
    let two = draw(&rt, &board, first);
    let three = draw(&rt, &board, second);
    let end = draw_over(&rt, &board, third);
    let refused = board.close(end).err();
    assert!(rt;
        refused == Some(CloseError::Unfinished { message: 2 }),
        "{refused:?}"
    );
    drop(two);
    drop(three);
}

#[test]
fn a_grant_holds_the_cells_of_its_owners(rt: HostRuntime) {
    let (board, mut seats) = seated(&rt, rt.alloc(), X1, &[1, 2, 4, 3, 5, 6], 1);
    let seat = sit(&rt, &board, &mut seats);
    drop(seats);
    let seat = run_next(&rt, &board, seat, 3);
    let cleared = clear(&rt, &board, draw(&rt, &board, seat));
    assert!(rt; cleared.message() == 3);
    let grant = board.begin(cleared);
    assert!(rt; grant.get(F0) == Some(5));
    assert!(rt; grant.get(F2) == Some(0));
    assert!(rt; grant.get(G0).is_none());
    let finished = grant.run();
    assert!(rt; finished.get(F2) == Some(5));
    drop(finished);
    drop(board);
}

#[test]
fn a_seat_waits_for_a_need(rt: HostRuntime) {
    let (board, mut seats) = seated(&rt, rt.alloc(), X1, &[1, 2, 3, 4, 5, 6], 2);
    let first = sit(&rt, &board, &mut seats);
    let second = sit(&rt, &board, &mut seats);
    drop(seats);
    let one = draw(&rt, &board, first);
    let second = run_next(&rt, &board, second, 1);
    let three = draw(&rt, &board, second);
    let (three, on) = wait(&rt, &board, three);
    assert!(rt; on == 1);
    let (three, on) = wait(&rt, &board, three);
    assert!(rt; on == 1);
    let first = run(&rt, &board, one);
    let grant = board.begin(clear(&rt, &board, three));
    assert!(rt; grant.get(F0) == Some(5));
    drop(grant);
    drop(first);
    drop(board);
}

#[test]
fn the_next_message_is_clear_when_its_needs_are_done(rt: HostRuntime) {
    let (board, mut seats) = seated(&rt, rt.alloc(), X1, &[1, 2, 3, 4, 5, 6], 2);
    let first = sit(&rt, &board, &mut seats);
    let second = sit(&rt, &board, &mut seats);
    drop(seats);
    assert!(rt; board.is_next_clear());
    let one = draw(&rt, &board, first);
    assert!(rt; board.is_next_clear());
    let second = run_next(&rt, &board, second, 1);
    assert!(rt; !board.is_done(0));
    assert!(rt; board.is_done(2) && !board.is_done(1));
    assert!(rt; !board.is_next_clear());
    let first = run(&rt, &board, one);
    assert!(rt; board.is_done(1) && board.is_next_clear());
    let first = run_next(&rt, &board, first, 4);
    assert!(rt; board.is_next_clear());
    drop(first);
    drop(second);
    drop(board);
}

#[test]
fn a_dropped_grant_stays_unfinished(rt: HostRuntime) {
    let trace = "message,cost,ops\nm1,1,set f:0 1\nm2,1,set g:0 1\n";
    let (board, mut seats) = seated(&rt, rt.alloc(), trace, &[1, 2], 2);
    let first = sit(&rt, &board, &mut seats);
    let second = sit(&rt, &board, &mut seats);
    drop(seats);
    let cleared = clear(&rt, &board, draw(&rt, &board, first));
    drop(board.begin(cleared));
    let second = run_next(&rt, &board, second, 1);
    let end = board.end_looks(draw_over(&rt, &board, second));
    let refused = board.close(end).err();
    assert!(rt;
        refused == Some(CloseError::Unfinished { message: 1 }),
        "{refused:?}"
    );
}
