// The two-cell ring, worked, over tagged words.
use crate::board::Board;
use crate::calls::{Answer, Counts, Outcome};
use crate::dealings::{Dealing, Entry, Reply};
use memory::refusals::Refusal;
use rows::row::Words;

// What the last step of a call returns.
fn answer(outcome: Outcome, steps: u32, failed: u32) -> Option<Answer> {
    let counts = Counts { steps, failed };
    Some(Answer { outcome, counts })
}

// The same beside its dealing.
fn answered(outcome: Outcome, steps: u32, failed: u32) -> Option<Result<Reply, Refusal>> {
    Some(Ok(Reply::Stepped(answer(outcome, steps, failed))))
}

fn put(seat: u8, value: u64) -> Entry {
    Entry::new(Dealing::BeginPut { seat, value })
}

fn take(seat: u8) -> Entry {
    Entry::new(Dealing::BeginTake { seat })
}

fn run(seat: u8, count: u16) -> Entry {
    Entry::new(Dealing::RunAlone { seat, count })
}

fn step(seat: u8) -> Entry {
    Entry::new(Dealing::Step { seat })
}

// What comes of the last dealing of a log, with a new ring over these words.
fn last_reply(row: &mut [u64], log: &mut [Entry]) -> Option<Result<Reply, Refusal>> {
    let mut words = Words::over(row);
    let mut board = Board::unfilled();
    match board.carry_out(&mut words, log) {
        Ok(()) => log.last()?.reply,
        Err(refusal) => Some(Err(refusal)),
    }
}

#[test]
fn a_put_alone_is_placed_in_five_steps(rt: HostRuntime) {
    let mut row = [7; 2];
    let reply = last_reply(&mut row, &mut [put(0, 258), run(0, 5)]);
    assert_eq!(rt; reply, answered(Outcome::Placed, 5, 0));
    assert_eq!(rt; &row, &[258, 0]);
}

#[test]
fn a_log_tells_what_came_of_each_dealing(rt: HostRuntime) {
    let mut log = [
        put(0, 258),
        run(0, 5),
        take(1),
        run(1, 9),
        take(1),
        run(1, 9),
        step(0),
    ];
    let last = last_reply(&mut [0; 2], &mut log);
    assert_eq!(rt; last, Some(Err(Refusal::SeatIdle { seat: 0 })));
    assert_eq!(rt; log[0].reply, Some(Ok(Reply::Begun)));
    assert_eq!(rt; log[1].reply, answered(Outcome::Placed, 5, 0));
    assert_eq!(rt; log[2].reply, Some(Ok(Reply::Begun)));
    assert_eq!(rt; log[3].reply, answered(Outcome::Taken { value: 258 }, 5, 0));
    assert_eq!(rt; log[4].reply, Some(Ok(Reply::Begun)));
    assert_eq!(rt; log[5].reply, answered(Outcome::Empty, 3, 0));
}

#[test]
fn calls_alone_are_answered_by_what_waits(rt: HostRuntime) {
    let none = last_reply(&mut [0; 2], &mut [take(0), run(0, 9)]);
    assert_eq!(rt; none, answered(Outcome::Empty, 3, 0));
    let mut two_puts_and_a_third = [
        put(0, 1),
        run(0, 9),
        put(0, 2),
        run(0, 9),
        put(0, 3),
        run(0, 9),
    ];
    let full = last_reply(&mut [0; 2], &mut two_puts_and_a_third);
    assert_eq!(rt; full, answered(Outcome::Full, 4, 0));
}

// Both come to the exchange for cell 0. Seat 0 exchanges and pauses before its note. Seat 1's exchange, its fourth step, fails, and
// it starts again from a hint that is still 0: the five steps of a put alone, and one look more, at cell 0, which is filled by now.
#[test]
fn a_put_that_comes_second_fails_once_and_is_placed(rt: HostRuntime) {
    let mut log = [
        put(0, 1),
        put(1, 2),
        run(0, 3),
        run(1, 3),
        step(0),
        step(1),
        run(1, 9),
    ];
    let second = last_reply(&mut [0; 2], &mut log);
    assert_eq!(rt; second, answered(Outcome::Placed, 10, 1));
}

#[test]
fn a_paused_put_is_not_told_that_a_line_of_one_is_full(rt: HostRuntime) {
    let mut log = [
        put(0, 1),
        run(0, 9),
        put(9, 7),
        step(9),
        take(0),
        run(0, 9),
        put(0, 2),
        run(0, 9),
        step(9),
        take(0),
        run(0, 9),
        put(0, 3),
        run(0, 9),
        run(9, 9),
    ];
    assert_eq!(rt;
        last_reply(&mut [0; 2], &mut log),
        answered(Outcome::Placed, 7, 0)
    );
}

// A put alone, by a board of two cells that meets other words of its size: both cells empty, at this round.
fn put_at_round(round: u64) -> Result<Option<Answer>, Refusal> {
    let mut board = Board::unfilled();
    board.make(&mut Words::over(&mut [0; 2]))?;
    let mut row = [round << 48; 2];
    let mut words = Words::over(&mut row);
    board.begin_put(&words, 0, 1)?;
    board.run_alone(&mut words, 0, 9)
}

#[test]
fn a_ring_ends_with_its_last_round(rt: HostRuntime) {
    assert_eq!(rt; put_at_round(65_535), Ok(answer(Outcome::Worn, 3, 0)));
    assert_eq!(rt; put_at_round(65_534), Ok(answer(Outcome::Placed, 5, 0)));
}

#[test]
fn the_smallest_number_is_the_refusal(rt: HostRuntime) {
    let mut row = [0; 2];
    let mut words = Words::over(&mut row);
    let mut board = Board::unfilled();
    assert_eq!(rt;
        board.begin_put(&words, 16, 0),
        Err(Refusal::NoSeat { seat: 16 })
    );
    assert_eq!(rt;
        board.begin_put(&words, 15, 0),
        Err(Refusal::OtherSize { seat: 15 })
    );
    assert_eq!(rt; board.make(&mut words), Ok(()));
    assert_eq!(rt;
        board.begin_put(&words, 15, 0),
        Err(Refusal::ValueOutside { seat: 15 })
    );
    assert_eq!(rt; board.begin_take(&words, 15), Ok(()));
    assert_eq!(rt;
        board.begin_put(&words, 15, 0),
        Err(Refusal::SeatBusy { seat: 15 })
    );
    assert_eq!(rt;
        board.run_alone(&mut words, 15, 8193),
        Err(Refusal::CountOutside { seat: 15 })
    );
    assert_eq!(rt;
        board.run_alone(&mut words, 14, 0),
        Err(Refusal::SeatIdle { seat: 14 })
    );
    assert_eq!(rt;
        board.make(&mut Words::over(&mut [0; 6])),
        Err(Refusal::RingSize)
    );
}
