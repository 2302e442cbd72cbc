//! Tests of the traversal, of the column and of the queue.
use graph::marks::Marks;
use graph::queue::Queue;
use graph::reach::{NoRoom, reach};
use graph::scratch::Scratch;
use graph_examples::arrow_list::ArrowList;
use graph_examples::chain::Chain;
use graph_examples::leads::leads;

/// A cycle of 1, 2 and 3, that 4 leads into, an arrow from 5 to itself, and arrows that do not lie between points.
const ARROWS: [(u16, u16); 9] = [
    (3, 1),
    (1, 2),
    (4, 1),
    (2, 3),
    (1, 2),
    (5, 5),
    (1, 0),
    (0, 6),
    (2, 9),
];

/// What is reached from two of the numbers, of the numbers 0 to 7.
const REACHED: [([u16; 2], [bool; 8]); 5] = [
    (
        [1, 1],
        [false, true, true, true, false, false, false, false],
    ),
    ([3, 5], [false, true, true, true, false, true, false, false]),
    ([4, 0], [false, true, true, true, true, false, false, false]),
    (
        [5, 7],
        [false, false, false, false, false, true, false, false],
    ),
    (
        [0, 65535],
        [false, false, false, false, false, false, false, false],
    ),
];

/// Whether exactly those numbers are marked that `wanted` has.
fn agrees(marks: &Marks, wanted: &[bool]) -> bool {
    wanted
        .iter()
        .enumerate()
        .all(|(i, &mark)| marks.is_set(i) == mark)
}

/// Whether a traversal from `starts`, among six points, marks exactly what `wanted` has.
fn marks_exactly(starts: &[u16], wanted: &[bool]) -> bool {
    let g = ArrowList {
        points: 6,
        arrows: &ARROWS,
    };
    let mut column = [9u8; 257];
    let mut line = [0u16; 6];
    let mut marks = Marks::new(&mut column);
    let mut scratch = Scratch {
        marks: &mut marks,
        line: &mut line,
    };
    reach(&g, starts, &mut scratch) == Ok(()) && agrees(&marks, wanted)
}

/// Whether a traversal with too short a line is refused, and leaves the marks.
fn refuses_a_short_line() -> bool {
    let mut column = [9u8; 257];
    let mut line = [0u16; 3];
    let mut marks = Marks::new(&mut column);
    marks.set(2);
    let mut scratch = Scratch {
        marks: &mut marks,
        line: &mut line,
    };
    reach(&Chain { points: 4 }, &[1], &mut scratch) == Err(NoRoom)
        && agrees(&marks, &[false, false, true, false, false])
}

#[test]
fn marks_what_is_reached(rt: HostRuntime) {
    for (starts, wanted) in REACHED {
        assert!(rt; marks_exactly(&starts, &wanted));
    }
    assert!(rt; refuses_a_short_line());
}

/// Whether the first 257 bytes are zeros and the others are 9.
fn is_wiped(column: &[u8]) -> bool {
    column
        .iter()
        .enumerate()
        .all(|(i, &byte)| byte == if i < 257 { 0 } else { 9 })
}

/// Whether a question about a chain of `points` points has that answer, and leaves the column wiped.
fn leaves_wiped(column: &mut [u8], points: usize, answer: Result<bool, NoRoom>) -> bool {
    let mut line = [0u16; 256];
    leads(&Chain { points }, 1, points, column, &mut line) == answer && is_wiped(column)
}

/// Whether the marks are those of the points 0 to 256, in a column of 300 bytes.
fn ends_at_256() -> bool {
    let mut column = [9u8; 300];
    let mut marks = Marks::new(&mut column);
    for i in [0, 256, 257, 299, 300] {
        marks.set(i);
    }
    marks.is_set(0) && !marks.is_set(1) && marks.is_set(256) && !marks.is_set(257)
}

#[test]
fn leaves_the_column_wiped(rt: HostRuntime) {
    for (points, answer) in [(256, Ok(true)), (0, Ok(false)), (257, Err(NoRoom))] {
        assert!(rt; leaves_wiped(&mut [9u8; 300], points, answer));
    }
    assert!(rt; leaves_wiped(&mut [9u8; 257], 256, Ok(true)));
    assert!(rt; ends_at_256());
}

/// What is asked of a queue, and its answer.
#[derive(Drop, Clone, Copy)]
enum Step {
    Push(u16),
    Refuse(u16),
    Pop(u16),
    Empty,
}

/// Whether the queue answers as the step says.
fn is_answered(queue: &mut Queue<u16>, step: Step) -> bool {
    match step {
        Step::Push(x) => queue.push(x) == Ok(()),
        Step::Refuse(x) => queue.push(x) == Err(x),
        Step::Pop(x) => queue.pop() == Some(x),
        Step::Empty => queue.is_empty() && queue.pop() == None,
    }
}

/// Whether a queue over `slots` answers as the steps say.
fn are_answered(slots: &mut [u16], steps: &[Step]) -> bool {
    let mut queue = Queue::new(slots);
    steps.iter().all(|&step| is_answered(&mut queue, step))
}

/// The places are used again in turn, and a full queue refuses.
const ROUND: [Step; 11] = [
    Step::Empty,
    Step::Push(1),
    Step::Push(2),
    Step::Pop(1),
    Step::Push(3),
    Step::Push(4),
    Step::Refuse(5),
    Step::Pop(2),
    Step::Pop(3),
    Step::Pop(4),
    Step::Empty,
];

#[test]
fn the_queue_goes_round(rt: HostRuntime) {
    assert!(rt; are_answered(&mut [0u16; 3], &ROUND));
    assert!(rt; are_answered(&mut [], &[Step::Refuse(1), Step::Empty]));
}

/// A point and how far it is: an element that cannot be copied.
#[derive(Drop, PartialEq)]
struct Reached {
    point: u16,
    distance: u16,
}

#[test]
fn elements_need_not_be_copied(rt: HostRuntime) {
    let near = |point| Reached { point, distance: 1 };
    let mut slots = [near(0), near(0)];
    let mut queue = Queue::new(&mut slots);
    assert!(rt; queue.first().is_none());
    assert!(rt; queue.push(near(3)) == Ok(()));
    assert!(rt; queue.push(near(4)) == Ok(()));
    assert!(rt; queue.push(near(5)) == Err(near(5)));
    assert!(rt; queue.first() == Some(&near(3)));
    queue.drop_first();
    assert!(rt; queue.push(near(6)) == Ok(()));
    assert!(rt; queue.first() == Some(&near(4)));
    queue.drop_first();
    assert!(rt; queue.first() == Some(&near(6)));
    queue.drop_first();
    queue.drop_first();
    assert!(rt; queue.is_empty());
}
