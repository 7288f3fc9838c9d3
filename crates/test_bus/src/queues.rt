//! Queues of one name, request by request.

use owner_queues::{Profile, Queue, RequestFlags};
use std::process::Abort;

/// What a connection does.
#[derive(Clone, Copy)]
enum Step {
    /// It requests the name, with flags as they stand in a message.
    Request(u64, u32),
    Release(u64),
    Leave(u64),
}

/// A step, the code of its reply (0 where there is none), and the queue behind it, its owner first.
type Row = (Step, u32, &'static [u64]);

const A: u64 = 1;

const B: u64 = 2;

const C: u64 = 3;

/// A replaced owner waits next.
const REPLACED: &[Row] = &[
    (Step::Request(A, 1), 1, &[A]),
    (Step::Request(B, 0), 2, &[A, B]),
    (Step::Request(C, 2), 1, &[C, A, B]),
    (Step::Leave(A), 0, &[C, B]),
];

/// An owner that is replaced and does not wait.
const GIVEN_UP: &[Row] = &[
    (Step::Request(A, 5), 1, &[A]),
    (Step::Request(B, 0), 2, &[A, B]),
    (Step::Request(C, 2), 1, &[C, B]),
    (Step::Request(B, 4), 3, &[C]),
    (Step::Release(B), 3, &[C]),
    (Step::Release(C), 1, &[]),
    (Step::Release(C), 2, &[]),
];

fn code_of(rt: &impl Abort, queue: &mut Queue, step: Step) -> u32 {
    match step {
        Step::Request(connection, bits) => {
            assert!(rt; queue.has_room(connection));
            let flags = RequestFlags::from_bits(bits);
            queue.request(connection, flags, Profile::One).code()
        }
        Step::Release(connection) => queue.release(connection).code(),
        Step::Leave(connection) => {
            queue.leave(connection);
            0
        }
    }
}

/// Whether these connections stand in a queue, and no others, in this order.
fn stands_as(queue: &Queue, connections: &[u64]) -> bool {
    queue
        .iter()
        .map(|place| place.connection)
        .eq(connections.iter().copied())
        && queue.head() == connections.first().copied()
        && queue.is_empty() == connections.is_empty()
        && connections
            .iter()
            .all(|connection| queue.contains(*connection))
}

#[test]
fn queues_of_one_name(rt: HostRuntime) {
    for rows in [REPLACED, GIVEN_UP] {
        let mut queue = Queue::new();
        let mut stood: &[u64] = &[];
        for (place, (step, code, left)) in rows.iter().enumerate() {
            let before = copied(&queue);
            let found = code_of(&rt, &mut queue, *step);
            let is_so = found == *code && stands_as(&queue, left) && stands_as(&before, stood);
            assert!(rt; is_so, "row {place}");
            stood = left;
        }
    }
}

/// Another queue of the same places.
fn copied(queue: &Queue) -> Queue {
    let mut copy = Queue::new();
    copy.request(C, RequestFlags::default(), Profile::One);
    copy.copy_from(queue);
    copy
}
