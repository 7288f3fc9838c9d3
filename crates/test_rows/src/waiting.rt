//! Requests that would replace an owner which does not allow it, by calls.

use owner_queues::{Profile, Queue, RequestFlags};

/// The codes of four replies, and who stands in the queue after the third and after the fourth.
type Run = ([u32; 4], [u64; 3], [u64; 3]);

fn request(queue: &mut Queue, connection: u64, bits: u32, profile: Profile) -> u32 {
    if !queue.has_room(connection) {
        return 0;
    }
    let flags = RequestFlags::from_bits(bits);
    queue.request(connection, flags, profile).code()
}

fn connections(queue: &Queue) -> [u64; 3] {
    match queue.as_slice() {
        [owner, second, third] => [owner.connection, second.connection, third.connection],
        _ => [0, 0, 0],
    }
}

/// The first owns the name, the second waits, the third would replace the first; then the second
/// would.
pub fn replacers(profile: Profile) -> Run {
    let mut queue = Queue::new();
    let owner = request(&mut queue, 1, 0, profile);
    let second = request(&mut queue, 2, 0, profile);
    let third = request(&mut queue, 3, 2, profile);
    let then = connections(&queue);
    let again = request(&mut queue, 2, 2, profile);
    ([owner, second, third, again], then, connections(&queue))
}
