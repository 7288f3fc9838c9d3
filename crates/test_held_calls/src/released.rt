//! Calls that waited, as an engine releases them: once a connection has the name, behind the reply
//! to its request.

use crate::scene::{REQUEST, Told, come, engine_with_calls, served, told_of};
use crate::waiting_calls::{FIRST, THIRD};

#[test]
fn calls_that_waited_come_behind_the_reply(rt: HostRuntime) {
    let mut engine = engine_with_calls(&rt, rt.alloc());
    come(&rt, rt.alloc(), &mut engine, 2);
    let actions = served(&rt, rt.alloc(), &mut engine, 2, REQUEST);
    let expected = [
        Told::Acquired(THIRD),
        Told::Number(THIRD, 2, 1),
        Told::Number(FIRST, 7, 1),
        Told::Call(THIRD, 0),
        Told::Call(THIRD, 1),
        Told::Call(THIRD, 2),
    ];
    drop(engine);
    assert!(rt; actions.iter().map(told_of).eq(expected));
}
