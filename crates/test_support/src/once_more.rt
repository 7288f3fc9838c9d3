//! The second try.

/// What a call makes, which is made once more where the first try is refused, as it is where one
/// allocation fails.
#[macro_export]
macro_rules! once_more {
    ($rt:expr; $call:expr) => {
        match $call {
            Ok(made) => made,
            Err(_) => $call.ok().expect($rt, "one allocation fails"),
        }
    };
}
