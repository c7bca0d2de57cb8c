//! The functions that C calls. Bad input changes nothing.

/// The answer of the session in a handle. An empty handle is bad input.
macro_rules! answered {
    ($alloc:ident, $handle:ident, $session:ident => $answer:expr) => {
        match mem::replace($handle, Handle::empty($alloc)).into_box() {
            None => Answer::BAD,
            Some(mut $session) => {
                let answer = $answer;
                *$handle = Handle::of($session);
                answer
            }
        }
    };
}

mod client;
mod cover;
mod judge;
mod manager;
mod monitor;
mod text;
mod wide;
