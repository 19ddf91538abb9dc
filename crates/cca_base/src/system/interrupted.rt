// A call of the system that a signal may interrupt. It is made again, at most `TRIES` times. Trusted, with `calls.rt`.
use std::io;
use std::io::ErrorKind;

// How often a call is made at most.
const TRIES: u32 = 100;

/// What a call answers.
pub(crate) fn tried<T: Drop, F: FnMut() -> io::Result<T>>(mut call: F) -> io::Result<T>
    requires { F.IsAlwaysCallable call }
{
    for _ in 1..TRIES {
        match call() {
            Err(error) if error.kind() == ErrorKind::Interrupted => {}
            answer => return answer,
        }
    }
    call()
}
