// A call of the system, as it is noted.
use crate::system::met::Told;
use std::io::ErrorKind;

/// A call of the system, and its answer. A file is known by its descriptor.
#[derive(Clone, Copy, Drop)]
pub(crate) enum Event<'a> {
    Told {
        name: &'a str,
        answer: Result<Told, ErrorKind>,
    },
    ToldOfName {
        name: &'a str,
        answer: Result<Told, ErrorKind>,
    },
    ToldOfOpen {
        file: i32,
        answer: Result<Told, ErrorKind>,
    },
    Resolved {
        name: &'a str,
        text: &'a str,
    },
    OpenedToRead {
        name: &'a str,
        answer: Result<i32, ErrorKind>,
    },
    OpenedToAppend {
        name: &'a str,
        answer: Result<i32, ErrorKind>,
    },
    Locked {
        file: i32,
        done: bool,
    },
    Sought {
        file: i32,
        at: u64,
        done: bool,
    },
    Read {
        file: i32,
        buf: &'a [u8],
        answer: Result<usize, ErrorKind>,
    },
    Wrote {
        file: i32,
        piece: &'a [u8],
        answer: Result<usize, ErrorKind>,
    },
    Synced {
        file: i32,
        done: bool,
    },
}
