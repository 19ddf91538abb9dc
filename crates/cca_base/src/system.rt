// Files and the output of the system. `calls.rt` and `interrupted.rt` make its calls and are trusted. What follows from their
// results is proved: which file a name means (`met.rt`), how a file is opened (`opening.rt`), and what is on the disk before a
// piece is reported as taken (`settling.rt`).

pub(crate) mod calls;
pub(crate) mod event;
pub(crate) mod events;
pub(crate) mod interrupted;
pub(crate) mod known_file;
pub(crate) mod met;
pub(crate) mod opening;
pub(crate) mod real_files;
pub(crate) mod real_sink;
pub(crate) mod settling;
pub(crate) mod system_calls;
pub(crate) mod system_files;
pub(crate) mod system_output;
