// Files and outputs in memory, for tests. The program uses none of them.

pub(crate) mod clean_file;
pub(crate) mod clean_files;
pub(crate) mod clean_sink;
pub(crate) mod mem_file;
pub(crate) mod mem_files;
pub(crate) mod mem_sink;
