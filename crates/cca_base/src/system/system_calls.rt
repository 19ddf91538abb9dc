// The calls of the system on files, each noted with its answer. Clauses see the notes; `calls.rt` is trusted to note what is so.
ghost use Rattle.std.specs.Fd.{file_raw_fd};
ghost use Rattle.std.specs.Path.{path_buf_bytes};
ghost use Rattle.std.specs.Prelude.{◌≡◌, ◌≤◌, ◌∷◌, List, length, take, IfOk, OnErr};
ghost use Rattle.cca_base.specs.Made.{Made, answer_by, tells, tells_name, tells_open, resolves, opens_to_read, opens_to_append, locks, seeks, reads, writes, syncs};

use crate::system::met::Told;
use std::alloc::Global;
use std::fs::File;
use std::io::ErrorKind;
use std::path::PathBuf;

/// The calls of the system on files.
pub(crate) trait SystemCalls: Drop {
    /// The calls that were made, the last one first.
    ghost made: { Self → List Made };

    /// What the file is that a name means.
    fn told(&mut self, name: &str) -> Result<Told, ErrorKind>
        ensures { made self.new ≡ tells name.now result ∷ made self.old };

    /// What the name itself is, which may be a link.
    fn told_of_name(&mut self, name: &str) -> Result<Told, ErrorKind>
        ensures { made self.new ≡ tells_name name.now result ∷ made self.old };

    /// What an open file is.
    fn told_of_open(&mut self, file: &File) -> Result<Told, ErrorKind>
        ensures { made self.new ≡ tells_open (file_raw_fd file.now) result ∷ made self.old };

    /// The whole path of the file that a name means, without links. It takes memory.
    fn resolved(&mut self, alloc: Global, name: &str) -> Result<PathBuf, ErrorKind>
        ensures made { IfOk result (λ path. made self.new ≡ resolves name.now (path_buf_bytes path) ∷ made self.old) }
        ensures none { OnErr result (made self.new ≡ made self.old) };

    /// The file of the name, opened to read from.
    fn opened_to_read(&mut self, name: &str) -> Result<File, ErrorKind>
        ensures { made self.new ≡ opens_to_read name.now (answer_by file_raw_fd result) ∷ made self.old };

    /// The file of the name, opened to append to, and made if the name means none.
    fn opened_to_append(&mut self, name: &str) -> Result<File, ErrorKind>
        ensures { made self.new ≡ opens_to_append name.now (answer_by file_raw_fd result) ∷ made self.old };

    /// Locks the file until it is closed, without waiting, and reports whether it could.
    fn locked(&mut self, file: &File) -> bool
        ensures { made self.new ≡ locks (file_raw_fd file.now) result ∷ made self.old };

    /// Goes to a place of the file, and reports whether it could.
    fn sought(&mut self, file: &File, at: u64) -> bool
        ensures { made self.new ≡ seeks (file_raw_fd file.now) at result ∷ made self.old };

    /// Reads from where the file is.
    fn read(&mut self, file: &File, buf: &mut [u8]) -> Result<usize, ErrorKind>
        ensures within { IfOk result (λ n. n ≤ length buf.old) }
        ensures length { length buf.new ≡ length buf.old }
        ensures made { made self.new ≡ reads (file_raw_fd file.now) (answer_by (λ n. take n buf.new) result) ∷ made self.old };

    /// Writes a prefix of the piece.
    fn wrote(&mut self, file: &File, piece: &[u8]) -> Result<usize, ErrorKind>
        ensures within { IfOk result (λ n. n ≤ length piece.now) }
        ensures made { made self.new ≡ writes (file_raw_fd file.now) (answer_by (λ n. take n piece.now) result) ∷ made self.old };

    /// Waits until the disk has the file, and reports whether it has.
    fn synced(&mut self, file: &File) -> bool
        ensures { made self.new ≡ syncs (file_raw_fd file.now) result ∷ made self.old };
}
