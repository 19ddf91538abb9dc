// Files that are known by their names.
ghost use Rattle.std.specs.Prelude.{◌≡◌, ◌≢◌, ◌<◌, ℕ, Bool, List, All, AllPairs, find, length, position, string_bytes, IsTrue, IfOk};
ghost use Rattle.std.specs.List.{list_any, position_or_len};
ghost use Rattle.std.specs.Str.{bytes_eq};
ghost use Rattle.cca_base.specs.Faults.{Rose, one_more};
ghost use Rattle.cca_base.specs.Files.{KeepsFiles, CountsOnly};
ghost use Rattle.cca_base.specs.Entries.{Seen, KeepsButLoads, KeepsButAppends, folder_of};

use std::alloc::{AllocError, Global};

// A file that is known by its name, with the counts of its failed calls.
pub(crate) trait Named: Drop {
    ghost seen: { Self → Seen };

    // Whether the bytes are reported.
    ghost told: { Bool };

    // What one is at first, if this room was asked for.
    ghost first_seen: { List ℕ → ℕ → Seen };

    fn name(&self) -> &str
        ensures { result.now ≡ (seen self.now).name };

    fn load_faults(&self) -> u64
        ensures { result ≡ (seen self.now).load_faults };

    fn append_faults(&self) -> u64
        ensures { result ≡ (seen self.now).append_faults };

    fn set_load_faults(&mut self, count: u64)
        ensures set { (seen self.new).load_faults ≡ count }
        ensures kept { KeepsButLoads (seen self.old) (seen self.new) };

    fn set_append_faults(&mut self, count: u64)
        ensures set { (seen self.new).append_faults ≡ count }
        ensures kept { KeepsButAppends (seen self.old) (seen self.new) };

    // A file before its first call. The room is reserved now, if the type reserves one.
    fn with_name(alloc: Global, name: String, room: usize) -> Result<Self, AllocError>
        ensures name { IfOk result (λ file. (seen file).name ≡ string_bytes name) }
        ensures fresh { IfOk result (λ file. seen file ≡ first_seen (string_bytes name) room) };
}

// Whether a file of this name is among them.
fn knows<F: Named>(files: &[F], name: &str) -> bool
    ensures { result ≡ list_any (λ f. bytes_eq (F.seen f).name name.now) files.now }
{
    files.iter().any(|f| f.name() == name)
}

// A new file of each name, one if a name is given twice.
pub(crate) fn new_files<F: Named>(
    alloc: Global,
    names: &[String],
    room: usize,
) -> Result<Vec<F>, AllocError>
    ensures names { IfOk result
        (λ files. (name : List ℕ)
        → list_any (λ f. bytes_eq (F.seen f).name name) files.items
        ≡ list_any (λ s. bytes_eq (string_bytes s) name) names.now) }
    ensures once { IfOk result (λ files. AllPairs (λ f g. (F.seen f).name ≢ (F.seen g).name) files.items) }
    ensures fresh { IfOk result (λ files. All (λ f. F.seen f ≡ F.first_seen (F.seen f).name room) files.items) }
{
    let mut files: Vec<F> = Vec::new(alloc);
    for name in names {
        if !knows(&files, name.as_str()) {
            let name = String::from_str(alloc, name.as_str())?;
            files.push(F::with_name(alloc, name, room)?)?;
        }
    }
    Ok(files)
}

// The place of the first file of this name, if there is one.
fn position_of<F: Named>(files: &[F], name: &str) -> Option<usize>
    ensures { result ≡ position (λ f. bytes_eq (F.seen f).name name.now) files.now }
{
    files.iter().position(|f| f.name() == name)
}

// The place of the first file of this known name.
pub(crate) fn place_of<F: Named>(files: &[F], name: &str) -> usize
    requires { IsTrue ((folder_of F.seen F.told files.now).knows name.now) }
    ensures within { result < length files.now }
    ensures first { result ≡ position_or_len (λ f. bytes_eq (F.seen f).name name.now) files.now }
{
    position_of(files, name).unwrap_or(files.len())
}

// Counts a failed load of the name. The count stops at the last value of its type.
pub(crate) fn count_load_fault<F: Named>(files: &mut [F], name: &str)
    requires { IsTrue ((folder_of F.seen F.told files.old).knows name.now) }
    ensures kept { KeepsFiles (folder_of F.seen F.told files.old) (folder_of F.seen F.told files.new) }
    ensures count { CountsOnly name.now (folder_of F.seen F.told files.old).load_faults
        (folder_of F.seen F.told files.new).load_faults }
    ensures rose { Rose ((folder_of F.seen F.told files.old).load_faults name.now)
        ((folder_of F.seen F.told files.new).load_faults name.now) }
    ensures counted { (folder_of F.seen F.told files.new).load_faults name.now
        ≡ one_more ((folder_of F.seen F.told files.old).load_faults name.now) }
    ensures appends { (folder_of F.seen F.told files.new).append_faults
        ≡ (folder_of F.seen F.told files.old).append_faults }
{
    let place = place_of(files, name);
    let file = &mut files[place];
    file.set_load_faults(file.load_faults().saturating_add(1));
}

// Counts a failed append to the name. The count stops at the last value of its type.
pub(crate) fn count_append_fault<F: Named>(files: &mut [F], name: &str)
    requires { IsTrue ((folder_of F.seen F.told files.old).knows name.now) }
    ensures kept { KeepsFiles (folder_of F.seen F.told files.old) (folder_of F.seen F.told files.new) }
    ensures count { CountsOnly name.now (folder_of F.seen F.told files.old).append_faults
        (folder_of F.seen F.told files.new).append_faults }
    ensures rose { Rose ((folder_of F.seen F.told files.old).append_faults name.now)
        ((folder_of F.seen F.told files.new).append_faults name.now) }
    ensures counted { (folder_of F.seen F.told files.new).append_faults name.now
        ≡ one_more ((folder_of F.seen F.told files.old).append_faults name.now) }
    ensures loads { (folder_of F.seen F.told files.new).load_faults ≡ (folder_of F.seen F.told files.old).load_faults }
{
    let place = place_of(files, name);
    let file = &mut files[place];
    file.set_append_faults(file.append_faults().saturating_add(1));
}

// How often a load of the name has failed.
pub(crate) fn load_faults_of<F: Named>(files: &[F], name: &str) -> u64
    requires { IsTrue ((folder_of F.seen F.told files.now).knows name.now) }
    ensures { result ≡ (folder_of F.seen F.told files.now).load_faults name.now }
{
    files[place_of(files, name)].load_faults()
}

// How often an append to the name has failed.
pub(crate) fn append_faults_of<F: Named>(files: &[F], name: &str) -> u64
    requires { IsTrue ((folder_of F.seen F.told files.now).knows name.now) }
    ensures { result ≡ (folder_of F.seen F.told files.now).append_faults name.now }
{
    files[place_of(files, name)].append_faults()
}
