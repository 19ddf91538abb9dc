// Files of the system, known by their names.
ghost use Rattle.std.specs.Prelude.{◌≡◌, ℕ, All, List, string_bytes, IfOk};
ghost use Rattle.std.specs.List.{list_any};
ghost use Rattle.std.specs.Str.{bytes_eq};

use crate::named::Named;
use std::alloc::{AllocError, Global};

// A known name, and how often a load of it and an append to it has failed.
#[derive(Drop)]
pub(crate) struct KnownFile {
    name: String,
    load_faults: u64,
    append_faults: u64,
}

impl Named for KnownFile {
    ghost use Rattle.std.specs.Prelude.{false, None};
    ghost use Rattle.cca_base.specs.RealFiles.{real_seen};

    ghost seen = { real_seen };

    ghost told = { false };

    ghost first_seen = { λ name room. record { name = name; file = None; load_faults = 0; append_faults = 0; room = None } };

    fn name(&self) -> &str {
        self.name.as_str()
    }

    fn load_faults(&self) -> u64 {
        self.load_faults
    }

    fn append_faults(&self) -> u64 {
        self.append_faults
    }

    fn set_load_faults(&mut self, count: u64) {
        self.load_faults = count;
    }

    fn set_append_faults(&mut self, count: u64) {
        self.append_faults = count;
    }

    fn with_name(_alloc: Global, name: String, _room: usize) -> Result<KnownFile, AllocError> {
        Ok(KnownFile {
            name,
            load_faults: 0,
            append_faults: 0,
        })
    }
}

// A file of each name, in the order of the names, before its first call. Of files of one name only the first is used. No name
// is compared with the others, so a long command line takes only the time to copy it.
pub(crate) fn known_files(alloc: Global, names: &[String]) -> Result<Vec<KnownFile>, AllocError>
    ensures names { IfOk result (λ files. (name : List ℕ)
        → list_any (λ f. bytes_eq (string_bytes f.name) name) files.items
        ≡ list_any (λ s. bytes_eq (string_bytes s) name) names.now) }
    ensures fresh { IfOk result (λ files. All (λ f. (f.load_faults ≡ 0) × (f.append_faults ≡ 0)) files.items) }
{
    let mut files = Vec::new(alloc);
    for name in names {
        let name = String::from_str(alloc, name.as_str())?;
        files.push(KnownFile::with_name(alloc, name, 0)?)?;
    }
    Ok(files)
}
