// Files in memory.
ghost use Rattle.std.specs.Prelude.{◌≡◌, ◌≢◌, ◌∷◌, take, ◌+◌, ◌≤◌, ◌<◌, ◌^◌, ◌-◌, ◌⊎◌, min, ℕ, List, AllPairs, Contains, length, string_bytes, [], Some, None, IfOk, IsOk, IsErr, OnOk, OnErr, IsTrue};
ghost use Rattle.std.specs.List.{list_any};
ghost use Rattle.std.specs.Option.{option_map};
ghost use Rattle.std.specs.Str.{bytes_eq};
ghost use Rattle.cca_base.specs.Faults.{Rose, one_more};
ghost use Rattle.cca_base.specs.Files.{KeepsFiles, CountsOnly, Stands, Becomes, Appends};
ghost use Rattle.cca_base.specs.MemFiles.{entry, mem_folder, mem_seen};
ghost use Rattle.cca_base.specs.Entries.{roomy_by, with_gave};

use crate::memory::mem_file::{MemFile, add_to, bytes_of, copy_from, set_bytes};
use crate::named::{
    append_faults_of, count_append_fault, count_load_fault, load_faults_of, new_files,
};
use crate::trace::{Call, Trace};
use crate::{Failed, Files};
use std::alloc::{AllocError, Global};

/// Files in memory. At most `bite` bytes go in one call.
///
/// The loads and the appends are counted from 1 over all names, and the counts stop at the last value of
/// their type. A load fails exactly if its number is listed in `fail_loads` or its file is missing. An append
/// fails exactly if its number is listed in `fail_appends` or `refused` rose in that call, which it does when
/// out of memory.
#[derive(Drop)]
pub struct MemFiles {
    alloc: Global,
    pub files: Vec<MemFile>,
    pub bite: usize,
    pub loads: u64,
    pub appends: u64,
    pub fail_loads: Vec<u64>,
    pub fail_appends: Vec<u64>,
    pub refused: u64,
    gave: Trace,
    ghost bites: { 0 < bite },
}

impl MemFiles {
    /// Files of exactly these names, all missing, with no failing call and all counts 0. A name that is
    /// given twice is known once. `bite` is at least 1.
    ///
    /// # Errors
    ///
    /// `AllocError` when out of memory.
    pub fn new(alloc: Global, names: &[String], bite: usize) -> Result<MemFiles, AllocError>
        requires { 0 < bite }
        ensures names { IfOk result
            (λ files. (name : List ℕ)
            → (mem_folder files.files.items).knows name
            ≡ list_any (λ s. bytes_eq (string_bytes s) name) names.now) }
        ensures once { IfOk result
            (λ files. AllPairs (λ f g. string_bytes f.name ≢ string_bytes g.name) files.files.items) }
        ensures missing { IfOk result (λ files. (name : List ℕ) → (mem_folder files.files.items).file name ≡ None) }
        ensures faults { IfOk result
            (λ files. (name : List ℕ)
            → ((mem_folder files.files.items).load_faults name ≡ 0)
            × ((mem_folder files.files.items).append_faults name ≡ 0)) }
        ensures counts { IfOk result (λ files. (files.loads ≡ 0) × (files.appends ≡ 0) × (files.refused ≡ 0)) }
        ensures none_fails { IfOk result (λ files. (files.fail_loads.items ≡ []) × (files.fail_appends.items ≡ [])) }
        ensures bite { IfOk result (λ files. files.bite ≡ bite) }
    {
        Ok(MemFiles {
            alloc,
            files: new_files(alloc, names, 0)?,
            bite,
            loads: 0,
            appends: 0,
            fail_loads: Vec::new(alloc),
            fail_appends: Vec::new(alloc),
            refused: 0,
            gave: Trace::new(),
        })
    }

    /// Sets the file of this known name to these bytes.
    ///
    /// # Errors
    ///
    /// `AllocError` when out of memory. Nothing has changed then.
    pub fn set(&mut self, name: &str, bytes: &[u8]) -> Result<(), AllocError>
        requires { IsTrue ((mem_folder self.old.files.items).knows name.now) }
        ensures file { OnOk result
            (Becomes name.now (mem_folder self.old.files.items) (mem_folder self.new.files.items)
            (Some bytes.now) [] 0) }
        ensures faults { ((mem_folder self.new.files.items).load_faults ≡ (mem_folder self.old.files.items).load_faults)
            × ((mem_folder self.new.files.items).append_faults ≡ (mem_folder self.old.files.items).append_faults) }
        ensures counts { (self.new.loads ≡ self.old.loads) × (self.new.appends ≡ self.old.appends)
            × (self.new.refused ≡ self.old.refused) }
        ensures same { (self.new.fail_loads.items ≡ self.old.fail_loads.items)
            × (self.new.fail_appends.items ≡ self.old.fail_appends.items) × (self.new.bite ≡ self.old.bite) }
        ensures kept { OnErr result (self.new ≡ self.old) }
    {
        let bytes = Vec::from_slice(self.alloc, bytes)?;
        set_bytes(&mut self.files, name, bytes);
        Ok(())
    }

    /// The bytes of the file of this known name, `None` exactly if it is missing.
    pub fn bytes(&self, name: &str) -> Option<&[u8]>
        requires { IsTrue ((mem_folder self.now.files.items).knows name.now) }
        ensures { option_map (λ b. b.now) result ≡ (mem_folder self.now.files.items).file name.now }
    {
        bytes_of(&self.files, name)
    }
}

impl Files for MemFiles {
    ghost folder = { λ s. with_gave (mem_folder s.files.items) s.gave.calls };

    fn load(&mut self, name: &str, at: u64, buf: &mut [u8]) -> Result<usize, Failed>
        requires known { IsTrue ((mem_folder self.old.files.items).knows name.now) }
        requires place { at < 2 ^ 40 }
        ensures within { IfOk result (λ n. n ≤ length buf.old) }
        ensures kept { KeepsFiles (with_gave (mem_folder self.old.files.items) self.old.gave.calls)
            (with_gave (mem_folder self.new.files.items) self.new.gave.calls) }
        ensures gave { IfOk result (λ n. self.new.gave.calls
            ≡ record { name = name.now; at = at; room = length buf.old; bytes = take n buf.new } ∷ self.old.gave.calls) }
        ensures gave_none { OnErr result (self.new.gave.calls ≡ self.old.gave.calls) }
        ensures bytes { IfOk result (λ n.
            (file : List ℕ) → (mem_folder self.old.files.items).file name.now ≡ Some file
            → Stands file at (length buf.old) buf.new n) }
        ensures count { CountsOnly name.now (mem_folder self.old.files.items).load_faults
            (mem_folder self.new.files.items).load_faults }
        ensures appends { (mem_folder self.new.files.items).append_faults
            ≡ (mem_folder self.old.files.items).append_faults }
        ensures cause { OnErr result
            (Rose ((mem_folder self.old.files.items).load_faults name.now)
            ((mem_folder self.new.files.items).load_faults name.now)) }
        ensures counted { OnErr result ((mem_folder self.new.files.items).load_faults name.now
            ≡ one_more ((mem_folder self.old.files.items).load_faults name.now)) }
        ensures missing { (mem_folder self.old.files.items).file name.now ≡ None → IsErr result }

        // Exactly if the number of the load is listed or the file is missing, and exactly that many bytes.
        ensures number { self.new.loads ≡ min (self.old.loads + 1) (2 ^ 64 - 1) }
        ensures listed { Contains self.old.fail_loads.items self.new.loads → IsErr result }
        ensures failed { IsErr result
            → Contains self.old.fail_loads.items self.new.loads
            ⊎ ((mem_folder self.old.files.items).file name.now ≡ None) }
        ensures exact { IfOk result (λ n.
            (file : List ℕ) → (mem_folder self.old.files.items).file name.now ≡ Some file
            → n ≡ min (min self.old.bite (length buf.old)) (length file - at)) }
        ensures quiet { OnOk result (self.new.files.items ≡ self.old.files.items) }
        ensures others { (self.new.appends ≡ self.old.appends) × (self.new.refused ≡ self.old.refused) }
        ensures same { (self.new.fail_loads.items ≡ self.old.fail_loads.items)
            × (self.new.fail_appends.items ≡ self.old.fail_appends.items) × (self.new.bite ≡ self.old.bite) }
    {
        self.loads = self.loads.saturating_add(1);
        if self.fail_loads.contains(&self.loads) {
            count_load_fault(&mut self.files, name);
            return Err(Failed);
        }
        match bytes_of(&self.files, name) {
            Some(file) => {
                let n = copy_from(file, at as usize, self.bite, buf);
                self.gave = self.gave.with(&Call {
                    name,
                    at,
                    room: buf.len(),
                    bytes: &buf[..n],
                });
                Ok(n)
            }
            None => {
                count_load_fault(&mut self.files, name);
                Err(Failed)
            }
        }
    }

    fn append(&mut self, name: &str, piece: &[u8]) -> Result<usize, Failed>
        requires { IsTrue ((mem_folder self.old.files.items).knows name.now) }
        ensures some { IfOk result (λ n. (n ≤ length piece.now) × (0 < length piece.now → 0 < n)) }
        ensures bytes { IfOk result
            (λ n. Appends name.now (with_gave (mem_folder self.old.files.items) self.old.gave.calls)
            (with_gave (mem_folder self.new.files.items) self.new.gave.calls) piece.now n
            × (n ≡ min (length piece.now) self.old.bite)) }
        ensures kept { OnErr result (KeepsFiles (with_gave (mem_folder self.old.files.items) self.old.gave.calls)
            (with_gave (mem_folder self.new.files.items) self.new.gave.calls)) }
        ensures gave { self.new.gave.calls ≡ self.old.gave.calls }
        ensures count { CountsOnly name.now (mem_folder self.old.files.items).append_faults
            (mem_folder self.new.files.items).append_faults }
        ensures loads { (mem_folder self.new.files.items).load_faults ≡ (mem_folder self.old.files.items).load_faults }
        ensures cause { OnErr result
            (Rose ((mem_folder self.old.files.items).append_faults name.now)
            ((mem_folder self.new.files.items).append_faults name.now)) }
        ensures counted { OnErr result ((mem_folder self.new.files.items).append_faults name.now
            ≡ one_more ((mem_folder self.old.files.items).append_faults name.now)) }

        // Exactly if the number of the append is listed or `refused` rose.
        ensures number { self.new.appends ≡ min (self.old.appends + 1) (2 ^ 64 - 1) }
        ensures listed { Contains self.old.fail_appends.items self.new.appends
            → IsErr result × (self.new.refused ≡ self.old.refused) }
        ensures failed { IsErr result
            → Contains self.old.fail_appends.items self.new.appends ⊎ Rose self.old.refused self.new.refused }
        ensures refused { IsOk result → self.new.refused ≡ self.old.refused }
        ensures quiet { OnOk result
            ((mem_folder self.new.files.items).append_faults ≡ (mem_folder self.old.files.items).append_faults) }
        ensures others { self.new.loads ≡ self.old.loads }
        ensures same { (self.new.fail_loads.items ≡ self.old.fail_loads.items)
            × (self.new.fail_appends.items ≡ self.old.fail_appends.items) × (self.new.bite ≡ self.old.bite) }
    {
        self.appends = self.appends.saturating_add(1);
        if self.fail_appends.contains(&self.appends) {
            count_append_fault(&mut self.files, name);
            return Err(Failed);
        }
        let n = piece.len().min(self.bite);
        if add_to(self.alloc, &mut self.files, name, &piece[..n]).is_err() {
            self.refused = self.refused.saturating_add(1);
            return Err(Failed);
        }
        Ok(n)
    }

    fn load_faults(&self, name: &str) -> u64 {
        load_faults_of(&self.files, name)
    }

    fn append_faults(&self, name: &str) -> u64 {
        append_faults_of(&self.files, name)
    }

    ghost roomy = { λ f name told some. roomy_by mem_seen (λ e none. Prim.cc) (entry f.files.items name) some };
}
