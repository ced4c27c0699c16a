ghost use Rattle.std.specs.Prelude.{◌≡◌, ◌<◌, ◌≤◌, ◌^◌, ◌||◌, ◌↔◌, length, IsTrue, IfOk, IfErr, IfSome, IsErrOf, IsSomeAnd, false, is_none, option_map};
ghost use Rattle.psi_outside.specs.Causes.{HasFileCause};
ghost use Rattle.psi_outside.specs.InMemory.{file_entries, file_map, files_told, DifferInName};
ghost use Rattle.psi_outside.specs.Names.{file_at, CarriesLimit};
ghost use Rattle.psi_outside.specs.Plans.{new_plan, is_listed, after_call};

use crate::plan::FaultPlan;
use crate::{FileFault, Files};
use std::alloc::Global;
use std::marker::Model;

/// Files in memory. The reads that are listed fail, and those of a missing file.
#[derive(Drop)]
pub struct MemoryFiles {
    files: Vec<(String, Vec<u8>)>,
    plan: FaultPlan,
}

impl Model for MemoryFiles {
    ghost use Rattle.psi_outside.specs.InMemory.{FilesState, file_entries};

    ghost Value = { FilesState };

    ghost view = { λ s. record { entries = file_entries s.files.items; plan = s.plan } };
}

impl MemoryFiles {
    /// Files of these names, which differ, and bytes. A read fails if its number, from 0, is in `fails`.
    pub fn open(files: Vec<(String, Vec<u8>)>, fails: Vec<u64>) -> MemoryFiles
        requires { DifferInName (file_entries files.items) }
        ensures files { result.entries ≡ file_entries files.items }
        ensures plan { result.plan ≡ new_plan fails.items }
    {
        MemoryFiles {
            files,
            plan: FaultPlan::open(fails),
        }
    }
}

impl Files for MemoryFiles {
    ghost use Rattle.std.specs.Prelude.{Some};

    ghost told = { λ s. files_told s };

    fn read_file(&mut self, alloc: Global, name: &str, max: u64) -> Result<Vec<u8>, FileFault>
        requires { max < 2 ^ 40 }
        ensures bytes { IfOk result (λ bytes.
            file_at (file_map self.old.entries) name.now ≡ Some bytes.items) }
        ensures bound { IfOk result (λ bytes. length bytes.items ≤ max) }
        ensures limit { IfErr result (CarriesLimit max) }
        ensures longer { IsErrOf result (FileFault.TooLong max)
            → IsSomeAnd (file_at (file_map self.old.entries) name.now)
            (λ bytes. max < length bytes) }
        ensures missing { file_at (file_map self.old.entries) name.now ≡ None
            → IsErrOf result FileFault.Failed }
        ensures files { self.new.entries ≡ self.old.entries }
        ensures cause { HasFileCause self.old.plan.faults self.new.plan.faults result }

        // It fails exactly where the file is missing or the plan says so, and no other longer file is passed over.
        ensures fails { IsErrOf result FileFault.Failed ↔ IsTrue
            (is_none (file_at (file_map self.old.entries) name.now) || is_listed self.old.plan) }
        ensures long { is_listed self.old.plan ≡ false
            → IfSome (file_at (file_map self.old.entries) name.now) (λ bytes. max < length bytes
            → IsErrOf result (FileFault.TooLong max)) }
        ensures plan { self.new.plan ≡ after_call self.old.plan
            (is_none (file_at (file_map self.old.entries) name.now) || is_listed self.old.plan) }
    {
        let file = find_file(&self.files, name);
        self.plan.call(file.is_none())?;
        let bytes = file.unwrap();
        if bytes.len() as u64 > max {
            return Err(FileFault::TooLong { max });
        }
        Ok(bytes.to_vec(alloc)?)
    }
}

// The bytes of the file of that name.
fn find_file<'a>(files: &'a [(String, Vec<u8>)], name: &str) -> Option<&'a [u8]>
    ensures { option_map (λ bytes. bytes.now) result ≡ file_at (file_map (file_entries files.now))
        name.now }
{
    for file in files {
        if name == file.0.as_str() {
            return Some(&file.1);
        }
    }
    None
}
