ghost use Rattle.std.specs.Prelude.{◌≡◌, ◌<◌, ◌≤◌, ◌^◌, length, IfOk, IfErr, IfSome, IsErrOf, IsSomeAnd};
ghost use Rattle.psi_outside.specs.Causes.{HasFileCause};
ghost use Rattle.psi_outside.specs.Ends.{FilesTold};
ghost use Rattle.psi_outside.specs.Names.{file_at, CarriesLimit};

use crate::FileFault;
use std::alloc::Global;

/// Files that are read whole, by their names.
///
/// It counts its faults, as a `Source` does.
pub trait Files {
    /// The files, where they are told, and how many reads have failed. No call changes the files. The count stands still at the
    /// last number of 64 bits.
    ghost told: { Self → FilesTold };

    /// All bytes of the file of that name, at most `max` of them. `max` is below 2^40.
    ///
    /// `TooLong` comes for a longer file, and carries `max`. A missing file is `Failed`.
    fn read_file(&mut self, alloc: Global, name: &str, max: u64) -> Result<Vec<u8>, FileFault>
        requires { max < 2 ^ 40 }
        ensures bytes { IfOk result (λ bytes.
            IfSome (told self.old).files (λ map. file_at map name.now ≡ Some bytes.items)) }
        ensures bound { IfOk result (λ bytes. length bytes.items ≤ max) }
        ensures limit { IfErr result (CarriesLimit max) }
        ensures longer { IfSome (told self.old).files (λ map. IsErrOf result (FileFault.TooLong max)
            → IsSomeAnd (file_at map name.now) (λ bytes. max < length bytes)) }
        ensures missing { IfSome (told self.old).files (λ map. file_at map name.now ≡ None
            → IsErrOf result FileFault.Failed) }
        ensures files { (told self.new).files ≡ (told self.old).files }
        ensures cause { HasFileCause (told self.old).faults (told self.new).faults result };
}
