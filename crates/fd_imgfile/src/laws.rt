//! What readings of files have in common.
ghost use Rattle.std.specs.Prelude.{◌≡◌, ℕ, List, Option, Result};
ghost use Rattle.fd_image.specs.Image.{MachineImage};
ghost use Rattle.fd_imgfile.specs.Reading.{IsReading, TellsOfFile};
ghost use Rattle.fd_imgfile.specs.declared.fault.ImageFault.{ImageFault};

/// A file is read in one way alone.
pub fn each_file_has_one_reading()
    ensures { (file : Option (List ℕ)) (r s : Result MachineImage ImageFault)
        → IsReading file r → IsReading file s → TellsOfFile r → TellsOfFile s → r ≡ s }
{}
