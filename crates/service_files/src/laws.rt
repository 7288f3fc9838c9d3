//! What the definition of service files means.

ghost use Rattle.std.specs.Prelude.{◌≡◌, ℕ, List, Ok};
ghost use Rattle.service_files.specs.ServiceFiles.{Described, service_in};
ghost use Rattle.service_files.specs.WholeFiles.{IsServiceFile};

/// What is read of a file, line by line, is what the file describes as a whole; and what it
/// describes is read.
pub fn files_describe_services()
    ensures read { (bytes : List ℕ) (service : Described)
        → service_in bytes ≡ Ok service → IsServiceFile bytes service }
    ensures described { (bytes : List ℕ) (service : Described)
        → IsServiceFile bytes service → service_in bytes ≡ Ok service }
{}
