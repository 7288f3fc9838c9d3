//! What the definition of signatures means. The function does nothing: what it ensures is the law.

ghost use Rattle.marshal_core.specs.Laws.{SignaturesAreExact};

/// A text is read as these types just where they are a valid signature and the text is their codes:
/// so each valid signature is read, as itself, and no other text is ("Valid Signatures" of the
/// D-Bus Specification).
pub fn signatures_are_exact()
    ensures { SignaturesAreExact }
{}
