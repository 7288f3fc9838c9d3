//! The header fields that the standard names.

ghost use Rattle.std.specs.Prelude.{◌≡◌, ℕ, IfSome, IfNone};
ghost use Rattle.message_core.specs.Kinds.{code_of};

/// A header field of a code that the standard names ("Header Fields" of the D-Bus Specification).
#[derive(Clone, Copy, Debug, PartialEq, Eq)]
pub enum HeaderField {
    Path,
    Interface,
    Member,
    ErrorName,
    ReplySerial,
    Destination,
    Sender,
    Signature,
    UnixFds,
}

impl HeaderField {
    ghost use Rattle.std.specs.Prelude.{◌≡◌, ◌≢◌, ℕ, IfSome, IfNone};
    ghost use Rattle.message_core.specs.declared.header_field.HeaderField.{HeaderField as AField};
    ghost use Rattle.message_core.specs.Kinds.{code_of};

    /// The code of the field, from 1 to 9.
    pub fn code(self) -> u8
        ensures { result ≡ code_of self }
    {
        match self {
            HeaderField::Path => 1,
            HeaderField::Interface => 2,
            HeaderField::Member => 3,
            HeaderField::ErrorName => 4,
            HeaderField::ReplySerial => 5,
            HeaderField::Destination => 6,
            HeaderField::Sender => 7,
            HeaderField::Signature => 8,
            HeaderField::UnixFds => 9,
        }
    }

    /// The field of a code, if the standard names one.
    pub fn from_code(code: u8) -> Option<HeaderField>
        ensures known { IfSome result (λ field. code ≡ code_of field) }
        ensures unknown { IfNone result ((field : AField) → code ≢ code_of field) }
    {
        match code {
            1 => Some(HeaderField::Path),
            2 => Some(HeaderField::Interface),
            3 => Some(HeaderField::Member),
            4 => Some(HeaderField::ErrorName),
            5 => Some(HeaderField::ReplySerial),
            6 => Some(HeaderField::Destination),
            7 => Some(HeaderField::Sender),
            8 => Some(HeaderField::Signature),
            9 => Some(HeaderField::UnixFds),
            _ => None,
        }
    }
}
