//! Single complete types.

ghost use Rattle.std.specs.Prelude.{◌≡◌, ◌<◌, ◌≤◌, IfOk};
ghost use Rattle.marshal_core.specs.Types.{ty_of};
ghost use Rattle.marshal_core.specs.Signatures.{basic_code, basic_types, variant_type_of, with_code};
ghost use Rattle.marshal_core.specs.Spelling.{alignment, basic_alignment};
ghost use Rattle.marshal_core.specs.Faults.{Gives};

use crate::fault::MarshalFault;
use crate::parsing::variant_type;
use std::alloc::{AllocError, Global};
use std::fmt;

/// A basic type ("Basic Types" of the D-Bus Specification), but for UNIX_FD: file descriptors are
/// not passed.
#[derive(Clone, Copy, Debug, PartialEq, Eq)]
pub enum BasicType {
    Byte,
    Boolean,
    Int16,
    Uint16,
    Int32,
    Uint32,
    Int64,
    Uint64,
    Double,
    String,
    ObjectPath,
    Signature,
}

impl BasicType {
    /// The letter of the type in a signature.
    pub fn code(self) -> u8
        ensures { result ≡ basic_code self }
    {
        match self {
            BasicType::Byte => b'y',
            BasicType::Boolean => b'b',
            BasicType::Int16 => b'n',
            BasicType::Uint16 => b'q',
            BasicType::Int32 => b'i',
            BasicType::Uint32 => b'u',
            BasicType::Int64 => b'x',
            BasicType::Uint64 => b't',
            BasicType::Double => b'd',
            BasicType::String => b's',
            BasicType::ObjectPath => b'o',
            BasicType::Signature => b'g',
        }
    }

    /// What its values are aligned to in bytes.
    pub fn alignment(self) -> usize
        ensures value { result ≡ basic_alignment self }
        ensures positive { 0 < result }
        ensures most { result ≤ 8 }
    {
        match self {
            BasicType::Byte | BasicType::Signature => 1,
            BasicType::Int16 | BasicType::Uint16 => 2,
            BasicType::Boolean
            | BasicType::Int32
            | BasicType::Uint32
            | BasicType::String
            | BasicType::ObjectPath => 4,
            BasicType::Int64 | BasicType::Uint64 | BasicType::Double => 8,
        }
    }

    /// The basic type of a letter, if it has one.
    pub fn from_code(code: u8) -> Option<BasicType>
        ensures { result ≡ with_code code basic_types }
    {
        match code {
            b'y' => Some(BasicType::Byte),
            b'b' => Some(BasicType::Boolean),
            b'n' => Some(BasicType::Int16),
            b'q' => Some(BasicType::Uint16),
            b'i' => Some(BasicType::Int32),
            b'u' => Some(BasicType::Uint32),
            b'x' => Some(BasicType::Int64),
            b't' => Some(BasicType::Uint64),
            b'd' => Some(BasicType::Double),
            b's' => Some(BasicType::String),
            b'o' => Some(BasicType::ObjectPath),
            b'g' => Some(BasicType::Signature),
            _ => None,
        }
    }
}

/// The letter of the type in a signature.
impl fmt::Display for BasicType {
    ghost use Rattle.std.specs.Prelude.{Some, [], ◌∷◌};
    ghost use Rattle.marshal_core.specs.Signatures.{basic_code};

    ghost output = { λ basic. Some (basic_code basic ∷ []) };

    fn fmt<W: fmt::Write>(&self, f: &mut fmt::Formatter<W>) -> fmt::Result {
        let code = char::from(self.code());
        write!(f, "{code}")
    }
}

/// A single complete type. A dictionary is an array of dict entries, which stand nowhere else and
/// have a key of a basic type ("Container Types" of the D-Bus Specification).
#[derive(Debug, Drop, PartialEq, Eq)]
pub enum DataType {
    Basic(BasicType),
    Variant,
    Array(Box<DataType>),
    Dictionary(BasicType, Box<DataType>),
    Struct(Vec<DataType>),
}

impl DataType {
    /// The type of a text that is one single complete type, as the signature of a variant is, or
    /// the first fault from the left.
    pub fn from_bytes(alloc: Global, text: &[u8]) -> Result<DataType, MarshalFault>
        ensures { Gives (λ x. ty_of x) result (variant_type_of text.now) }
    {
        variant_type(alloc, text)
    }

    /// What its values are aligned to in bytes.
    pub fn alignment(&self) -> usize
        ensures value { result ≡ alignment (ty_of self.now) }
        ensures positive { 0 < result }
        ensures most { result ≤ 8 }
    {
        match self {
            DataType::Basic(basic) => basic.alignment(),
            DataType::Variant => 1,
            DataType::Array(_) | DataType::Dictionary(_, _) => 4,
            DataType::Struct(_) => 8,
        }
    }

    /// The same type once more.
    pub fn try_clone(&self, alloc: Global) -> Result<DataType, AllocError>
        ensures { IfOk result (λ x. ty_of x ≡ ty_of self.now) }
    {
        match self {
            DataType::Basic(basic) => Ok(DataType::Basic(*basic)),
            DataType::Variant => Ok(DataType::Variant),
            DataType::Array(element) => {
                let copy = element.try_clone(alloc)?;
                Ok(DataType::Array(Box::new(alloc, copy)?))
            }
            DataType::Dictionary(key, value) => {
                let copy = value.try_clone(alloc)?;
                Ok(DataType::Dictionary(*key, Box::new(alloc, copy)?))
            }
            DataType::Struct(fields) => {
                let mut copies = Vec::new(alloc);
                for field in fields {
                    copies.push(field.try_clone(alloc)?)?;
                }
                Ok(DataType::Struct(copies))
            }
        }
    }
}

/// The type as it stands in a signature.
impl fmt::Display for DataType {
    ghost use Rattle.std.specs.Prelude.{Some};
    ghost use Rattle.marshal_core.specs.Types.{ty_of};
    ghost use Rattle.marshal_core.specs.Signatures.{code};

    ghost output = { λ of. Some (code (ty_of of)) };

    fn fmt<W: fmt::Write>(&self, f: &mut fmt::Formatter<W>) -> fmt::Result {
        match self {
            DataType::Basic(basic) => write!(f, "{basic}"),
            DataType::Variant => write!(f, "v"),
            DataType::Array(element) => write!(f, "a{element}"),
            DataType::Dictionary(key, value) => write!(f, "a{{{key}{value}}}"),
            DataType::Struct(fields) => {
                write!(f, "(")?;
                for field in fields {
                    write!(f, "{field}")?;
                }
                write!(f, ")")
            }
        }
    }
}
