//! Values of texts that are borrowed.

ghost use Rattle.std.specs.Prelude.{◌≡◌, IfOk, Some, None};
ghost use Rattle.marshal_core.specs.Values.{a_basic, a_string, an_object_path, basic_of, val_of};
ghost use Rattle.marshal_core.specs.TextFaults.{path_fault_after, string_fault, unless};
ghost use Rattle.marshal_core.specs.Faults.{Gives};

use crate::fault::MarshalFault;
use crate::value::{BasicValue, Value};
use names::ObjectPath;
use std::alloc::Global;

/// The longest string.
const MAX_STRING_LENGTH: usize = 4_294_967_295;

/// Why a text is no string: it has a zero byte, or a length beyond 32 bits.
fn string_fault(text: &str) -> Option<MarshalFault>
    ensures { result ≡ string_fault text.now }
{
    if text.len() > MAX_STRING_LENGTH {
        return Some(MarshalFault::ArrayLength);
    }
    if text.as_bytes().contains(&0) {
        return Some(MarshalFault::NulInText);
    }
    None
}

impl BasicValue {
    /// A text as a D-Bus string. `NulInText` is the fault of a zero byte, `ArrayLength` that of
    /// 2^32 bytes or more.
    pub fn from_str(alloc: Global, text: &str) -> Result<BasicValue, MarshalFault>
        ensures { Gives (λ x. basic_of x) result
            (unless (string_fault text.now) (a_string text.now)) }
    {
        match string_fault(text) {
            Some(fault) => Err(fault),
            None => Ok(BasicValue::String(String::from_str(alloc, text)?)),
        }
    }

    /// An object path as a value. `ArrayLength` is the fault of 2^32 bytes or more.
    pub fn from_path(alloc: Global, path: &ObjectPath) -> Result<BasicValue, MarshalFault>
        ensures { Gives (λ x. basic_of x) result
            (unless (path_fault_after (string_fault path.now) path.now) (an_object_path path.now)) }
    {
        let text = path.as_str();
        match string_fault(text) {
            Some(fault) => Err(fault),
            None => Ok(BasicValue::ObjectPath(String::from_str(alloc, text)?)),
        }
    }
}

impl Value {
    /// A text as a D-Bus string, with the faults of [`BasicValue::from_str`].
    pub fn from_str(alloc: Global, text: &str) -> Result<Value, MarshalFault>
        ensures { Gives (λ x. val_of x) result
            (unless (string_fault text.now) (a_basic (a_string text.now))) }
    {
        Ok(Value::Basic(BasicValue::from_str(alloc, text)?))
    }

    /// An object path as a value, with the fault of [`BasicValue::from_path`].
    pub fn from_path(alloc: Global, path: &ObjectPath) -> Result<Value, MarshalFault>
        ensures { Gives (λ x. val_of x) result
            (unless (path_fault_after (string_fault path.now) path.now)
            (a_basic (an_object_path path.now))) }
    {
        Ok(Value::Basic(BasicValue::from_path(alloc, path)?))
    }
}
