//! Values of plain Rust types. A `String` becomes a D-Bus string.

ghost use Rattle.std.specs.Prelude.{◌≡◌};
ghost use Rattle.marshal_core.specs.declared.value.BasicValue.TheVariants as basic_forms;
ghost use Rattle.marshal_core.specs.declared.value.Value.{Basic};

use crate::signature::Signature;
use crate::value::{BasicValue, Value};

impl From<u8> for BasicValue {
    ghost from_gives = { λ number value. value ≡ basic_forms.Byte number };

    fn from(number: u8) -> BasicValue {
        BasicValue::Byte(number)
    }
}

impl From<bool> for BasicValue {
    ghost from_gives = { λ truth value. value ≡ basic_forms.Boolean truth };

    fn from(truth: bool) -> BasicValue {
        BasicValue::Boolean(truth)
    }
}

impl From<i16> for BasicValue {
    ghost from_gives = { λ number value. value ≡ basic_forms.Int16 number };

    fn from(number: i16) -> BasicValue {
        BasicValue::Int16(number)
    }
}

impl From<u16> for BasicValue {
    ghost from_gives = { λ number value. value ≡ basic_forms.Uint16 number };

    fn from(number: u16) -> BasicValue {
        BasicValue::Uint16(number)
    }
}

impl From<i32> for BasicValue {
    ghost from_gives = { λ number value. value ≡ basic_forms.Int32 number };

    fn from(number: i32) -> BasicValue {
        BasicValue::Int32(number)
    }
}

impl From<u32> for BasicValue {
    ghost from_gives = { λ number value. value ≡ basic_forms.Uint32 number };

    fn from(number: u32) -> BasicValue {
        BasicValue::Uint32(number)
    }
}

impl From<i64> for BasicValue {
    ghost from_gives = { λ number value. value ≡ basic_forms.Int64 number };

    fn from(number: i64) -> BasicValue {
        BasicValue::Int64(number)
    }
}

impl From<u64> for BasicValue {
    ghost from_gives = { λ number value. value ≡ basic_forms.Uint64 number };

    fn from(number: u64) -> BasicValue {
        BasicValue::Uint64(number)
    }
}

impl From<String> for BasicValue {
    ghost from_gives = { λ text value. value ≡ basic_forms.String text };

    fn from(text: String) -> BasicValue {
        BasicValue::String(text)
    }
}

impl From<Signature> for BasicValue {
    ghost from_gives = { λ signature value. value ≡ basic_forms.Signature signature };

    fn from(signature: Signature) -> BasicValue {
        BasicValue::Signature(signature)
    }
}

impl From<BasicValue> for Value {
    ghost from_gives = { λ basic value. value ≡ Basic basic };

    fn from(basic: BasicValue) -> Value {
        Value::Basic(basic)
    }
}

impl From<u8> for Value {
    ghost from_gives = { λ number value. value ≡ Basic (basic_forms.Byte number) };

    fn from(number: u8) -> Value {
        Value::Basic(BasicValue::Byte(number))
    }
}

impl From<bool> for Value {
    ghost from_gives = { λ truth value. value ≡ Basic (basic_forms.Boolean truth) };

    fn from(truth: bool) -> Value {
        Value::Basic(BasicValue::Boolean(truth))
    }
}

impl From<i16> for Value {
    ghost from_gives = { λ number value. value ≡ Basic (basic_forms.Int16 number) };

    fn from(number: i16) -> Value {
        Value::Basic(BasicValue::Int16(number))
    }
}

impl From<u16> for Value {
    ghost from_gives = { λ number value. value ≡ Basic (basic_forms.Uint16 number) };

    fn from(number: u16) -> Value {
        Value::Basic(BasicValue::Uint16(number))
    }
}

impl From<i32> for Value {
    ghost from_gives = { λ number value. value ≡ Basic (basic_forms.Int32 number) };

    fn from(number: i32) -> Value {
        Value::Basic(BasicValue::Int32(number))
    }
}

impl From<u32> for Value {
    ghost from_gives = { λ number value. value ≡ Basic (basic_forms.Uint32 number) };

    fn from(number: u32) -> Value {
        Value::Basic(BasicValue::Uint32(number))
    }
}

impl From<i64> for Value {
    ghost from_gives = { λ number value. value ≡ Basic (basic_forms.Int64 number) };

    fn from(number: i64) -> Value {
        Value::Basic(BasicValue::Int64(number))
    }
}

impl From<u64> for Value {
    ghost from_gives = { λ number value. value ≡ Basic (basic_forms.Uint64 number) };

    fn from(number: u64) -> Value {
        Value::Basic(BasicValue::Uint64(number))
    }
}

impl From<String> for Value {
    ghost from_gives = { λ text value. value ≡ Basic (basic_forms.String text) };

    fn from(text: String) -> Value {
        Value::Basic(BasicValue::String(text))
    }
}

impl From<Signature> for Value {
    ghost from_gives = { λ signature value. value ≡ Basic (basic_forms.Signature signature) };

    fn from(signature: Signature) -> Value {
        Value::Basic(BasicValue::Signature(signature))
    }
}
