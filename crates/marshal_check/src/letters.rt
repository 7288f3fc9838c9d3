//! Walking along the text of a signature, letter by letter.

ghost use Rattle.std.specs.Prelude.{◌≡◌, ◌+◌, ◌<◌, ◌≤◌, ℕ, List, ◌∷◌, ◌++◌, length, None, IfSome, ◌==◌, ◌||◌};
ghost use Rattle.marshal_core.specs.Types.{Ty, basic};
ghost use Rattle.marshal_core.specs.Signatures.{code, entry_begin, entry_end, struct_begin, struct_end};
ghost use Rattle.marshal_core.specs.Spelling.{alignment};
ghost use Rattle.marshal_check.specs.Checking.{is_end};
ghost use Rattle.marshal_check.specs.SignatureTexts.{free_size, free_size_of};

use marshal_core::BasicType;

/// Whether no further type stands before the end of the signature or of a struct.
pub fn at_end(of: &[u8]) -> bool
    ensures { result ≡ is_end of.now }
{
    match of.split_first() {
        None => true,
        Some((first, _)) => *first == b')',
    }
}

/// What values of the type that a text begins with are aligned to.
pub fn alignment(of: &[u8]) -> usize
    ensures value { (t : Ty) (tail : List ℕ) → of.now ≡ code t ++ tail → result ≡ alignment t }
    ensures positive { 0 < result }
    ensures most { result ≤ 8 }
{
    let Some((first, _)) = of.split_first() else {
        return 1;
    };
    if let Some(basic) = BasicType::from_code(*first) {
        return basic.alignment();
    }
    if *first == b'v' {
        return 1;
    }
    if *first == b'a' { 4 } else { 8 }
}

/// Whether a struct or a dict entry begins.
fn opens(letter: u8) -> bool
    ensures { result ≡ (letter == struct_begin || letter == entry_begin) }
{
    letter == b'(' || letter == b'{'
}

/// Whether a struct or a dict entry ends.
fn closes(letter: u8) -> bool
    ensures { result ≡ (letter == struct_end || letter == entry_end) }
{
    letter == b')' || letter == b'}'
}

/// What follows the type that a text begins with.
pub fn skip_type(of: &[u8]) -> &[u8]
    ensures rest { (t : Ty) (tail : List ℕ) → of.now ≡ code t ++ tail → result.now ≡ tail }
    ensures within { 0 < length of.now → length result.now < length of.now }
{
    let mut rest = of;
    let mut open = 0usize;
    'each: while let Some((first, behind)) = rest.split_first() {
        rest = behind;
        if *first == b'a' {
            continue;
        }
        if opens(*first) {
            open += 1;
            continue;
        }
        if closes(*first) {
            if open <= 1 {
                return rest;
            }
            open -= 1;
            continue;
        }
        if open == 0 {
            return rest;
        }
    }
    rest
}

/// How many bytes a value of a basic type has, where any bytes so many are one.
fn free_size(of: BasicType) -> Option<usize>
    ensures size { result ≡ free_size of }
    ensures positive { IfSome result (λ n. 0 < n) }
{
    match of {
        BasicType::Byte => Some(1),
        BasicType::Int16 | BasicType::Uint16 => Some(2),
        BasicType::Int32 | BasicType::Uint32 => Some(4),
        BasicType::Int64 | BasicType::Uint64 | BasicType::Double => Some(8),
        BasicType::Boolean | BasicType::String | BasicType::ObjectPath | BasicType::Signature => {
            None
        }
    }
}

/// The same of the type that a text begins with.
pub fn free_element(of: &[u8]) -> Option<usize>
    ensures size { (t : Ty) (tail : List ℕ) → of.now ≡ code t ++ tail → result ≡ free_size_of t }
    ensures positive { IfSome result (λ n. 0 < n) }
{
    let (first, _) = of.split_first()?;
    match BasicType::from_code(*first) {
        Some(basic) => free_size(basic),
        None => None,
    }
}
