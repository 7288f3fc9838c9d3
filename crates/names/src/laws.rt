//! What the definitions of names mean.

ghost use Rattle.std.specs.Prelude.{◌≡◌};
ghost use Rattle.names.specs.Texts.{Text, IsPlain};
ghost use Rattle.names.specs.Elements.{IsShortAndPlain};
ghost use Rattle.names.specs.UniqueName.{IsUniqueName, unique_text};
ghost use Rattle.names.specs.WellKnown.{IsNamespace};
ghost use Rattle.names.specs.Interface.{IsInterface};
ghost use Rattle.names.specs.Member.{IsMember};
ghost use Rattle.names.specs.ErrorName.{IsErrorName};
ghost use Rattle.names.specs.BusName.{IsBusName};
ghost use Rattle.names.specs.ObjectPath.{IsObjectPath};

/// The bus gives no two connections one name.
pub fn unique_names_differ(first: u64, second: u64)
    ensures { unique_text first ≡ unique_text second → first ≡ second }
{}

/// What the bus gives to a connection is a unique name.
pub fn connections_have_unique_names(number: u64)
    ensures { IsUniqueName (unique_text number) }
{}

/// Names are ASCII without zero bytes, and only object paths may have more than 255 bytes.
pub fn names_are_plain()
    ensures bus_names { (text : Text) → IsBusName text → IsShortAndPlain text }
    ensures namespaces { (text : Text) → IsNamespace text → IsShortAndPlain text }
    ensures interfaces { (text : Text) → IsInterface text → IsShortAndPlain text }
    ensures error_names { (text : Text) → IsErrorName text → IsShortAndPlain text }
    ensures members { (text : Text) → IsMember text → IsShortAndPlain text }
    ensures object_paths { (text : Text) → IsObjectPath text → IsPlain text }
{}
