//! Rows of names.

use names::{
    BusName, ConnectionName, ErrorName, Interface, Member, NameFault, ObjectPath, UniqueName,
    WellKnown,
};
use std::alloc::{AllocError, Global};
use std::str;
use test_support::Row;

/// A name, shown and as its text; or its fault.
macro_rules! read {
    ($alloc:expr; $read:expr) => {
        match $read {
            Ok(name) => format!(in $alloc; "{name} {}", name.as_str()),
            Err(fault) => told($alloc, fault),
        }
    };
}

fn told(alloc: Global, fault: NameFault) -> Result<String, AllocError> {
    format!(in alloc; "{}: {fault}", fault.code())
}

/// `KIND | TEXT`: the text as a name of a kind. `namespace | TEXT`: whether it is one. `connection
/// | NUMBER`, `padded | NUMBER`: the unique name of a connection; `given | NUMBER`: in the room
/// that it needs. `order | A | B`: two bus names compared.
pub fn name(alloc: Global, row: &Row<'_>) -> Result<String, AllocError> {
    let bytes = row.bytes(alloc, 1)?;
    let told = match str::from_utf8(&bytes) {
        Ok(text) => name_of(alloc, row, text),
        Err(_) => String::from_str(alloc, "no text"),
    };
    drop(bytes);
    told
}

fn name_of(alloc: Global, row: &Row<'_>, text: &str) -> Result<String, AllocError> {
    match row.text(0) {
        "interface" => read!(alloc; Interface::parse(text)),
        "error" => read!(alloc; ErrorName::parse(text)),
        "member" => read!(alloc; Member::parse(text)),
        "path" => read!(alloc; ObjectPath::parse(text)),
        "well-known" => read!(alloc; WellKnown::parse(text)),
        "unique" => unique(alloc, UniqueName::parse(text)),
        "connection" => unique(alloc, Ok(UniqueName::of(row.number(1)))),
        "given" => given(alloc, ConnectionName::of(row.number(1))),
        "padded" => format!(in alloc; "{:>6}", UniqueName::of(row.number(1))),
        "namespace" => format!(in alloc; "{}", WellKnown::is_namespace(text)),
        "order" => order(alloc, row),
        "bus" => bus(alloc, BusName::parse(text)),
        "the-bus" => bus(alloc, Ok(BusName::bus())),
        _ => String::from_str(alloc, "no such row"),
    }
}

fn unique(alloc: Global, read: Result<UniqueName, NameFault>) -> Result<String, AllocError> {
    match read {
        Ok(name) => format!(in alloc; "{name} {} {:?}", name.as_str(), name.connection()),
        Err(fault) => told(alloc, fault),
    }
}

fn given(alloc: Global, name: ConnectionName) -> Result<String, AllocError> {
    format!(in alloc; "{name} {name:>6}")
}

fn bus(alloc: Global, read: Result<BusName, NameFault>) -> Result<String, AllocError> {
    match read {
        Ok(name) => {
            format!(in alloc;
                "{name} {} {:?} {}",
                name.as_str(),
                name.kind(),
                name.is_bus()
            )
        }
        Err(fault) => told(alloc, fault),
    }
}

fn order(alloc: Global, row: &Row<'_>) -> Result<String, AllocError> {
    match (BusName::parse(row.text(1)), BusName::parse(row.text(2))) {
        (Ok(first), Ok(second)) => {
            format!(in alloc; "{:?} {}", first.cmp(&second), first == second)
        }
        _ => String::from_str(alloc, "no names"),
    }
}
