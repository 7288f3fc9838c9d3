//! What the libraries of names, match rules, signatures, bodies, values and authentication say of
//! the rows of a table.
//!
//! A row is a line of standard input: what is asked, and then its columns, as [`test_support::Row`]
//! has them. The line of the same number answers it. Empty lines and headings are repeated.
#![tactic(auto)]

mod authentication;
mod body_rows;
mod keyrings;
mod name_rows;
mod rule_rows;
mod signature_rows;
mod value_rows;

use std::alloc::{AllocError, Global};
use std::io;
use std::io::{BufRead, BufReader};
use test_support::Row;

fn answer(alloc: Global, row: &Row<'_>) -> Result<String, AllocError> {
    match row.text(0) {
        "body" | "values" => body_rows::body(alloc, row),
        "arguments" => body_rows::arguments(alloc, row),
        "signature" | "signature-bytes" => signature_rows::signature(alloc, row),
        "kind" | "rule" | "no-keys" | "same" | "fits" => rule_rows::rule(alloc, row),
        "talk" | "letters" | "digest" | "sha1" => authentication::authentication(alloc, row),
        "keyring" => keyrings::keyring(alloc, row),
        "string" | "object" | "print" | "write" => value_rows::value(alloc, row),
        _ => name_rows::name(alloc, row),
    }
}

fn main(rt: HostRuntime) -> io::Result<()> {
    let alloc = rt.alloc();
    for line in BufReader::new(alloc, rt.reader())?.lines(alloc) {
        let line = line?;
        if line.is_empty() || line.as_str().starts_with('#') {
            println!(rt; "{line}")?;
        } else {
            let answer = answer(alloc, &Row::new(alloc, line.as_str())?)?;
            println!(rt; "{answer}")?;
        }
    }
    Ok(())
}
