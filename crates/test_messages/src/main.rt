//! What the libraries of messages, of their relaying, of the bus's own protocol and of services say
//! of the rows of a table.
//!
//! A row is a line of standard input: what is asked, and then its columns, as [`test_support::Row`]
//! has them. Rows `message`, `stream` and `file` bring bytes, and rows below may ask more of these;
//! a row `supervisor` brings a supervisor that rows below tell of events. The line of the same
//! number answers. Empty lines and headings are repeated.
#![tactic(auto)]

mod driver_rows;
mod header_rows;
mod message_rows;
mod relay_rows;
mod service_examples;
mod service_file_rows;
mod service_rows;
mod service_run;
mod stream_rows;
mod supervisor_rows;

use message::FrameFault;
use service_rows::Services;
use std::alloc::Global;
use std::io;
use std::io::{BufRead, BufReader};
use test_support::Row;

fn answer(
    alloc: Global,
    row: &Row<'_>,
    bytes: &[u8],
    services: &mut Services,
) -> Result<String, FrameFault> {
    if let Some(told) = services.answer(alloc, row)? {
        return Ok(told);
    }
    match row.text(0) {
        "call" | "reply" | "error-reply" | "signal" => driver_rows::driver(alloc, row),
        "body" | "values" => header_rows::made(alloc, row),
        "again" | "named" | "relayed" | "facts" => relay_rows::relayed(alloc, row, bytes),
        "stream" | "pieces" | "cuts" | "long" | "byte" => stream_rows::stream(alloc, row, bytes),
        _ => message_rows::message(alloc, row, bytes),
    }
}

fn main(rt: HostRuntime) -> io::Result<()> {
    let alloc = rt.alloc();
    let mut bytes = Vec::new(alloc);
    let mut services = Services::new(alloc);
    for line in BufReader::new(alloc, rt.reader())?.lines(alloc) {
        let line = line?;
        if line.is_empty() || line.as_str().starts_with('#') {
            println!(rt; "{line}")?;
            continue;
        }
        let row = Row::new(alloc, line.as_str())?;
        if matches!(row.text(0), "message" | "stream") {
            bytes = row.bytes(alloc, 1)?;
        }
        match answer(alloc, &row, &bytes, &mut services) {
            Ok(told) => println!(rt; "{told}")?,
            Err(fault) => println!(rt; "{}: {fault}", fault.code())?,
        }
    }
    Ok(())
}
