//! Values in their bytes: checked where they lie, decoded, and encoded.

use crate::samples::{HELLO_FIELDS, many_bytes, strings};
use anyhow::Result;
use bench_core::{Report, Work};
use marshal::{Order, Signature, Value, decode, encode};
use marshal_check::{Types, check};
use std::alloc::Global;
use std::time::Clock;

pub fn measure<R: Print + Clock>(alloc: Global, report: &Report<'_, R>) -> Result<()> {
    let strings = strings(alloc)?;
    let many_bytes = many_bytes(alloc)?;
    let fields = Sample {
        names: [
            "codec: check the header fields of a Hello",
            "codec: decode the header fields of a Hello",
            "codec: encode the header fields of a Hello",
        ],
        types: "a(yv)",
        offset: 12,
        bytes: HELLO_FIELDS,
    };
    fields.measure(alloc, report)?;
    let strings = Sample {
        names: [
            "codec: check 20 strings",
            "codec: decode 20 strings",
            "codec: encode 20 strings",
        ],
        types: "as",
        offset: 0,
        bytes: &strings,
    };
    strings.measure(alloc, report)?;
    let many_bytes = Sample {
        names: [
            "codec: check 65,536 bytes",
            "codec: decode 65,536 bytes",
            "codec: encode 65,536 bytes",
        ],
        types: "ay",
        offset: 0,
        bytes: &many_bytes,
    };
    many_bytes.measure(alloc, report)
}

/// Bytes, and the types of the values that they spell.
#[derive(Drop)]
struct Sample<'a> {
    /// What their check, their reading and their writing are called.
    names: [&'static str; 3],
    types: &'static str,
    offset: usize,
    bytes: &'a [u8],
}

impl Sample<'_> {
    fn measure<R: Print + Clock>(&self, alloc: Global, report: &Report<'_, R>) -> Result<()> {
        let types = Types::parse(self.types)?;
        report.tell(&mut Check {
            name: self.names[0],
            types,
            offset: self.offset,
            bytes: self.bytes,
        })?;
        let signature = Signature::parse(alloc, self.types)?;
        let (values, _) = decode(alloc, Order::Little, self.offset, &signature, self.bytes)?;
        report.tell(&mut Decode {
            name: self.names[1],
            alloc,
            signature,
            offset: self.offset,
            bytes: self.bytes,
        })?;
        report.tell(&mut Encode {
            name: self.names[2],
            alloc,
            values,
            offset: self.offset,
            output: Vec::new(alloc),
        })?;
        Ok(())
    }
}

#[derive(Drop)]
struct Check<'a> {
    name: &'static str,
    types: Types<'a>,
    offset: usize,
    bytes: &'a [u8],
}

impl Work for Check<'_> {
    fn name(&self) -> &'static str {
        self.name
    }

    fn once(&mut self, _round: u64) -> u64 {
        match check(Order::Little, self.offset, self.types, self.bytes) {
            Ok(length) => length as u64,
            Err(_) => 0,
        }
    }
}

#[derive(Drop)]
struct Decode<'a> {
    name: &'static str,
    alloc: Global,
    signature: Signature,
    offset: usize,
    bytes: &'a [u8],
}

impl Work for Decode<'_> {
    fn name(&self) -> &'static str {
        self.name
    }

    fn once(&mut self, _round: u64) -> u64 {
        match decode(
            self.alloc,
            Order::Little,
            self.offset,
            &self.signature,
            self.bytes,
        ) {
            Ok((values, length)) => (values.len() as u64).wrapping_add(length as u64),
            Err(_) => 0,
        }
    }
}

#[derive(Drop)]
struct Encode {
    name: &'static str,
    alloc: Global,
    values: Vec<Value>,
    offset: usize,
    output: Vec<u8>,
}

impl Work for Encode {
    fn name(&self) -> &'static str {
        self.name
    }

    fn once(&mut self, _round: u64) -> u64 {
        self.output.clear();
        match encode(
            self.alloc,
            Order::Little,
            self.offset,
            &self.values,
            &mut self.output,
        ) {
            Ok(()) => self.output.len() as u64,
            Err(_) => 0,
        }
    }
}
