//! Rows of streams that come in pieces.

use message::{FrameFault, Framer, Message, with_sender};
use names::UniqueName;
use std::alloc::{AllocError, Global};
use test_support::Row;
use test_support::messages::HELLO;

/// `stream | BYTES | CUT`: the lengths of the messages where the bytes come in two owned pieces,
/// and whether these are the bytes. `pieces`: whether the message comes with its last byte, where
/// each is a piece. `cuts`: whether it comes wherever it is cut, and whether, with any one byte 0
/// or 255, it is told to be the same wherever it is cut. `long | LENGTH | BYTES | BYTE | BYTES`:
/// the lengths of a body and of a message with one byte again and again between others, whether
/// these are its bytes, and what relaying it says. `byte | PLACE | BYTE`: the fault where one byte
/// is another, and whether it is told again.
pub fn stream(alloc: Global, row: &Row<'_>, bytes: &[u8]) -> Result<String, FrameFault> {
    let mut framer = Framer::new(alloc);
    let told = told(alloc, &mut framer, row, bytes);
    drop(framer);
    told
}

fn told(
    alloc: Global,
    framer: &mut Framer,
    row: &Row<'_>,
    bytes: &[u8],
) -> Result<String, FrameFault> {
    match row.text(0) {
        "stream" => owned(alloc, framer, bytes, row.number(2) as usize),
        "pieces" => pieces(alloc, framer, bytes),
        "cuts" => cuts(alloc, bytes),
        "long" => long(alloc, framer, row),
        _ => {
            let other = row.bytes(alloc, 2)?.first().copied().unwrap_or(0);
            let changed = changed(alloc, bytes, row.number(1) as usize, other)?;
            fault(alloc, framer, &changed)
        }
    }
}

/// The bytes with one that is another.
fn changed(alloc: Global, bytes: &[u8], place: usize, other: u8) -> Result<Vec<u8>, AllocError> {
    let mut changed = Vec::from_slice(alloc, bytes)?;
    if let Some(slot) = changed.get_mut(place) {
        *slot = other;
    }
    Ok(changed)
}

fn fault(alloc: Global, framer: &mut Framer, bytes: &[u8]) -> Result<String, FrameFault> {
    for byte in bytes {
        framer.feed(&[*byte])?;
    }
    let Err(fault) = framer.next() else {
        return Ok(String::from_str(alloc, "no fault")?);
    };
    framer.feed(HELLO)?;
    let again = framer.next().err() == Some(fault);
    Ok(format!(in alloc; "{}: {fault} {again}", fault.code())?)
}

fn owned(
    alloc: Global,
    framer: &mut Framer,
    bytes: &[u8],
    cut: usize,
) -> Result<String, FrameFault> {
    let (front, rest) = split(bytes, cut);
    let mut text = String::new(alloc);
    let mut found = Vec::new(alloc);
    framer.feed_owned(&mut Vec::from_slice(alloc, front)?)?;
    take(framer, &mut text, &mut found)?;
    framer.feed_owned(&mut Vec::from_slice(alloc, rest)?)?;
    take(framer, &mut text, &mut found)?;
    write!(text, "{}", found.as_slice() == bytes)?;
    Ok(text)
}

fn split(bytes: &[u8], cut: usize) -> (&[u8], &[u8]) {
    bytes
        .split_at_checked(cut)
        .unwrap_or((bytes, b"".as_slice()))
}

/// Takes the messages that are there, of which there are few.
fn take(framer: &mut Framer, text: &mut String, found: &mut Vec<u8>) -> Result<(), FrameFault> {
    for _message in 0..4u8 {
        let Some(message) = framer.next()? else {
            return Ok(());
        };
        write!(text, "{} ", message.as_bytes().len())?;
        found.extend_from_slice(message.as_bytes())?;
    }
    Ok(())
}

fn pieces(alloc: Global, framer: &mut Framer, bytes: &[u8]) -> Result<String, FrameFault> {
    for (place, byte) in bytes.iter().enumerate() {
        if framer.next()?.is_some() {
            return Ok(format!(in alloc; "at {place}")?);
        }
        framer.feed(&[*byte])?;
    }
    let found = framer.next()?;
    let is_same = matches!(&found, Some(message) if message.as_bytes() == bytes);
    Ok(format!(in alloc; "{is_same}")?)
}

/// What a framer answers to bytes that come in two pieces: whether there is a message, or the
/// fault.
fn cut_at(alloc: Global, bytes: &[u8], cut: usize) -> Result<Result<bool, FrameFault>, AllocError> {
    let (front, rest) = split(bytes, cut);
    let mut framer = Framer::new(alloc);
    framer.feed(front)?;
    match framer.next() {
        Ok(None) => {}
        Ok(Some(_)) => return Ok(Ok(true)),
        Err(fault) => return Ok(Err(fault)),
    }
    framer.feed(rest)?;
    Ok(framer.next().map(|found| found.is_some()))
}

/// Where the answer is another than that to the bytes in one piece.
fn other_cut(alloc: Global, bytes: &[u8]) -> Result<Option<usize>, AllocError> {
    let whole = cut_at(alloc, bytes, 0)?;
    for cut in 0..bytes.len() {
        if cut_at(alloc, bytes, cut)? != whole {
            return Ok(Some(cut));
        }
    }
    Ok(None)
}

fn cuts(alloc: Global, bytes: &[u8]) -> Result<String, FrameFault> {
    let mut text = format!(in alloc;
        "{:?} {:?}",
        cut_at(alloc, bytes, 0)?,
        other_cut(alloc, bytes)?
    )?;
    for place in 0..bytes.len() {
        for other in [0, 255] {
            if let Some(cut) = other_cut(alloc, &changed(alloc, bytes, place, other)?)? {
                write!(text, ", {other} at {place} cut at {cut}")?;
            }
        }
    }
    Ok(text)
}

/// Bytes of a length: those of a column, then one again and again, then those of the last column.
fn filled(alloc: Global, row: &Row<'_>) -> Result<Vec<u8>, AllocError> {
    let mut bytes = row.bytes(alloc, 2)?;
    let between = row.bytes(alloc, 3)?;
    let behind = row.bytes(alloc, 4)?;
    let end = (row.number(1) as usize).saturating_sub(behind.len());
    bytes.resize(end, between.first().copied().unwrap_or(0))?;
    bytes.extend_from_slice(&behind)?;
    Ok(bytes)
}

fn long(alloc: Global, framer: &mut Framer, row: &Row<'_>) -> Result<String, FrameFault> {
    let bytes = filled(alloc, row)?;
    let told = whole(alloc, framer, &bytes);
    drop(bytes);
    told
}

/// What comes of the bytes in large pieces.
fn whole(alloc: Global, framer: &mut Framer, bytes: &[u8]) -> Result<String, FrameFault> {
    for piece in bytes.chunks(65_536) {
        if framer.next()?.is_some() {
            return Ok(String::from_str(alloc, "too early")?);
        }
        framer.feed(piece)?;
    }
    match framer.next()? {
        Some(message) => {
            let told = lengths(alloc, &message, bytes);
            drop(message);
            Ok(told?)
        }
        None => Ok(String::from_str(alloc, "no message")?),
    }
}

fn lengths(alloc: Global, message: &Message, bytes: &[u8]) -> Result<String, AllocError> {
    let is_same = message.as_bytes() == bytes;
    let relayed = relayed(alloc, message)?;
    format!(in alloc;
        "{} {} {is_same} {relayed}",
        message.body().len(),
        bytes.len()
    )
}

fn relayed(alloc: Global, message: &Message) -> Result<String, AllocError> {
    let mut output = Vec::new(alloc);
    match with_sender(message, &UniqueName::of(1), &mut output) {
        Ok(()) => format!(in alloc; "{}", output.len()),
        Err(fault) => format!(in alloc; "{}: {fault}", fault.code()),
    }
}
