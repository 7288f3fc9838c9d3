//! What is read before the bus listens.

use crate::serve_fault::{Device, ServeFault, device_fault};
use sasl::{Cookie, KeyringFault, read_keyring};
use std::alloc::Global;
use std::fs;
use std::fs::File;
use std::io::Read;
use std::rt::Files;

/// The cookie of a keyring's bytes.
fn cookie_of(alloc: Global, bytes: &[u8]) -> Result<Cookie, ServeFault> {
    match read_keyring(alloc, bytes) {
        Ok(cookie) => Ok(cookie),
        Err(KeyringFault::NoMemory) => Err(ServeFault::Memory),
        Err(fault) => Err(ServeFault::Keyring(fault.code())),
    }
}

/// The cookie of the keyring in this file: that of its last line.
///
/// # Errors
///
/// `Device(Input)` where the file can't be read, `Keyring` where one of its lines isn't that of a
/// cookie or it has none; `Memory` where there is no memory for what is read.
pub fn read_cookie<R: Files + AllocGlobal>(rt: &R, path: &str) -> Result<Cookie, ServeFault> {
    match fs::read(rt, path) {
        Ok(bytes) => cookie_of(rt.alloc(), bytes.as_slice()),
        Err(error) => Err(device_fault(error, Device::Input)),
    }
}

/// Opens the system's source of random bytes.
///
/// # Errors
///
/// `Device(Random)` where there is none, `Memory` where the system has no memory to open it.
pub fn open_random<R: Files>(rt: &R) -> Result<R::File, ServeFault> {
    File::open(rt, "/dev/urandom").map_err(|error| device_fault(error, Device::Random))
}

/// 16 random bytes of this source.
///
/// # Errors
///
/// `Device(Random)` where it gives none, `Memory` where it does so for want of memory.
pub fn random_bytes<F: Read>(source: &mut F) -> Result<[u8; 16], ServeFault> {
    let mut bytes = [0; 16];
    match source.read_exact(&mut bytes) {
        Ok(()) => Ok(bytes),
        Err(error) => Err(device_fault(error, Device::Random)),
    }
}
