//! One document read, or written, many times over, for those who measure how fast that is.

use bson_core::{Doc, decode, encode};
use std::alloc::{AllocError, Global};

/// The limit of a document that is measured.
const LIMIT: u32 = 16_777_216;

/// How often the document of these bytes was read.
pub fn read(alloc: Global, bytes: &[u8], times: u32) -> u32 {
    let mut done = 0_u32;
    for _ in 0..times {
        if decode(alloc, bytes, LIMIT).is_ok() {
            done = done.saturating_add(1);
        }
    }
    done
}

/// How often the document was written.
pub fn write(alloc: Global, doc: &Doc, times: u32) -> u32 {
    let mut done = 0_u32;
    for _ in 0..times {
        let mut out = Vec::new(alloc);
        if encode(alloc, doc, &mut out).is_ok() {
            done = done.saturating_add(1);
        }
    }
    done
}

/// Does it as often as the words say, and tells how often it was done; `call` is `read` or `write`.
pub fn measured(
    alloc: Global,
    call: &str,
    times: &str,
    digits: &str,
) -> Result<String, AllocError> {
    let times = times.parse::<u32>().unwrap_or(0);
    let Ok(bytes) = hex::decode(alloc, digits.trim_ascii_end()) else {
        return String::from_str(alloc, "no digits");
    };
    let done = match decode(alloc, bytes.as_slice(), LIMIT) {
        Ok(doc) if call == "write" => write(alloc, &doc, times),
        Ok(_) => read(alloc, bytes.as_slice(), times),
        Err(_) => return String::from_str(alloc, "no document"),
    };
    format!(in alloc; "{call}: {done} times {} bytes", bytes.as_slice().len())
}
