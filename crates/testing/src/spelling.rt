//! Bytes that a part of a line spells, so that a case of a test is a line of data.

use std::alloc::{AllocError, Global};
use thiserror::Error;

/// Why a part of a line spells no bytes.
#[derive(Clone, Copy, Debug, PartialEq, Eq, Error)]
pub enum SpellingError {
    /// A backslash has no two hexadecimal digits after it.
    #[error("no two hexadecimal digits after a backslash")]
    Malformed,
    /// There is no memory for the bytes.
    #[error("no memory")]
    Memory,
}

impl From<AllocError> for SpellingError {
    fn from(_error: AllocError) -> SpellingError {
        SpellingError::Memory
    }
}

/// Returns the bytes that a part of a line spells: a semicolon is a line end, and a backslash with
/// two hexadecimal digits is the byte that they write.
///
/// # Errors
///
/// - [`SpellingError::Malformed`] if a backslash has no such digits after it.
/// - [`SpellingError::Memory`] if there is no memory for the bytes.
///
/// # Example
///
/// ```
/// assert_eq!(rt; spelled(rt.alloc(), "new 2;len\\0D;")?, b"new 2\nlen\r\n");
/// ```
pub fn spelled(alloc: Global, part: &str) -> Result<Vec<u8>, SpellingError> {
    let mut bytes = Vec::new(alloc);
    for (index, piece) in part.split('\\').enumerate() {
        let piece = piece.as_bytes();
        let plain = if index == 0 {
            piece
        } else {
            push_coded(&mut bytes, piece)?
        };
        push_lines(&mut bytes, plain)?;
    }
    Ok(bytes)
}

/// Adds the byte whose two digits a piece begins with, and returns what follows them.
fn push_coded<'a>(bytes: &mut Vec<u8>, piece: &'a [u8]) -> Result<&'a [u8], SpellingError> {
    let [high, low, plain @ ..] = piece else {
        return Err(SpellingError::Malformed);
    };
    let (Some(high), Some(low)) = (digit(*high), digit(*low)) else {
        return Err(SpellingError::Malformed);
    };
    bytes.extend_from_slice(&[high.wrapping_mul(16).wrapping_add(low)])?;
    Ok(plain)
}

/// Returns the value of a hexadecimal digit.
fn digit(byte: u8) -> Option<u8> {
    match byte {
        b'0'..=b'9' => Some(byte - b'0'),
        b'A'..=b'F' => Some(byte - b'A' + 10),
        _ => None,
    }
}

/// Adds plain bytes, with line ends in place of semicolons.
fn push_lines(bytes: &mut Vec<u8>, plain: &[u8]) -> Result<(), AllocError> {
    for byte in plain {
        bytes.extend_from_slice(&[if *byte == b';' { b'\n' } else { *byte }])?;
    }
    Ok(())
}

/// Returns bytes if a part of a line spells others.
///
/// # Errors
///
/// An error if the part spells nothing, or if there is no memory for its bytes.
///
/// # Example
///
/// ```
/// let gave = Vec::from_slice(rt.alloc(), b"ok\nnone\n")?;
/// assert!(rt; other_than(rt.alloc(), "ok;none;", gave)?.is_none());
/// ```
pub fn other_than(
    alloc: Global,
    wanted: &str,
    bytes: Vec<u8>,
) -> Result<Option<Vec<u8>>, SpellingError> {
    let wanted = spelled(alloc, wanted)?;
    Ok(if bytes == wanted { None } else { Some(bytes) })
}

/// Returns a part of a line that spells the bytes.
///
/// # Errors
///
/// An error if there is no memory for it.
///
/// # Example
///
/// ```
/// assert_eq!(rt; spelling_of(rt.alloc(), b"ok\nnone\n\xFF")?.as_str(), "ok;none;\\FF");
/// ```
pub fn spelling_of(alloc: Global, bytes: &[u8]) -> Result<String, AllocError> {
    let mut part = String::new(alloc);
    for byte in bytes {
        push_spelled(alloc, &mut part, *byte)?;
    }
    Ok(part)
}

/// Adds the spelling of a byte.
fn push_spelled(alloc: Global, part: &mut String, byte: u8) -> Result<(), AllocError> {
    match byte {
        b'\n' => part.push_str(";"),
        b' '..=b'~' if byte != b';' && byte != b'|' && byte != b'\\' => {
            part.push_str(format!(in alloc; "{}", char::from(byte))?.as_str())
        }
        _ => part.push_str(format!(in alloc; "\\{byte:02X}")?.as_str()),
    }
}
