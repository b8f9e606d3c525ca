//! What pictures contain, lines, labels and names: cases of a file, a line each.

use crate::player::words_of;
use crate::texts::{TRACE, written};
use std::alloc::Global;
use std::str::from_utf8;
use testing::SpellingError;

/// Returns a picture that doesn't contain what a line says, or contains what it says is absent.
pub(crate) fn other_picture(alloc: Global, line: &str) -> Result<Option<Vec<u8>>, SpellingError> {
    let (words, rest) = line.split_once('|').unwrap_or((line, ""));
    let (pieces, wanted) = rest.split_once('|').unwrap_or((rest, "no bar"));
    let picture = picture_of(alloc, words)?;
    Ok(if place_of(&picture, pieces) == wanted {
        None
    } else {
        Some(picture)
    })
}

/// Returns what is written for a trace, or nothing if that is refused.
fn picture_of(alloc: Global, words: &str) -> Result<Vec<u8>, SpellingError> {
    let words = words_of(alloc, words)?;
    match written(alloc, &words, TRACE) {
        Ok(picture) => Ok(picture),
        Err(_) => Ok(Vec::new(alloc)),
    }
}

/// Returns whether pieces are in a picture, one after another.
fn place_of(picture: &[u8], pieces: &str) -> &'static str {
    match from_utf8(picture) {
        Ok(text) if !text.starts_with("<svg") => "no picture",
        Ok(text) if are_in_order(text, pieces) => "there",
        Ok(_) => "absent",
        Err(_) => "no text",
    }
}

/// Returns true if each piece is in a text, and none begins before the one before it.
fn are_in_order(text: &str, pieces: &str) -> bool {
    let mut last = 0;
    for piece in pieces.split(';') {
        match text.find(piece) {
            Some(place) if last <= place => last = place,
            _ => return false,
        }
    }
    true
}
