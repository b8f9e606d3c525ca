//! A text that is written piece by piece, with one way out.

use std::alloc::{AllocError, Allocator};
use std::fmt;
use std::fmt::Write;

/// A text. If a request for memory is refused, what is added from then on is left out, and
/// [`Page::finish`] reports it.
///
/// # Example
///
/// ```
/// let mut page = Page::new(rt.alloc());
/// page.add_number("capacity ", 100);
/// page.add_decimals(", hits ", 0.25, 2);
/// assert_eq!(rt; page.finish()?, "capacity 100, hits 0.25");
/// ```
#[derive(Drop)]
pub struct Page<A: Allocator> {
    text: String<A>,
    // False once a request for memory was refused.
    is_whole: bool,
}

impl<A: Allocator> Page<A> {
    /// Returns an empty text, without allocating memory.
    pub fn new(alloc: A) -> Page<A> {
        Page {
            text: String::new(alloc),
            is_whole: true,
        }
    }

    /// Adds a text.
    pub fn add(&mut self, text: &str) {
        if self.is_whole {
            self.is_whole = self.text.push_str(text).is_ok();
        }
    }

    /// Adds a character.
    pub fn add_char(&mut self, letter: char) {
        if self.is_whole {
            self.is_whole = self.text.push(letter).is_ok();
        }
    }

    /// Adds what a value displays.
    pub fn add_shown<D: fmt::Display>(&mut self, value: &D) {
        if self.is_whole {
            self.is_whole = write!(self.text, "{value}").is_ok();
        }
    }

    /// Adds the escape of a character in JSON.
    pub fn add_escape(&mut self, letter: u32) {
        if self.is_whole {
            self.is_whole = write!(self.text, "\\u{letter:04x}").is_ok();
        }
    }

    /// Adds a text, and a number after it.
    pub fn add_number(&mut self, before: &str, number: usize) {
        self.add(before);
        self.add_shown(&number);
    }

    /// Adds a text, and a number after it with some decimals.
    pub fn add_decimals(&mut self, before: &str, number: f64, decimals: usize) {
        self.add(before);
        if self.is_whole {
            self.is_whole = write!(self.text, "{number:.decimals$}").is_ok();
        }
    }

    /// Adds a text at the right of a column of nine.
    pub fn add_heading(&mut self, text: &str) {
        if self.is_whole {
            self.is_whole = write!(self.text, "{text:>9}").is_ok();
        }
    }

    /// Adds a number with two decimals at the right of a column of nine.
    pub fn add_cell(&mut self, percent: f64) {
        if self.is_whole {
            self.is_whole = write!(self.text, "{percent:>9.2}").is_ok();
        }
    }

    /// Adds a number at the right of a column.
    pub fn add_right(&mut self, number: usize, width: usize) {
        if self.is_whole {
            self.is_whole = write!(self.text, "{number:>width$}").is_ok();
        }
    }

    /// Returns the number of its bytes.
    pub fn len(&self) -> usize {
        self.text.len()
    }

    /// Returns the text.
    ///
    /// # Errors
    ///
    /// `AllocError` if a request for memory was refused.
    pub fn finish(self) -> Result<String<A>, AllocError> {
        if self.is_whole {
            return Ok(self.text);
        }
        Err(AllocError)
    }
}
