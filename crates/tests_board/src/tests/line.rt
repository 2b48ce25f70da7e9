//! Texts that are written part by part.

use std::alloc::Global;

/// A text, and whether memory for all its parts was there.
#[derive(Drop)]
pub(super) struct Line {
    pub(super) text: String,
    is_whole: bool,
}

impl Line {
    pub(super) fn new(alloc: Global) -> Line {
        Line {
            text: String::new(alloc),
            is_whole: true,
        }
    }

    pub(super) fn as_str(&self) -> &str {
        self.text.as_str()
    }

    /// The text, where memory for all of it was there.
    pub(super) fn into_text(self) -> Option<String> {
        let Line { text, is_whole } = self;
        if is_whole {
            return Some(text);
        }
        drop(text);
        None
    }

    pub(super) fn put(&mut self, text: &str) {
        if self.text.push_str(text).is_err() {
            self.is_whole = false;
        }
    }

    /// Puts a number after a text.
    pub(super) fn put_number(&mut self, before: &str, number: u64) {
        if write!(self.text, "{before}{number}").is_err() {
            self.is_whole = false;
        }
    }
    /// Puts a time in seconds after a text.
    pub(super) fn put_time(&mut self, before: &str, seconds: i64) {
        if write!(self.text, "{before}{seconds}").is_err() {
            self.is_whole = false;
        }
    }

    /// Puts a word after a text, with quotation marks.
    pub(super) fn put_word(&mut self, before: &str, word: &str) {
        if write!(self.text, "{before}\"{word}\"").is_err() {
            self.is_whole = false;
        }
    }
}
