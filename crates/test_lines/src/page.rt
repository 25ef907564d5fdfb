// A text that is being written.

use itoa::{Buffer, Integer};
use std::alloc::Global;
use wp_base::{Line, NoMemory};

/// A text that grows. That memory ran out is told at its end alone.
#[derive(Drop)]
pub struct Page {
    text: Vec<u8>,
    lacks_memory: bool,
}

impl Page {
    pub fn new(alloc: Global) -> Page {
        Page {
            text: Vec::new(alloc),
            lacks_memory: false,
        }
    }

    pub fn put(&mut self, text: &str) {
        self.put_bytes(text.as_bytes());
    }

    pub fn put_bytes(&mut self, bytes: &[u8]) {
        if self.text.extend_from_slice(bytes).is_err() {
            self.lacks_memory = true;
        }
    }

    /// These bytes, where the end of a line is "¶".
    pub fn put_in_line(&mut self, bytes: &[u8]) {
        for byte in bytes {
            match *byte {
                b'\n' => self.put("¶"),
                other => self.put_bytes(&[other]),
            }
        }
    }

    pub fn put_number<I: Integer>(&mut self, number: I) {
        let mut buffer = Buffer::new();
        self.put(buffer.format(number));
    }

    /// A line, where it isn't the first.
    pub fn put_line(&mut self, line: Line) {
        if line != 1 {
            self.put("@");
            self.put_number(line);
        }
    }

    /// A name behind a space.
    pub fn put_name(&mut self, name: &[u8]) {
        self.put(" ");
        self.put_bytes(name);
    }

    /// A tree without parts, behind a space.
    pub fn put_leaf(&mut self, name: &[u8], line: Line) {
        self.put_name(name);
        self.put_line(line);
    }

    /// What opens a tree behind a space: its head and its line.
    pub fn open(&mut self, head: &str, line: Line) {
        self.put(" (");
        self.put(head);
        self.put_line(line);
    }

    /// What opens a clause: its word, its line and its place.
    pub fn open_clause(&mut self, head: &str, line: Line, place: usize) {
        self.open(head, line);
        self.put("#");
        self.put_number(place);
    }

    pub fn close(&mut self) {
        self.put(")");
    }

    pub fn lack_memory(&mut self) {
        self.lacks_memory = true;
    }

    /// What was written, where memory sufficed.
    pub fn into_text(self) -> Result<Vec<u8>, NoMemory> {
        let Page { text, lacks_memory } = self;
        if lacks_memory {
            return Err(NoMemory);
        }
        Ok(text)
    }
}
