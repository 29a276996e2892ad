//! A buffer counts the bytes that are put on it, and keeps them where it has room for all. The text is put on two
//! sheets, first one without room and then one of the right length: one printer, no growing list, and no error in the
//! middle of a text.

ghost use Rattle.std.specs.Prelude.{◌≡◌, ◌≤◌, ◌<◌, ◌+◌, ◌-◌, ◌^◌, ◌++◌, [], length, replicate, decimal, vec_len};
ghost use Rattle.std.specs.Prelude.{vec_capacity};
ghost use Rattle.bb_fill.specs.Inside.TextBuffers.{Adds};

use itoa::Buffer;
use std::marker::Model;

/// `room` bytes were reserved; `count` is what was put on, kept or not.
#[derive(Debug, Drop)]
pub(crate) struct TextBuffer {
    room: u32,
    count: u64,
    text: Vec<u8>,
}

impl Model for TextBuffer {
    ghost use Rattle.std.specs.Prelude.{◌≤◌, vec_len, vec_capacity};
    ghost use Rattle.bb_fill.specs.Inside.TextBuffers.{Writing};

    ghost Value = { Writing };

    ghost view = { λ s. record { room = s.room; count = s.count; text = s.text.items } };

    ghost invariant = { λ s. (s.room ≤ vec_capacity s.text) × (vec_len s.text ≤ s.count) };
}

impl TextBuffer {
    /// With `room` 0 it only counts.
    pub fn new(text: Vec<u8>, room: u32) -> TextBuffer
        requires empty { text.items ≡ [] }
        requires room { room ≤ vec_capacity text }
        ensures text_buffer { result ≡ record { room = room; count = 0; text = [] } }
    {
        TextBuffer {
            room,
            count: 0,
            text,
        }
    }

    /// In bytes, up to 2^64 - 1.
    pub fn count(&self) -> u64
        ensures count { result ≡ self.now.count }
    {
        self.count
    }

    /// The whole text where the room was enough, else only a part.
    pub fn into_text(self) -> Vec<u8>
        ensures text { result.items ≡ self.text }
    {
        self.text
    }

    pub fn put(&mut self, bytes: &[u8])
        ensures adds { Adds self.old self.new bytes.now }
    {
        self.count = self.count.saturating_add(bytes.len() as u64);
        if self.count <= self.room as u64 {
            append(&mut self.text, bytes);
        }
    }

    /// Without a buffer, since a stem may be as long as a name.
    pub fn put_stem(&mut self, stem: usize)
        ensures adds { Adds self.old self.new (replicate stem 95) }
    {
        self.count = self.count.saturating_add(stem as u64);
        if self.count <= self.room as u64 {
            append_stem(&mut self.text, stem);
        }
    }

    pub fn put_number(&mut self, number: u32)
        ensures adds { Adds self.old self.new (decimal number) }
    {
        let mut buffer = Buffer::new();
        self.put(buffer.format(number).as_bytes());
    }
}

// Cannot fail, since the room was reserved.
fn append(text: &mut Vec<u8>, bytes: &[u8])
    requires room { vec_len text.old + length bytes.now ≤ vec_capacity text.old }
    ensures text { text.new.items ≡ text.old.items ++ bytes.now }
    ensures capacity { vec_capacity text.old ≤ vec_capacity text.new }
{
    text.extend_from_slice(bytes).unwrap();
}

// Cannot fail, since the room was reserved.
fn append_stem(text: &mut Vec<u8>, stem: usize)
    requires room { vec_len text.old + stem ≤ vec_capacity text.old }
    ensures text { text.new.items ≡ text.old.items ++ replicate stem 95 }
    ensures capacity { vec_capacity text.old ≤ vec_capacity text.new }
{
    for _ in 0..stem {
        text.push(b'_').unwrap();
    }
}
