//! Texts by name in memory, of which at most one is open.
ghost use Rattle.std.specs.Prelude.{◌≡◌, ◌<◌, ◌≤◌, ◌++◌, [], map, min, length, take, drop, vec_len, IfSome, IsSome, is_some, unwrap_or, position, string_bytes, if◌then◌else◌};
ghost use Rattle.std.specs.Option.{option_map};
ghost use Rattle.std.specs.Str.{bytes_eq};
ghost use Rattle.tower_io.specs.Readings.{text_at as text_at_lem};

use std::marker::Model;

/// A copy of the name with which a text was begun, the index of its file, and how much of it was read.
#[derive(Drop)]
pub(crate) struct Reading {
    name: String,
    file: Option<usize>,
    at: usize,
}

/// Files by name, and the text that is open.
#[derive(Drop)]
pub(crate) struct Texts {
    files: Vec<(String, Vec<u8>)>,
    reading: Option<Reading>,
}

impl Model for Texts {
    ghost use Rattle.tower_io.specs.Texts.{Library};

    ghost Value = { Library };

    ghost use Rattle.tower_io.specs.Readings.{library_of, IsReading};

    ghost view = { λ a. library_of a.files.items a.reading };

    ghost invariant = { λ a. IsReading a.files.items a.reading };
}

impl Texts {
    ghost use Rattle.tower_io.specs.Texts.{shut, begun, text_of, sure_text_of};
    ghost use Rattle.tower_io.specs.Readings.{entry_of};

    pub(crate) fn new(files: Vec<(String, Vec<u8>)>) -> Texts
        ensures { result ≡ shut (map entry_of files.items) }
    {
        Texts {
            files,
            reading: None,
        }
    }

    /// Gives up the open text, and gives back its name.
    pub(crate) fn close(&mut self) -> Option<String>
        ensures shut { self.new ≡ shut self.old.entries }
        ensures name { option_map string_bytes result ≡ self.old.opened }
    {
        self.reading.take().map(|reading| reading.name)
    }

    /// Opens the first text with the name, or the empty text where there is none, and says whether
    /// there is one.
    pub(crate) fn open(&mut self, name: String) -> bool
        ensures begun { let bytes = string_bytes name in
            self.new ≡ begun self.old.entries bytes (sure_text_of self.old.entries bytes) }
        ensures is_there { result ≡ is_some (text_of self.old.entries (string_bytes name)) }
    {
        let file = index_of(&self.files, name.as_str());
        self.reading = Some(Reading { name, file, at: 0 });
        file.is_some()
    }

    /// Copies what is left of the open text into the front of `room`, at most `most` bytes, and
    /// passes them over.
    pub(crate) fn take(&mut self, room: &mut [u8], most: usize) -> usize
        requires { IsSome self.old.opened }
        ensures count { result ≡ min (min (length room.old) most) (length self.old.left) }
        ensures bytes { room.new ≡ take result self.old.left ++ drop result room.old }
        ensures rest { self.new ≡ record self.old { left = drop result self.old.left } }
    {
        let Some(reading) = &mut self.reading else {
            unreachable!()
        };
        let rest = &text_at(&self.files, reading.file)[reading.at..];
        let n = room.len().min(most).min(rest.len());
        room[..n].copy_from_slice(&rest[..n]);
        reading.at += n;
        n
    }
}

// The index of the first file with the name.
fn index_of(files: &[(String, Vec<u8>)], name: &str) -> Option<usize>
    ensures { result ≡ position (λ file. bytes_eq (string_bytes file.0) name.now) files.now }
{
    files.iter().position(|file| file.0.as_str() == name)
}

// The text of the file with this index, or the empty text where there is none.
fn text_at(files: &[(String, Vec<u8>)], file: Option<usize>) -> &[u8]
    requires { IfSome file (λ i. i < length files.now) }
    ensures { result.now ≡ text_at_lem files.now file }
{
    match file {
        None => &[],
        Some(i) => files[i].1.as_slice(),
    }
}
