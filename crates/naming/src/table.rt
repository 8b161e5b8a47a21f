// A text and the table of its names.
ghost use Rattle.std.specs.Prelude.{◌≡◌, Some, None, [], ◌∷◌, ◌++◌, ◌+◌, ◌<◌, ◌≤◌, List, length, get_or, MatchOption, false};
ghost use Rattle.abnf.specs.Meaning.{number_of, is_among_lem};
ghost use Rattle.scanner.specs.Parts.{part_of_lem};
ghost use Rattle.naming.specs.Named.{entered, Inside};

use crate::{BUCKETS, NAMES, parts};
use abnf::Edition;
use std::marker::Model;

// Where a name stands in the text, and the entry before it in its bucket. Entries are counted from 1 there, so that 0 is
// none.
#[derive(Clone, Copy, Drop)]
pub struct Entry {
    at: u16,
    end: u16,
    before: u16,
}

// A text, the edition that it is read by, and names of it, each once: their entries, and the last entry of each bucket.
// A clause sees the names as a list.
#[derive(Drop)]
pub struct NamedText<'a> {
    edition: Edition,
    text: &'a [u8],
    entries: [Entry; NAMES],
    buckets: [u16; BUCKETS],
    count: usize,
}

impl<'a> Model for NamedText<'a> {
    ghost use Rattle.naming.specs.Named.{Named};

    ghost Value = { Named };

    ghost use Rattle.naming.specs.Table.{Table, names_in};

    ghost view = { λ a. record { edition = a.edition; text = a.text.now; names = names_in a.text.now a.entries a.count } };

    ghost invariant = { λ a. Table a.text.now a.entries a.buckets a.count };
}

impl<'a> NamedText<'a> {
    // A text none of whose names is entered yet.
    pub fn new(edition: Edition, text: &'a [u8]) -> NamedText<'a>
        ensures none { result ≡ record { edition = edition; text = text.now; names = [] } }
    {
        NamedText {
            edition,
            text,
            entries: [Entry {
                at: 0,
                end: 0,
                before: 0,
            }; NAMES],
            buckets: [0; BUCKETS],
            count: 0,
        }
    }

    pub fn edition(&self) -> Edition
        ensures edition { result ≡ self.now.edition }
    {
        self.edition
    }

    pub fn text(&self) -> &'a [u8]
        ensures text { result.now ≡ self.now.text }
    {
        self.text
    }

    // How many names are entered.
    pub fn count(&self) -> usize
        ensures count { result ≡ length self.now.names }
        ensures few { result ≤ 5462 }
    {
        self.count
    }

    // The name of an entry.
    fn name(&self, i: usize) -> &'a [u8]
        requires entered { i < length self.now.names }
        ensures name { result.now ≡ get_or self.now.names i [] }
    {
        let entries = &self.entries;
        let entry = entries[i];
        &self.text[usize::from(entry.at)..usize::from(entry.end)]
    }

    // The number of a name that is entered.
    pub fn find(&self, name: &[u8]) -> Option<usize>
        ensures found { MatchOption result (is_among_lem self.now.names name.now ≡ false) (λ k.
            (k ≡ number_of self.now.names name.now) × (k < length self.now.names)) }
    {
        let mut k = usize::from(self.buckets[parts::hash(name)]);
        while let Some(i) = k.checked_sub(1) {
            if self.name(i).eq_ignore_ascii_case(name) {
                return Some(i);
            }
            k = usize::from(self.entries[i].before);
        }
        None
    }

    // The number of a name, that of all names where it is not entered.
    pub fn number(&self, name: &[u8]) -> usize
        ensures number { result ≡ number_of self.now.names name.now }
        ensures few { result ≤ 5462 }
    {
        self.find(name).unwrap_or(self.count)
    }

    // Adds a name that is not entered.
    fn add(&mut self, at: usize, end: usize)
        requires inside { Inside self.old.text at end }
        requires short { length self.old.text ≤ 16384 }
        requires room { length self.old.names < 5462 }
        requires new { is_among_lem self.old.names (part_of_lem self.old.text at end) ≡ false }
        ensures added { self.new ≡ record self.old { names = self.old.names ++ (part_of_lem self.old.text at end ∷ []) } }
    {
        let bucket = parts::hash(&self.text[at..end]);
        self.entries[self.count] = Entry {
            at: at as u16,
            end: end as u16,
            before: self.buckets[bucket],
        };
        self.count += 1;
        self.buckets[bucket] = self.count as u16;
    }

    // Enters the name between two offsets, unless it is entered.
    pub fn enter(&mut self, at: usize, end: usize)
        requires inside { Inside self.old.text at end }
        requires short { length self.old.text ≤ 16384 }
        requires room { length self.old.names < 5462 }
        ensures entered { self.new ≡ record self.old { names = entered self.old.names (part_of_lem self.old.text at end) } }
    {
        if self.find(&self.text[at..end]).is_none() {
            self.add(at, end);
        }
    }
}
