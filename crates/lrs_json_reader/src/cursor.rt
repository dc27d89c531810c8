ghost use Rattle.std.specs.Prelude.{◌≡◌, ℕ, List, [], ◌∷◌, ◌++◌, ◌<◌, ◌≤◌, ◌↔◌, take, drop, length, IsTrue, IsUtf8, IfOk, OnOk, MatchOption, Some};
ghost use Rattle.std.specs.Bool.{MatchBool};
ghost use Rattle.std.specs.List.{prefix_len};
ghost use Rattle.lrs_decimal.specs.Numbers.{IsNumber, Ends};
ghost use Rattle.lrs_json_reader.specs.Grammar.{is_space, Quoted};
ghost use Rattle.lrs_json_reader.specs.Strings.{piece_at, piece_text};
ghost use Rattle.lrs_json_reader.specs.declared.strings.Piece.{Piece as SpecPiece};
ghost use Rattle.lrs_json_reader.specs.Steps.{Finds, StepsToNext, StepsOverCommaOr, Closes, IsPlain, Within};

use crate::strings::{Piece, next_piece};
use lrs_decimal::number_len;
use lrs_json::appending::plain_len;
use lrs_json::{Memory, Text};
use std::alloc::{AllocError, AllocFailed, Global};
use std::marker::Model;
use std::str;

/// What stops the reading of a value.
#[derive(Clone, Copy, Debug, PartialEq)]
pub enum Stop {
    Memory,
    Bad,
}

impl From<Memory> for Stop {
    ghost use Rattle.std.specs.Prelude.{◌≡◌};
    ghost use Rattle.lrs_json_reader.specs.declared.cursor.Stop.TheVariants as stop;

    ghost from_gives = { λ _ e. e ≡ stop.Memory };

    fn from(_: Memory) -> Stop {
        Stop::Memory
    }
}

impl<T: Drop> From<AllocFailed<T>> for Stop {
    ghost use Rattle.std.specs.Prelude.{◌≡◌};
    ghost use Rattle.lrs_json_reader.specs.declared.cursor.Stop.TheVariants as stop;

    ghost from_gives = { λ _ e. e ≡ stop.Memory };

    fn from(_: AllocFailed<T>) -> Stop {
        Stop::Memory
    }
}

impl From<AllocError> for Stop {
    ghost use Rattle.std.specs.Prelude.{◌≡◌};
    ghost use Rattle.lrs_json_reader.specs.declared.cursor.Stop.TheVariants as stop;

    ghost from_gives = { λ _ e. e ≡ stop.Memory };

    fn from(_: AllocError) -> Stop {
        Stop::Memory
    }
}

/// The bytes that are left to read. Contracts see them as a list. After an `Err` it may stand anywhere.
#[derive(Drop)]
pub struct Cursor<'a> {
    left: &'a [u8],
    alloc: Global,
}

impl<'a> Model for Cursor<'a> {
    ghost use Rattle.std.specs.Prelude.{List, ℕ};

    ghost Value = { List ℕ };

    ghost view = { λ c. c.left.now };
}

impl<'a> Cursor<'a> {
    /// Before all of these bytes. The texts that it reads are copied with that allocator.
    pub fn new(alloc: Global, bytes: &'a [u8]) -> Cursor<'a>
        ensures { result ≡ bytes.now }
    {
        Cursor { left: bytes, alloc }
    }

    /// Those that are left.
    pub fn bytes(&self) -> &'a [u8]
        ensures { result.now ≡ self.now }
    {
        self.left
    }
}

impl Cursor<'_> {
    /// The one that it was made with.
    pub fn allocator(&self) -> Global {
        self.alloc
    }

    /// How many bytes are left.
    pub fn len(&self) -> usize
        ensures { result ≡ length self.now }
    {
        self.left.len()
    }

    /// Whether none is left.
    pub fn is_empty(&self) -> bool
        ensures { IsTrue result ↔ (self.now ≡ []) }
    {
        self.left.is_empty()
    }

    /// The byte that comes next.
    pub fn first(&self) -> Option<u8>
        ensures { MatchOption result (self.now ≡ []) (λ b. (rest : List ℕ) × (self.now ≡ b ∷ rest)) }
    {
        self.left.first().copied()
    }

    /// Steps over the bytes at the beginning.
    pub fn advance(&mut self, by: usize)
        requires { by ≤ length self.old }
        ensures { self.new ≡ drop by self.old }
    {
        self.left = &self.left[by..];
    }

    /// Steps over white space (RFC 8259, section 2).
    pub fn skip_spaces(&mut self)
        ensures { self.new ≡ drop (prefix_len is_space self.old) self.old }
    {
        self.advance(spaces(self.left));
    }

    /// Steps over the word, if it comes next.
    pub fn take(&mut self, word: &[u8]) -> bool
        ensures { MatchBool result (self.old ≡ word.now ++ self.new)
            ((self.new ≡ self.old) × ((rest : List ℕ) → self.old ≡ word.now ++ rest → ⊥)) }
    {
        let comes = self.left.starts_with(word);
        if comes {
            self.advance(word.len());
        }
        comes
    }

    /// Steps over the word, which must come next.
    pub fn word(&mut self, word: &[u8]) -> Result<(), Stop>
        ensures found { OnOk result (self.old ≡ word.now ++ self.new) }
        ensures all { (rest : List ℕ) → self.old ≡ word.now ++ rest → Finds result (λ _. self.new ≡ rest) }
    {
        if self.take(word) {
            Ok(())
        } else {
            Err(Stop::Bad)
        }
    }

    /// Steps to the next item, or over the closing bracket.
    pub fn goes_on(&mut self, later: bool, close: u8) -> Result<bool, Stop>
        requires { Closes close }
        ensures { StepsToNext later close self.old result self.new }
    {
        self.skip_spaces();
        if self.take(&[close]) {
            return Ok(false);
        }
        if later {
            self.word(b",")?;
            self.skip_spaces();
        }
        Ok(true)
    }

    /// Steps over the comma before another item, or over the closing bracket. Tells whether it was the comma.
    pub fn comma_or(&mut self, close: u8) -> Result<bool, Stop>
        ensures steps { StepsOverCommaOr close self.old result self.new }
        ensures shorter { OnOk result (length self.new < length self.old) }
    {
        if self.take(b",") {
            return Ok(true);
        }
        self.word(&[close])?;
        Ok(false)
    }
}

impl Cursor<'_> {
    // The next n bytes as a text.
    fn text(&mut self, n: usize) -> Result<Text, Stop>
        requires { n ≤ length self.old }
        ensures found { IfOk result (λ t. (t ≡ take n self.old) × (self.new ≡ drop n self.old) × IsUtf8 t) }
        ensures all { IsUtf8 (take n self.old) → Finds result (λ t. IsUtf8 t) }
    {
        let left = self.left;
        let Ok(text) = str::from_utf8(&left[..n]) else {
            return Err(Stop::Bad);
        };
        let text = Text::of(self.alloc, text)?;
        self.advance(n);
        Ok(text)
    }

    fn number_len(&self) -> Option<usize>
        ensures found { MatchOption result (Unit {0}) (λ n. (n ≤ length self.now) × IsNumber (take n self.now)) }
        ensures all { (s rest : List ℕ) → self.now ≡ s ++ rest → IsNumber s → Ends rest → result ≡ Some (length s) }
    {
        number_len(self.left)
    }

    /// Reads a number (RFC 8259, section 6) as it is spelled.
    pub fn number(&mut self) -> Result<Text, Stop>
        ensures found { IfOk result (λ t. (self.old ≡ t ++ self.new) × IsNumber t) }
        ensures all { (s rest : List ℕ) → self.old ≡ s ++ rest → IsNumber s → Ends rest
            → Finds result (λ t. (t ≡ s) × (self.new ≡ rest)) }
    {
        let Some(n) = self.number_len() else {
            return Err(Stop::Bad);
        };
        self.text(n)
    }

    /// Reads a string (RFC 8259, section 7): the text that it stands for.
    pub fn quoted(&mut self) -> Result<Text, Stop>
        ensures found { IfOk result (λ t. Quoted t self.old self.new) }
        ensures all { (text rest : List ℕ) → Quoted text self.old rest
            → Finds result (λ t. (t ≡ text) × (self.new ≡ rest)) }
        ensures shorter { OnOk result (length self.new < length self.old) }
    {
        self.word(b"\"")?;
        match self.plain_len() {
            Some(n) => self.plain(n),
            None => self.pieces(),
        }
    }

    // How many bytes stand before the closing quote, if each stands for itself.
    fn plain_len(&self) -> Option<usize>
        ensures { MatchOption result (Unit {0}) (λ n. IsPlain n self.now) }
    {
        let n = plain_len(self.left);
        if self.left[n..].starts_with(b"\"") {
            Some(n)
        } else {
            None
        }
    }

    // Such bytes, and the closing quote: most strings are read so, and copied once.
    fn plain(&mut self, n: usize) -> Result<Text, Stop>
        requires { IsPlain n self.old }
        ensures found { IfOk result (λ t. Within t self.old self.new) }
        ensures all { (text rest : List ℕ) → Within text self.old rest
            → Finds result (λ t. (t ≡ text) × (self.new ≡ rest)) }
        ensures shorter { OnOk result (length self.new ≤ length self.old) }
    {
        let text = self.text(n)?;
        self.advance(1);
        Ok(text)
    }

    // Bytes and escapes, and the closing quote.
    fn pieces(&mut self) -> Result<Text, Stop>
        ensures found { IfOk result (λ t. Within t self.old self.new) }
        ensures all { (text rest : List ℕ) → Within text self.old rest
            → Finds result (λ t. (t ≡ text) × (self.new ≡ rest)) }
        ensures shorter { OnOk result (length self.new ≤ length self.old) }
    {
        let mut bytes = Vec::new(self.alloc);
        while !self.take(b"\"") {
            self.piece(&mut bytes)?;
        }
        let Ok(text) = str::from_utf8(&bytes) else {
            return Err(Stop::Bad);
        };
        Ok(Text::of(self.alloc, text)?)
    }

    // Appends what the next byte or escape stands for.
    fn piece(&mut self, into: &mut Vec<u8>) -> Result<(), Stop>
        ensures found { OnOk result ((p : SpecPiece) × (piece_at self.old ≡ Some (p, self.new))
            × (into.new.items ≡ into.old.items ++ piece_text p)) }
        ensures all { (p : SpecPiece) (rest : List ℕ) → piece_at self.old ≡ Some (p, rest)
            → Finds result (λ _. Unit {0}) }
        ensures shorter { OnOk result (length self.new < length self.old) }
    {
        let Some((piece, rest)) = next_piece(self.left) else {
            return Err(Stop::Bad);
        };
        self.left = rest;
        match piece {
            Piece::Byte(byte) => into.push(byte)?,
            Piece::Char(c) => {
                let mut buffer = [0; 4];
                into.extend_from_slice(c.encode_utf8(&mut buffer).as_bytes())?;
            }
        }
        Ok(())
    }
}

fn spaces(bytes: &[u8]) -> usize
    ensures bound { result ≤ length bytes.now }
    ensures value { result ≡ prefix_len is_space bytes.now }
{
    for (i, byte) in bytes.iter().enumerate() {
        if !matches!(*byte, b' ' | b'\t' | b'\n' | b'\r') {
            return i;
        }
    }
    bytes.len()
}
