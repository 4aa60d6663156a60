//! A reader of a page's bytes that keeps none of them but those of a character that isn't whole.

ghost use Rattle.std.specs.Prelude.{◌≡◌, ◌≢◌, ◌++◌, ◌∷◌, [], ◌+◌, ◌<◌, ◌≤◌, ◌^◌, ℕ, List, length, take, option_to_list, is_some, true, IfSome, OnOk, OnErr, Some, None, Ok, Err};
ghost use Rattle.page_text.specs.Characters.{chars, stop, begun, first_break, shown};
ghost use Rattle.page_text.specs.Model.{begin, Stands, after, due, answer};
ghost use Rattle.std.specs.Char.{len_utf8};
ghost use Rattle.std.specs.Str.{chars as text_chars};
ghost use Rattle.page_text.specs.Plain.{are_plain, marks_from};
ghost use Rattle.page_text.specs.Growth.{Gains, GainsFront};

use crate::fronts::{Front, front_of, plain_front};
use crate::{Mark, Run, TextFault};
use ix_base::is_allowed;
use std::alloc::AllocError;
use std::marker::Model;

/// Reads a page's bytes, in any pieces, to its characters.
///
/// Contracts see what is to be known of the bytes so far: their number, those of a character that isn't whole,
/// whether a carriage return came last, and the fault that ended the reading.
#[derive(Debug, Drop)]
pub struct Feed {
    pushed: u64,
    part: [u8; 4],
    held: usize,
    after_cr: bool,
    fault: Option<TextFault>,
}

impl Model for Feed {
    ghost use Rattle.std.specs.Prelude.{take, ◌≤◌, ◌<◌, ◌≡◌};
    ghost use Rattle.page_text.specs.Model.{Reading};
    ghost use Rattle.page_text.specs.Fronts.{front};
    ghost use Rattle.page_text.specs.declared.fronts.Front.TheVariants.{Part};

    ghost Value = { Reading };

    ghost view = { λ f. record { pushed = f.pushed; part = take f.held f.part; after_cr = f.after_cr; fault = f.fault } };

    ghost invariant = { λ f. (f.held ≤ 3) × (f.held ≤ f.pushed) × (0 < f.held → front (take f.held f.part) ≡ Part) };
}

/// The character as a page has it, where it has it: line ends are unified, and a byte order mark at the front is left out.
fn shown_mark(after_cr: bool, ch: char, offset: u64) -> Option<Mark>
    ensures { option_to_list result ≡ shown after_cr ch offset }
{
    if ch == '\r' {
        Some(Mark { ch: '\n', offset })
    } else if (after_cr && ch == '\n') || (ch == '\u{FEFF}' && offset == 0) {
        None
    } else {
        Some(Mark { ch, offset })
    }
}

/// Appends a mark, where there is one.
fn keep(marks: &mut Vec<Mark>, mark: Option<Mark>) -> Result<(), AllocError>
    ensures ok { OnOk result (marks.new.items ≡ marks.old.items ++ option_to_list mark) }
    ensures err { OnErr result (marks.new.items ≡ marks.old.items) }
{
    if let Some(mark) = mark {
        marks.push(mark)?;
    }
    Ok(())
}

impl Feed {
    /// A feed of a page of which nothing was read.
    pub fn new() -> Feed
        ensures begins { result ≡ begin }
        ensures stands { Stands result [] }
    {
        Feed {
            pushed: 0,
            part: [0; 4],
            held: 0,
            after_cr: false,
            fault: None,
        }
    }

    /// Takes one byte more, and gives the character that it makes certain.
    pub fn step(&mut self, byte: u8) -> Option<Mark>
        requires { self.old.pushed + 1 < 2 ^ 64 }
        ensures state { self.new ≡ after self.old (byte ∷ []) }
        ensures given { option_to_list result ≡ due self.old (byte ∷ []) }
        ensures counts { self.new.pushed ≡ self.old.pushed + 1 }
        ensures within { IfSome result (λ m. m.offset + len_utf8 m.ch ≤ self.new.pushed) }
    {
        if self.fault.is_some() {
            self.pushed += 1;
            None
        } else if self.held == 0 && byte < 0x80 {
            self.step_ascii(byte)
        } else {
            self.step_behind_part(byte)
        }
    }

    /// Takes whole characters from the front of a piece that the page has as its bytes are. There may be none: behind a fault,
    /// behind a carriage return, within a character, and before a character that is looked at by itself.
    pub fn take_plain<'p>(&mut self, piece: &'p [u8]) -> Run<'p>
        requires { self.old.pushed + length piece.now < 2 ^ 64 }
        ensures front { result.text.now ≡ take (length result.text.now) piece.now }
        ensures plain { are_plain result.text.now ≡ true }
        ensures offset { result.offset ≡ self.old.pushed }
        ensures state { self.new ≡ after self.old result.text.now }
        ensures counts { self.new.pushed ≡ self.old.pushed + length result.text.now }
        ensures shown { due self.old result.text.now ≡ marks_from self.old.pushed (text_chars result.text.now) }
    {
        let offset = self.pushed;
        if self.fault.is_some() || self.held > 0 || self.after_cr {
            return Run { text: "", offset };
        }
        let text = plain_front(piece);
        self.pushed += text.len() as u64;
        Run { text, offset }
    }

    /// Takes a byte that is a character by itself.
    fn step_ascii(&mut self, byte: u8) -> Option<Mark>
        requires room { self.old.pushed + 1 < 2 ^ 64 }
        requires sound { self.old.fault ≡ None }
        requires part { self.old.part ≡ [] }
        requires ascii { byte < 0x80 }
        ensures state { self.new ≡ after self.old (byte ∷ []) }
        ensures given { option_to_list result ≡ due self.old (byte ∷ []) }
    {
        let ch = byte as char;
        let start = self.pushed;
        self.pushed += 1;
        if !is_allowed(ch) {
            self.fault = Some(TextFault::BadChar { offset: start });
            return None;
        }
        let after_cr = self.after_cr;
        self.after_cr = ch == '\r';
        shown_mark(after_cr, ch, start)
    }

    /// Takes a byte with those that wait for it.
    fn step_behind_part(&mut self, byte: u8) -> Option<Mark>
        requires room { self.old.pushed + 1 < 2 ^ 64 }
        requires sound { self.old.fault ≡ None }
        ensures state { self.new ≡ after self.old (byte ∷ []) }
        ensures given { option_to_list result ≡ due self.old (byte ∷ []) }
    {
        let start = self.pushed - self.held as u64;
        self.pushed += 1;
        self.part[self.held] = byte;
        self.held += 1;
        match front_of(&self.part[..self.held]) {
            Front::Allowed(ch) => {
                let after_cr = self.after_cr;
                self.held = 0;
                self.after_cr = ch == '\r';
                shown_mark(after_cr, ch, start)
            }
            Front::Banned => {
                self.held = 0;
                self.fault = Some(TextFault::BadChar { offset: start });
                None
            }
            Front::Part => None,
            Front::Ill => {
                self.held = 0;
                self.fault = Some(TextFault::BadBytes { offset: start });
                None
            }
        }
    }

    /// Takes a piece, and appends the characters that the pieces so far make certain.
    ///
    /// The first break of the bytes so far is answered, with its offset, and again by each later call.
    /// So is want of memory; `marks` then has a front of what was to be appended.
    pub fn push(&mut self, piece: &[u8], marks: &mut Vec<Mark>) -> Result<(), TextFault>
        requires { self.old.pushed + length piece.now < 2 ^ 64 }
        // A feed that stands for some bytes stands for those and the piece, and its answer and the marks are theirs.
        ensures stands { (b : List ℕ) → Stands self.old b → result ≢ Err TextFault.NoMemory → Stands self.new (b ++ piece.now) }
        ensures exact { (b : List ℕ) → Stands self.old b → result ≢ Err TextFault.NoMemory
            → result ≡ answer (first_break (b ++ piece.now)) }
        ensures marks { (b : List ℕ) → Stands self.old b → result ≢ Err TextFault.NoMemory
            → Gains marks.old.items marks.new.items (begun b) (begun (b ++ piece.now)) }
        ensures marks_front { (b : List ℕ) → Stands self.old b → result ≡ Err TextFault.NoMemory
            → GainsFront marks.old.items marks.new.items (begun b) (begun (b ++ piece.now)) }

        // The same of any feed, by what is to be known of the bytes before.
        ensures state { result ≢ Err TextFault.NoMemory → self.new ≡ after self.old piece.now }
        ensures gained { result ≢ Err TextFault.NoMemory → marks.new.items ≡ marks.old.items ++ due self.old piece.now }
        ensures front { result ≡ Err TextFault.NoMemory
            → (n : ℕ) × (marks.new.items ≡ marks.old.items ++ take n (due self.old piece.now)) }
        ensures answer { result ≡ answer self.new.fault }

        // A caller can push again.
        ensures counts { (self.old.pushed ≤ self.new.pushed) × (self.new.pushed ≤ self.old.pushed + length piece.now) }

        // What waits for the rest of its character was pushed.
        ensures waits { length self.old.part ≤ self.old.pushed }

        // A fault stays.
        ensures kept { (f : _) → self.old.fault ≡ Some f
            → (result ≡ Err f) × (self.new.fault ≡ Some f) × (marks.new.items ≡ marks.old.items) }
    {
        if let Some(fault) = self.fault {
            self.pushed += piece.len() as u64;
            return Err(fault);
        }
        for byte in piece {
            let mark = self.step(*byte);
            if keep(marks, mark).is_err() {
                self.fault = Some(TextFault::NoMemory);
                return Err(TextFault::NoMemory);
            }
        }
        match self.fault {
            None => Ok(()),
            Some(fault) => Err(fault),
        }
    }

    /// Whether the bytes so far have a break in any case, or memory was wanting.
    pub fn is_broken(&self) -> bool
        ensures { result ≡ is_some self.now.fault }
    {
        self.fault.is_some()
    }

    /// Ends the page, and appends its last characters.
    ///
    /// There are none: a carriage return is shown as a line feed as soon as it comes, and a character that isn't whole
    /// at the page's end is a break. Takes no memory.
    pub fn end(self, marks: &mut Vec<Mark>) -> Result<(), TextFault>
        ensures exact { (b : List ℕ) → Stands self b → result ≡ answer (stop b) }
        ensures marks { (b : List ℕ) → Stands self b → Gains marks.old.items marks.new.items (begun b) (chars b) }
        ensures unchanged { marks.new.items ≡ marks.old.items }
        ensures kept { (f : _) → self.fault ≡ Some f → result ≡ Err f }
    {
        match self.fault {
            Some(fault) => Err(fault),
            None if self.held == 0 => Ok(()),
            None => Err(TextFault::BadBytes {
                offset: self.pushed - self.held as u64,
            }),
        }
    }
}
