//! The cells of a row.
ghost use Rattle.std.specs.Prelude.{◌≡◌, MatchResult, IsUtf8};
ghost use Rattle.std.specs.Str.Parse.{ParsesUnsigned};

use anyhow::{Context, Result, bail};
use std::alloc::Global;
use std::str;

/// What a cell says: the bytes for which it is written.
#[derive(Drop)]
pub struct Cell {
    bytes: Vec<u8>,
}

/// The number that hexadecimal digits say, of which the last two count.
fn hex_byte(digits: &str) -> Result<u8> {
    let mut byte = 0u8;
    for ch in digits.chars() {
        let digit = ch.to_digit(16).context("a hexadecimal digit")?;
        byte = byte.wrapping_mul(16).wrapping_add(digit as u8);
    }
    Ok(byte)
}

/// Appends a text as often as is written in front of it.
fn push_repeated(bytes: &mut Vec<u8>, written: &str) -> Result<()> {
    let (count, text) = written.split_once('*').context("no text that is repeated")?;
    let count = count.parse::<u32>().context("how often")?;
    for _ in 0..count {
        bytes.extend_from_slice(text.as_bytes())?;
    }
    Ok(())
}

/// Appends a byte, which an escape of one letter stands for. It gives what is behind it.
fn push_byte<'t>(bytes: &mut Vec<u8>, byte: u8, behind: &'t str) -> Result<&'t str> {
    bytes.push(byte)?;
    Ok(behind)
}

/// Appends the byte of two hexadecimal digits. It gives what is behind them.
fn push_hex<'t>(bytes: &mut Vec<u8>, text: &'t str) -> Result<&'t str> {
    let (digits, behind) = text.split_at_checked(2).context("two digits")?;
    push_byte(bytes, hex_byte(digits)?, behind)
}

/// Appends what stands in front of a closing brace, as often as it says. It gives what is behind the brace.
fn push_braced<'t>(bytes: &mut Vec<u8>, text: &'t str) -> Result<&'t str> {
    let (repeated, behind) = text.split_once('}').context("no end")?;
    push_repeated(bytes, repeated)?;
    Ok(behind)
}

/// Appends what an escape of this kind stands for. It gives what is behind it.
fn push_meant<'t>(bytes: &mut Vec<u8>, kind: &str, text: &'t str) -> Result<&'t str> {
    match kind {
        "t" => push_byte(bytes, b'\t', text),
        "n" => push_byte(bytes, b'\n', text),
        "r" => push_byte(bytes, b'\r', text),
        "x" => push_hex(bytes, text),
        "{" => push_braced(bytes, text),
        _ => bail!("an escape that is none"),
    }
}

/// Appends what an escape stands for, and what is behind it.
fn push_escape(bytes: &mut Vec<u8>, part: &str) -> Result<()> {
    let (kind, text) = part.split_at_checked(1).context("no escape")?;
    let behind = push_meant(bytes, kind, text)?;
    bytes.extend_from_slice(behind.as_bytes())?;
    Ok(())
}

impl Cell {
    /// Reads a cell as it is written.
    fn read(alloc: Global, written: &str) -> Result<Cell> {
        let mut bytes = Vec::new(alloc);
        let mut parts = written.split('\\');
        if let Some(front) = parts.next() {
            bytes.extend_from_slice(front.as_bytes())?;
        }
        for part in parts {
            push_escape(&mut bytes, part)?;
        }
        Ok(Cell { bytes })
    }

    /// The bytes.
    pub fn bytes(&self) -> &[u8]
        ensures { result.now ≡ self.now.bytes.items }
    {
        self.bytes.as_slice()
    }

    /// The bytes, which are to be UTF-8.
    pub fn text(&self) -> Result<&str>
        ensures { MatchResult result (λ text. text.now ≡ self.now.bytes.items) (λ _. ¬ (IsUtf8 self.now.bytes.items)) }
    {
        str::from_utf8(self.bytes()).context("a cell that is no text")
    }

    /// The number that the text says: one digit or more, behind a plus or not.
    #[tactic(auto, using(crate::proofs::NumeralLaws::utf8_from_numeral))]
    pub fn number(&self) -> Result<u64>
        ensures { ParsesUnsigned 64 10 self.now.bytes.items result }
    {
        self.text()?
            .parse::<u64>()
            .context("a cell that is no number")
    }
}

/// The cells of a line.
pub(crate) fn cells_of(alloc: Global, line: &str) -> Result<Vec<Cell>> {
    let mut cells = Vec::new(alloc);
    for written in line.split('\t') {
        cells.push(Cell::read(alloc, written)?)?;
    }
    Ok(cells)
}
