//! Texts that are owned.
ghost use Rattle.std.specs.Prelude.{◌≡◌, ◌++◌, [], true, false, string_bytes, OnOk, OnErr, IfOk, bytes_eq, option_map};
ghost use Rattle.ix_base.specs.HeldTexts.{held_bytes};

use crate::NoMemory;
use arrayvec::ArrayString;
use std::alloc::Global;
use std::convert::AsStr;
use std::marker::Model;

/// So many bytes a text has at most that takes no memory of its own. Most ids, values and names of contexts are that short.
const SHORT: usize = 16;

/// Where the bytes of a text are.
#[derive(Debug, Drop)]
enum Held {
    Short(ArrayString<SHORT>),
    Long(String),
}

impl Held {
    /// A copy of `s`.
    fn of(alloc: Global, s: &str) -> Result<Held, NoMemory>
        ensures { IfOk result (λ h. held_bytes h ≡ s.now) }
    {
        if let Ok(short) = ArrayString::from(s) {
            return Ok(Held::Short(short));
        }
        let long = String::from_str(alloc, s)?;
        Ok(Held::Long(long))
    }

    fn as_str(&self) -> &str
        ensures { result.now ≡ held_bytes self.now }
    {
        match self {
            Held::Short(short) => short.as_str(),
            Held::Long(long) => long.as_str(),
        }
    }

    /// A long text of the same bytes with `s` behind them.
    fn with(&self, alloc: Global, s: &str) -> Result<String, NoMemory>
        ensures { IfOk result (λ t. string_bytes t ≡ held_bytes self.now ++ s.now) }
    {
        let mut long = String::from_str(alloc, self.as_str())?;
        long.push_str(s)?;
        Ok(long)
    }

    /// Appends `s`, where there is room. Else it is as before.
    fn push_within(&mut self, s: &str) -> bool
        ensures room { result ≡ true → held_bytes self.new ≡ held_bytes self.old ++ s.now }
        ensures none { result ≡ false → held_bytes self.new ≡ held_bytes self.old }
    {
        match self {
            Held::Short(short) => short.try_push_str(s).is_ok(),
            Held::Long(long) => long.push_str(s).is_ok(),
        }
    }
}

/// A text that is owned. Contracts see it as its bytes, in UTF-8. One of at most 16 bytes that was made with no room for
/// more takes no memory of its own.
#[derive(Debug)]
pub struct Text {
    alloc: Global,
    held: Held,
}

impl Drop for Text {
    fn drop(self) {
        let Text { alloc: _, held: _ } = self;
    }
}

impl Model for Text {
    ghost use Rattle.std.specs.Prelude.{List, ℕ};
    ghost use Rattle.ix_base.specs.HeldTexts.{held_bytes};

    ghost Value = { List ℕ };

    ghost view = { λ t. held_bytes t.held };
}

impl AsStr for Text {
    ghost text = { λ t. t };

    fn as_str(&self) -> &str {
        self.held.as_str()
    }
}

impl Text {
    /// A copy of `s`.
    pub fn of(alloc: Global, s: &str) -> Result<Text, NoMemory>
        ensures { IfOk result (λ t. t ≡ s.now) }
    {
        let held = Held::of(alloc, s)?;
        Ok(Text { alloc, held })
    }

    /// An empty text with room for so many bytes, so that it grows only where more are pushed.
    pub fn with_room(alloc: Global, bytes: usize) -> Result<Text, NoMemory>
        ensures { IfOk result (λ t. t ≡ []) }
    {
        if bytes <= SHORT {
            return Ok(Text {
                alloc,
                held: Held::Short(ArrayString::new()),
            });
        }
        let long = String::with_capacity(alloc, bytes)?;
        Ok(Text {
            alloc,
            held: Held::Long(long),
        })
    }

    /// A copy of `s`, where it is there.
    pub fn of_some(alloc: Global, s: Option<&str>) -> Result<Option<Text>, NoMemory>
        ensures { IfOk result (λ o. o ≡ option_map (λ t. t.now) s.entry) }
    {
        match s {
            Some(s) => Ok(Some(Text::of(alloc, s)?)),
            None => Ok(None),
        }
    }

    /// The text as it stands. It takes no memory.
    pub fn as_str(&self) -> &str
        ensures { result.now ≡ self.now }
    {
        self.held.as_str()
    }

    /// Appends `s`. After a refusal the text is as before.
    pub fn push(&mut self, s: &str) -> Result<(), NoMemory>
        ensures ok { OnOk result (self.new ≡ self.old ++ s.now) }
        ensures err { OnErr result (self.new ≡ self.old) }
    {
        if self.held.push_within(s) {
            return Ok(());
        }
        let long = self.held.with(self.alloc, s)?;
        self.held = Held::Long(long);
        Ok(())
    }

    /// Whether two texts have the same bytes. It takes no memory.
    pub fn is_same(&self, other: &Text) -> bool
        ensures { result ≡ bytes_eq self.now other.now }
    {
        self.as_str() == other.as_str()
    }
}

/// A text as it stands, if there is one. It takes no memory.
pub fn shown(text: &Option<Text>) -> Option<&str>
    ensures { option_map (λ t. t.now) result ≡ text.now }
{
    match text {
        Some(text) => Some(text.as_str()),
        None => None,
    }
}
