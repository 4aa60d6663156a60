//! The formats of numbers and the fixed formats of the registries 3 and 4: which value the text of a fact has in each.
#![tactic(auto)]

ghost use Rattle.std.specs.Prelude.{◌≡◌, ◌≢◌, ◌+◌, ◌≤◌, IfSome, IfNone, IsTrue, ℕ, List, Some, false, length, take};
ghost use Rattle.std.specs.Str.{chars, IsUtf8};
ghost use Rattle.tr4_numbers.specs.declared.FixedFormat.{FixedFormat};
ghost use Rattle.tr4_numbers.specs.declared.NumberFormat.{NumberFormat};
ghost use Rattle.tr4_numbers.specs.Transformation.{IsValue, IsFixedValue, Takes, fixed_value};
ghost use Rattle.tr4_numbers.specs.Names.{number_name, fixed_name, number_name_3, fixed_name_3};
ghost use Rattle.tr4_numbers.specs.Readers.{reads_dash};
ghost use Rattle.tr4_numbers.specs.Values.{IsUnsignedDecimal};

mod reader;

use reader::{first, is_dash, is_dropped, may_end, next, sort_of, write_added, write_last};

/// How the digits of a number are grouped, and where its point stands.
#[derive(Clone, Copy, Debug, PartialEq, Eq, Hash)]
pub enum NumberFormat {
    /// `num-dot-decimal`: groups by `,` and a decimal `.`, as `1,234.5`.
    Dot,
    /// `num-comma-decimal`: groups by `.` and a decimal `,`, as `1.234,5`.
    Comma,
    /// `num-unit-decimal`: groups by `,` or `.`, and words in place of a decimal sign, as `5 pounds 50 pence`.
    Unit,
}

impl NumberFormat {
    /// The format with this local name in registry 4.
    pub fn named(local: &str) -> Option<NumberFormat>
        ensures found { IfSome result (λ format. local.now ≡ number_name format) }
        ensures none { IfNone result ((format : NumberFormat) → local.now ≢ number_name format) }
    {
        match local {
            "num-dot-decimal" => Some(NumberFormat::Dot),
            "num-comma-decimal" => Some(NumberFormat::Comma),
            "num-unit-decimal" => Some(NumberFormat::Unit),
            _ => None,
        }
    }

    /// The format with this local name in registry 3.
    pub fn named3(local: &str) -> Option<NumberFormat>
        ensures found { IfSome result (λ format. local.now ≡ number_name_3 format) }
        ensures none { IfNone result ((format : NumberFormat) → local.now ≢ number_name_3 format) }
    {
        match local {
            "numdotdecimal" => Some(NumberFormat::Dot),
            "numcommadecimal" => Some(NumberFormat::Comma),
            "numunitdecimal" => Some(NumberFormat::Unit),
            _ => None,
        }
    }
}

/// A format that gives one value to each text that it takes. All but `ZeroDash` take any text.
#[derive(Clone, Copy, Debug, PartialEq, Eq, Hash)]
pub enum FixedFormat {
    /// `fixed-empty`, in registry 3 `nocontent`: the empty text.
    Empty,
    /// `fixed-false`, in registry 3 `booleanfalse`: `false`.
    False,
    /// `fixed-true`, in registry 3 `booleantrue`: `true`.
    True,
    /// `fixed-zero`, in registry 4 alone: `0`.
    Zero,
    /// `zerodash`, in registry 3 alone: `0` of a dash.
    ZeroDash,
}

impl FixedFormat {
    /// The format with this local name in registry 4.
    pub fn named(local: &str) -> Option<FixedFormat>
        ensures found { IfSome result (λ format. Some local.now ≡ fixed_name format) }
        ensures none { IfNone result ((format : FixedFormat) → Some local.now ≢ fixed_name format) }
    {
        match local {
            "fixed-empty" => Some(FixedFormat::Empty),
            "fixed-false" => Some(FixedFormat::False),
            "fixed-true" => Some(FixedFormat::True),
            "fixed-zero" => Some(FixedFormat::Zero),
            _ => None,
        }
    }

    /// The format with this local name in registry 3.
    pub fn named3(local: &str) -> Option<FixedFormat>
        ensures found { IfSome result (λ format. Some local.now ≡ fixed_name_3 format) }
        ensures none { IfNone result ((format : FixedFormat) → Some local.now ≢ fixed_name_3 format) }
    {
        match local {
            "nocontent" => Some(FixedFormat::Empty),
            "booleanfalse" => Some(FixedFormat::False),
            "booleantrue" => Some(FixedFormat::True),
            "zerodash" => Some(FixedFormat::ZeroDash),
            _ => None,
        }
    }

    /// The value of every text that this format takes.
    pub fn value(self) -> &'static str
        ensures { result.now ≡ fixed_value self }
    {
        match self {
            FixedFormat::Empty => "",
            FixedFormat::False => "false",
            FixedFormat::True => "true",
            FixedFormat::Zero | FixedFormat::ZeroDash => "0",
        }
    }

    /// Whether this format takes the text. All take any but `ZeroDash`, which takes one dash, with white space and spaces
    /// around it. It takes no memory.
    pub fn accepts(self, text: &str) -> bool
        ensures yes { IsTrue result → Takes self (chars text.now) }
        ensures no { result ≡ false → ¬ Takes self (chars text.now) }
    {
        match self {
            FixedFormat::ZeroDash => is_one_dash(text),
            _ => true,
        }
    }
}

/// Whether the text is one dash, beside what is dropped at the ends of numbers.
fn is_one_dash(text: &str) -> bool
    ensures { result ≡ reads_dash false (chars text.now) }
{
    let mut was_read = false;
    for c in text.chars() {
        if is_dropped(c) {
            continue;
        }
        if was_read || !is_dash(c) {
            return false;
        }
        was_read = true;
    }
    was_read
}

/// Writes the value that the format gives the text to the front of `out`, and gives its length in bytes. None where
/// the format gives it no value; `out` may then have changed. What stands in `out` behind the value is left open.
pub fn apply(format: NumberFormat, text: &str, out: &mut [u8]) -> Option<usize>
    requires { length text.now + 1 ≤ length out.old }
    ensures value { IfSome result (λ n. IsValue format (chars text.now) (take n out.new)) }
    ensures bound { IfSome result (λ n. n ≤ length text.now + 1) }
    ensures none { IfNone result ((v : List ℕ) → IsValue format (chars text.now) v → ⊥) }
{
    let mut phase = first(format);
    let mut end = 0;
    for c in text.chars() {
        let sort = sort_of(format, c);
        match next(phase, sort, c) {
            None => return None,
            Some(after) => {
                end = write_added(out, end, phase, sort, c);
                phase = after;
            }
        }
    }
    if may_end(phase) {
        Some(write_last(out, end, phase))
    } else {
        None
    }
}

/// A law: a text has at most one value in a format.
pub fn one_value()
    ensures number { (format : NumberFormat) → (text v w : List ℕ) →
        IsValue format text v → IsValue format text w → v ≡ w }
    ensures fixed { (format : FixedFormat) → (text v w : List ℕ) →
        IsFixedValue format text v → IsFixedValue format text w → v ≡ w }
{}

/// A law: the value of a number is an unsigned decimal, and so text: its bytes can be read as a `str`.
pub fn values_are_unsigned()
    ensures decimal { (format : NumberFormat) → (text value : List ℕ) →
        IsValue format text value → IsUnsignedDecimal value }
    ensures utf8 { (format : NumberFormat) → (text value : List ℕ) → IsValue format text value → IsUtf8 value }
{}
