//! How texts and attribute values are written.
ghost use Rattle.std.specs.Prelude.{◌≡◌, ◌++◌, ◌∷◌, OnOk, OnErr, option_map};
ghost use Rattle.std.specs.List.{list_all};
ghost use Rattle.ix_base.specs.Escapes.{te, ae, te_ref, ae_ref, escaped, is_own};
ghost use Rattle.ix_base.specs.Fronts.{AppendsFront};
ghost use Rattle.ix_base.specs.Manners.{ref_in};

use crate::{NoMemory, Text};

/// How a text is written: between tags, or as an attribute's value between its quotes.
#[derive(Clone, Copy)]
enum Manner {
    Text,
    Value,
}

/// Appends a text as it is written between tags. After a refusal the front of what was due may have been appended.
pub fn push_te(text: &str, out: &mut Text) -> Result<(), NoMemory>
    ensures ok { OnOk result (out.new ≡ out.old ++ te text.now) }
    ensures err { OnErr result (AppendsFront (te text.now) out.old out.new) }
{
    push_escaped(Manner::Text, text, out)
}

/// Appends an attribute's value as it is written between its quotes. After a refusal the front of what was due may have
/// been appended.
pub fn push_ae(text: &str, out: &mut Text) -> Result<(), NoMemory>
    ensures ok { OnOk result (out.new ≡ out.old ++ ae text.now) }
    ensures err { OnErr result (AppendsFront (ae text.now) out.old out.new) }
{
    push_escaped(Manner::Value, text, out)
}

/// The reference by which a byte of a text is written, if it isn't written as itself.
fn reference_in_text(byte: u8) -> Option<&'static str>
    ensures { option_map (λ r. r.now) result ≡ option_map (λ r. 38 ∷ r) (te_ref byte) }
{
    match byte {
        b'&' => Some("&amp;"),
        b'<' => Some("&lt;"),
        b'>' => Some("&gt;"),
        b'\r' => Some("&#13;"),
        _ => None,
    }
}

/// The same of a byte of a value.
fn reference_in_value(byte: u8) -> Option<&'static str>
    ensures { option_map (λ r. r.now) result ≡ option_map (λ r. 38 ∷ r) (ae_ref byte) }
{
    match byte {
        b'"' => Some("&quot;"),
        b'\t' => Some("&#9;"),
        b'\n' => Some("&#10;"),
        _ => reference_in_text(byte),
    }
}

#[inline(always)]
fn reference_in(manner: Manner, byte: u8) -> Option<&'static str>
    ensures { option_map (λ r. r.now) result ≡ option_map (λ r. 38 ∷ r) (ref_in manner byte) }
{
    match manner {
        Manner::Text => reference_in_text(byte),
        Manner::Value => reference_in_value(byte),
    }
}

/// Whether a byte is written as itself.
#[inline(always)]
fn is_own(manner: Manner, byte: u8) -> bool
    ensures { result ≡ is_own (ref_in manner) byte }
{
    let is_text = (byte != b'&') & (byte != b'<') & (byte != b'>') & (byte != b'\r');
    match manner {
        Manner::Text => is_text,
        Manner::Value => is_text & (byte != b'"') & (byte != b'\t') & (byte != b'\n'),
    }
}

/// Whether all bytes are written as themselves. It looks at each, so that a compiler can let it look at several in one step.
#[inline(always)]
fn are_own(manner: Manner, bytes: &[u8]) -> bool
    ensures { result ≡ list_all (is_own (ref_in manner)) bytes.now }
{
    let mut all = true;
    for byte in bytes {
        all = is_own(manner, *byte) & all;
    }
    all
}

/// Appends a text as it is written in this manner: the runs of bytes that are written as themselves, and the references between.
#[inline(always)]
fn push_runs(manner: Manner, text: &str, out: &mut Text) -> Result<(), NoMemory>
    ensures ok { OnOk result (out.new ≡ out.old ++ escaped (ref_in manner) text.now) }
    ensures err { OnErr result (AppendsFront (escaped (ref_in manner) text.now) out.old out.new) }
{
    let mut from = 0;
    for (at, byte) in text.as_bytes().iter().enumerate() {
        let Some(reference) = reference_in(manner, *byte) else {
            continue;
        };
        out.push(&text[from..at])?;
        out.push(reference)?;
        from = at + 1;
    }
    out.push(&text[from..])
}

/// Appends a text as it is written in this manner. Most texts are written as they are.
#[inline(always)]
fn push_escaped(manner: Manner, text: &str, out: &mut Text) -> Result<(), NoMemory>
    ensures ok { OnOk result (out.new ≡ out.old ++ escaped (ref_in manner) text.now) }
    ensures err { OnErr result (AppendsFront (escaped (ref_in manner) text.now) out.old out.new) }
{
    if are_own(manner, text.as_bytes()) {
        return out.push(text);
    }
    push_runs(manner, text, out)
}
