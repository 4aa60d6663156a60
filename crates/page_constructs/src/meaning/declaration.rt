//! The declaration at a page's front.
ghost use Rattle.std.specs.Prelude.{◌≡◌, option_map};
ghost use Rattle.page_constructs.specs.Meanings.{part_at as part_at_of, is_answer as is_answer_of, ends_declaration as ends_declaration_of, declared as declared_of};
ghost use Rattle.page_constructs.specs.Spans.{parted};
ghost use Rattle.page_constructs.specs.Model.{token_of};

use crate::meaning::span::{behind_front, behind_white, equalled, is_white_text};
use crate::token::Token;

/// A part at the front, behind white space: its quoted value, and what is behind that.
fn part_at<'t>(name: &str, text: &'t str) -> Option<(&'t str, &'t str)>
    ensures { option_map parted result ≡ part_at_of name.now text.now }
{
    let dark = behind_white(text);
    if dark.len() == text.len() {
        return None;
    }
    equalled(behind_front(name, dark)?)
}

fn is_answer(raw: &str) -> bool
    ensures { result ≡ is_answer_of raw.now }
{
    raw == "yes" || raw == "no"
}

fn ends_declaration(text: &str) -> bool
    ensures { result ≡ ends_declaration_of text.now }
{
    if is_white_text(text) {
        return true;
    }
    match part_at("standalone", text) {
        Some((raw, more)) => is_answer(raw) && is_white_text(more),
        None => false,
    }
}

/// What stands in a declaration behind `<?xml`.
pub(crate) fn declared<'a, 't>(inner: &'t str) -> Option<Token<'a, 't>>
    ensures { option_map token_of result ≡ declared_of inner.now }
{
    let (version, rest) = part_at("version", inner)?;
    match part_at("encoding", rest) {
        Some((encoding, more)) if ends_declaration(more) => Some(Token::Declaration {
            version,
            encoding: Some(encoding),
        }),
        None if ends_declaration(rest) => Some(Token::Declaration {
            version,
            encoding: None,
        }),
        _ => None,
    }
}
