//! The kinds of construct.
ghost use Rattle.std.specs.Prelude.{◌≡◌, ◌&&◌, Bool, false, true, codes, drop};
ghost use Rattle.page_constructs.specs.Constructs.{kind_of as kind_of_spec, starts as starts_of, starts_white as starts_white_of};

use ix_base::is_white;

/// What a construct is, by its first characters.
#[derive(Clone, Copy, Debug, PartialEq, Eq)]
pub enum Kind {
    /// `<?xml` and white space, at the page's start.
    Declaration,
    /// `<?` otherwise.
    Instruction,
    /// `<!--`.
    Comment,
    /// `<![CDATA[`.
    Cdata,
    /// `<!DOCTYPE`.
    Doctype,
    /// `<!` otherwise.
    Unknown,
    /// `</`.
    EndTag,
    /// `<` otherwise.
    StartTag,
    /// `&`.
    Reference,
    /// Anything else.
    Text,
}

/// Whether a text begins so.
pub fn starts(text: &[u8], front: &[u8]) -> bool
    ensures { result ≡ starts_of front.now text.now }
{
    match text.strip_prefix(front) {
        Some(_) => true,
        None => false,
    }
}

fn starts_white(text: &[u8]) -> bool
    ensures { result ≡ starts_white_of text.now }
{
    match text.split_first() {
        Some((first, _)) => is_white(*first),
        None => false,
    }
}

/// What stands behind the first bytes.
pub fn behind_first(text: &[u8], count: usize) -> &[u8]
    ensures { result.now ≡ drop count text.now }
{
    match text.split_at_checked(count) {
        Some((_, rest)) => rest,
        None => &[],
    }
}

fn is_declaration(text: &[u8]) -> bool
    ensures { result ≡ (starts_of (codes "<?xml") text.now && starts_white_of (drop 5 text.now)) }
{
    starts(text, b"<?xml") && starts_white(behind_first(text, 5))
}

/// What a construct is that doesn't begin with `<`.
#[tactic(auto, unfolding(crate::specs::Constructs::kind_of))]
fn run_kind(text: &[u8]) -> Kind
    requires { starts_of (codes "<") text.now ≡ false }
    ensures { (first : Bool) → result ≡ kind_of_spec first text.now }
{
    if starts(text, b"&") {
        Kind::Reference
    } else {
        Kind::Text
    }
}

/// What a construct is that begins with `<!`.
#[tactic(auto, unfolding(crate::specs::Constructs::kind_of))]
fn marked_kind(text: &[u8]) -> Kind
    requires { starts_of (codes "<!") text.now ≡ true }
    ensures { (first : Bool) → result ≡ kind_of_spec first text.now }
{
    if starts(text, b"<!--") {
        Kind::Comment
    } else if starts(text, b"<![CDATA[") {
        Kind::Cdata
    } else if starts(text, b"<!DOCTYPE") {
        Kind::Doctype
    } else {
        Kind::Unknown
    }
}

/// What a construct is that begins with `<?`.
#[tactic(auto, unfolding(crate::specs::Constructs::kind_of))]
fn instructed_kind(first: bool, text: &[u8]) -> Kind
    requires { starts_of (codes "<?") text.now ≡ true }
    ensures { result ≡ kind_of_spec first text.now }
{
    if first && is_declaration(text) {
        Kind::Declaration
    } else {
        Kind::Instruction
    }
}

/// What the first construct is. `first` says whether it is the page's first.
#[inline(always)]
#[tactic(auto, unfolding(crate::specs::Constructs::kind_of))]
pub fn kind_of(first: bool, text: &[u8]) -> Kind
    ensures { result ≡ kind_of_spec first text.now }
{
    if !starts(text, b"<") {
        return run_kind(text);
    }
    if starts(text, b"</") {
        return Kind::EndTag;
    }
    if starts(text, b"<!") {
        return marked_kind(text);
    }
    if starts(text, b"<?") {
        return instructed_kind(first, text);
    }
    Kind::StartTag
}
