//! Written names in their parts.
ghost use Rattle.std.specs.Prelude.{◌≡◌, true, false, MatchOption, option_map};
ghost use Rattle.ix_base.specs.Scope.{is_qname as is_qname_of, has_prefix, prefix_of, local_of};
ghost use Rattle.page_constructs.specs.Names.{name_parts};

use scopes::is_ncname;

/// A qualified name as it is written: what stands before its colon, where it has one, and what stands behind it. Without a
/// colon the local part is the whole name.
#[derive(Clone, Copy, Debug)]
pub struct Written<'a> {
    pub name: &'a str,
    pub prefix: Option<&'a str>,
    pub local: &'a str,
    ghost parts: { option_map (λ p. (p.now, local.now)) prefix ≡ name_parts name.now },
    ghost local_part: { local.now ≡ local_of name.now },
    ghost qname: { is_qname_of name.now ≡ true },
}

/// The prefix and the local part of a written name that has a colon.
fn split_name(name: &str) -> Option<(&str, &str)>
    ensures { option_map (λ p. (p.0.now, p.1.now)) result ≡ name_parts name.now }
{
    name.split_once(':')
}

/// A name in its parts, where it is a qualified name: one without a colon, or two with one between.
pub fn parted<'a>(name: &'a str) -> Option<Written<'a>>
    ensures { MatchOption result (is_qname_of name.entry.now ≡ false)
        (λ w. (is_qname_of name.entry.now ≡ true) × (w.name.now ≡ name.entry.now)) }
{
    match split_name(name) {
        Some((prefix, local)) => {
            if is_ncname(prefix) && is_ncname(local) {
                return Some(Written {
                    name,
                    prefix: Some(prefix),
                    local,
                });
            }
            None
        }
        None => {
            if is_ncname(name) {
                return Some(Written {
                    name,
                    prefix: None,
                    local: name,
                });
            }
            None
        }
    }
}

/// Whether a text is a qualified name.
pub fn is_qname(name: &str) -> bool
    ensures { result ≡ is_qname_of name.now }
{
    parted(name).is_some()
}

impl<'a> Written<'a> {
    /// The prefix, or the empty text.
    pub fn prefix_or_empty(&self) -> &'a str
        ensures { result.now ≡ prefix_of self.now.name.now }
    {
        self.prefix.unwrap_or("")
    }

    pub fn is_prefixed(&self) -> bool
        ensures { result ≡ has_prefix self.now.name.now }
    {
        self.prefix.is_some()
    }
}
