//! Names of pages.
ghost use Rattle.std.specs.Prelude.{◌≡◌};
ghost use Rattle.std.specs.List.{list_all};
ghost use Rattle.page_names.specs.Names.{is_page_name, may_stand_in_name};

use ix_base::limits::LONGEST_NAME;

fn all_may_stand(name: &[u8]) -> bool
    ensures { result ≡ list_all may_stand_in_name name.now }
{
    name.iter().all(|b| *b >= 32 && *b != 127)
}

/// Whether a text may name a page.
pub fn is_page_name(name: &str) -> bool
    ensures { result ≡ is_page_name name.now }
{
    let bytes = name.as_bytes();
    !bytes.is_empty() && bytes.len() <= LONGEST_NAME && all_may_stand(bytes)
}
