//! Values of attributes whose bytes mean themselves, as most do. Each is gone through once.
ghost use Rattle.std.specs.Prelude.{◌≡◌, false, Some, IfSome};
ghost use Rattle.page_constructs.specs.Forms.{has};
ghost use Rattle.page_constructs.specs.Meanings.{equalled};
ghost use Rattle.page_constructs.specs.Spans.{parted};
ghost use Rattle.page_constructs.specs.Values.{value_of};

use crate::meaning::span::{Stop, behind_front, split};

/// A value in double quotes right behind `=`, and what is behind it: where each of its bytes means itself.
pub(crate) fn own_equalled(text: &str) -> Option<(&str, &str)>
    ensures equalled { IfSome result (λ r. equalled text.now ≡ Some (parted r)) }
    ensures value { IfSome result (λ r. value_of r.0.now ≡ Some r.0.now) }
    ensures open { IfSome result (λ r. has 60 r.0.now ≡ false) }
{
    let value = behind_front("=\"", text)?;
    let (own, behind) = split(value, Stop::Odd);
    Some((own, behind.strip_prefix('"')?))
}
