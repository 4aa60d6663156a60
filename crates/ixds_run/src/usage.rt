//! How the program is used.
ghost use Rattle.std.specs.Prelude.{◌≡◌, ◌⊎◌, ◌+◌, ◌^◌, ◌<◌, IsTrue};
ghost use Rattle.ix_base.specs.Outside.{TextGainsFront};
ghost use Rattle.page_verdicts.specs.Gains.{GainsText};
ghost use Rattle.page_verdicts.specs.Texts.{usage_text};

use crate::Status;
use ix_base::TextSink;

/// How the program is used.
#[tactic(auto, unfolding(page_verdicts::specs::Texts::usage_text))]
fn usage() -> &'static [u8]
    ensures { result.now ≡ usage_text }
{
    b"usage: ixds extract --base URL --out DIR PAGE...\n       ixds check --base URL PAGE...\n       ixds sample N\n       \
ixds plain PAGE\n       ixds trace --base URL PAGE...\n       ixds session --base URL --out DIR SCRIPT\n"
}

/// Tells how the program is used.
pub fn put_usage<T: TextSink>(out: &mut T) -> Status
    requires { T.faults out.old + 1 < 2 ^ 64 }
    ensures either { (result ≡ Status.Usage) ⊎ (result ≡ Status.WriteFault) }
    ensures usage { result ≡ Status.Usage → GainsText usage_text (T.taken out.old) (T.taken out.new) }
    ensures quiet { result ≡ Status.Usage → T.faults out.new ≡ T.faults out.old }
    ensures cause { result ≡ Status.WriteFault → T.faults out.old < T.faults out.new }
    ensures last { result ≡ Status.WriteFault → IsTrue (T.last_failed out.new) }
    ensures numbers { T.numbers out.new ≡ T.numbers out.old }
    ensures front { result ≡ Status.WriteFault → TextGainsFront usage_text (T.taken out.old) (T.taken out.new) }
{
    match out.put(usage()) {
        Ok(()) => Status::Usage,
        Err(_) => Status::WriteFault,
    }
}
