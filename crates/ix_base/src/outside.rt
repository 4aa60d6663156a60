//! Pages come from a source, and targets and texts go to sinks.
ghost use Rattle.std.specs.Prelude.{◌≡◌, ◌++◌, ◌∷◌, [], ◌+◌, ◌^◌, ◌<◌, ◌≤◌, ℕ, List, Bool, true, Option, OnOk, OnErr, IfOk, IfSome, IsTrue, is_ok, is_err, length, drop, option_map};
ghost use Rattle.ix_base.specs.declared.limits.TheConstants.{LONGEST_NAME};
ghost use Rattle.ix_base.specs.Outside.{Begins, Begun, Gives, GainsFront, IsCounted, SameNames, TextGainsFront, begun, last_finished, last_grown};

use thiserror::Error;

/// A call of the outside failed. The object that was called has counted it.
#[derive(Clone, Copy, Debug, PartialEq, Eq, Error)]
#[error("a call of the outside failed")]
pub struct Failed;

/// Where pages come from, each by its name. Each object counts its faults: a call that answers Failed has raised the
/// count, and one that answers Ok has left it.
pub trait PageSource {
    /// How often it has failed. It never falls.
    ghost faults: { Self → ℕ };

    /// Whether its last call failed. It is false at first.
    ghost last_failed: { Self → Bool };

    /// The numbers by which it was made, where it was made by any. No call changes them.
    ghost numbers: { Self → List ℕ };

    /// The bytes of the page of a name, where it tells them. A source that tells those of some page tells those of each page that
    /// it starts.
    ghost page: { Self → List ℕ → Option (List ℕ) };

    /// What is left of the started page, where it tells it.
    ghost left: { Self → Option (List ℕ) };

    /// Whether the last `start` answered Ok.
    ghost started: { Self → Bool };

    /// The name that the last `start` asked for, where it tells it.
    ghost asked: { Self → Option (List ℕ) };

    /// The names that all starts so far asked for, where it tells them, the last one last.
    ghost starts: { Self → Option (List (List ℕ)) };

    /// Begins a page at its first byte, and ends the page before it. A page that isn't there is a fault.
    fn start(&mut self, name: &str) -> Result<(), Failed>
        requires count { faults self.old + 1 < 2 ^ 64 }
        requires name { length name.now ≤ LONGEST_NAME }
        ensures counted { IsCounted (faults self.old) (faults self.new) (last_failed self.new) (numbers self.old) (numbers self.new)
            result }
        ensures pages { page self.new ≡ page self.old }
        ensures begins { OnOk result (Begins (page self.old) (left self.new) name.now) }
        ensures started { started self.new ≡ is_ok result }
        ensures asked { IfSome (asked self.new) (λ n. n ≡ name.now) }
        ensures starts { starts self.new ≡ option_map (λ names. names ++ name.now ∷ []) (starts self.old) };

    /// Reads between 1 and `buf.len()` bytes of what is left, or 0 exactly at the page's end.
    fn read(&mut self, buf: &mut [u8]) -> Result<usize, Failed>
        requires count { faults self.old + 1 < 2 ^ 64 }
        requires started { IsTrue (started self.old) }
        requires room { 0 < length buf.old }
        ensures counted { IsCounted (faults self.old) (faults self.new) (last_failed self.new) (numbers self.old) (numbers self.new)
            result }
        ensures pages { page self.new ≡ page self.old }
        ensures started { started self.new ≡ started self.old }
        ensures names { SameNames (asked self.old) (asked self.new) (starts self.old) (starts self.new) }
        ensures gives { IfOk result (λ n. Gives (left self.old) (left self.new) (length buf.old) buf.new n) };
}

/// Where targets go, one behind another, each under a directory word and its name. It counts its faults as a source of
/// pages does.
pub trait TargetSink {
    /// How often it has failed. It never falls.
    ghost faults: { Self → ℕ };

    /// Whether its last call failed. It is false at first.
    ghost last_failed: { Self → Bool };

    /// The numbers by which it was made, where it was made by any. No call changes them.
    ghost numbers: { Self → List ℕ };

    /// The targets begun, where it tells them, the last one last.
    ghost targets: { Self → Option (List Begun) };

    /// Whether the target begun last is there and unfinished.
    ghost is_open: { Self → Bool };

    /// The two words of the last `begin`, where it tells them.
    ghost asked: { Self → Option (List ℕ × List ℕ) };

    /// How many bytes the two words of the last `begin` have together, also where it doesn't tell them.
    ghost asked_len: { Self → ℕ };

    /// Adds an unfinished target with no bytes. One that answers Failed has added none.
    fn begin(&mut self, dir: &str, target: &str) -> Result<(), Failed>
        requires { faults self.old + 1 < 2 ^ 64 }
        ensures counted { IsCounted (faults self.old) (faults self.new) (last_failed self.new) (numbers self.old) (numbers self.new)
            result }
        ensures ok { OnOk result (targets self.new ≡ option_map (λ ts. ts ++ begun dir.now target.now ∷ []) (targets self.old)) }
        ensures err { OnErr result (targets self.new ≡ targets self.old) }
        ensures opened { OnOk result (IsTrue (is_open self.new)) }
        ensures kept { OnErr result (is_open self.new ≡ is_open self.old) }
        ensures asked { IfSome (asked self.new) (λ words. words ≡ (dir.now, target.now)) }
        ensures asked_len { asked_len self.new ≡ length dir.now + length target.now };

    /// Gives the target begun last a piece. One that answers Failed has given it a front of the piece.
    fn put(&mut self, piece: &[u8]) -> Result<(), Failed>
        requires count { faults self.old + 1 < 2 ^ 64 }
        requires opened { IsTrue (is_open self.old) }
        ensures counted { IsCounted (faults self.old) (faults self.new) (last_failed self.new) (numbers self.old) (numbers self.new)
            result }
        ensures ok { OnOk result (targets self.new ≡ option_map (last_grown piece.now) (targets self.old)) }
        ensures err { OnErr result (GainsFront piece.now (targets self.old) (targets self.new)) }
        ensures opened { IsTrue (is_open self.new) }
        ensures asked { asked self.new ≡ asked self.old }
        ensures asked_len { asked_len self.new ≡ asked_len self.old };

    /// Finishes the target begun last. One that answers Failed has left it unfinished.
    fn finish(&mut self) -> Result<(), Failed>
        requires count { faults self.old + 1 < 2 ^ 64 }
        requires opened { IsTrue (is_open self.old) }
        ensures counted { IsCounted (faults self.old) (faults self.new) (last_failed self.new) (numbers self.old) (numbers self.new)
            result }
        ensures ok { OnOk result (targets self.new ≡ option_map last_finished (targets self.old)) }
        ensures err { OnErr result (targets self.new ≡ targets self.old) }
        ensures closed { is_open self.new ≡ is_err result }
        ensures asked { asked self.new ≡ asked self.old }
        ensures asked_len { asked_len self.new ≡ asked_len self.old };
}

/// Where a text goes. It counts its faults as a source of pages does.
pub trait TextSink {
    /// How often it has failed. It never falls.
    ghost faults: { Self → ℕ };

    /// Whether its last call failed. It is false at first.
    ghost last_failed: { Self → Bool };

    /// The numbers by which it was made, where it was made by any. No call changes them.
    ghost numbers: { Self → List ℕ };

    /// The bytes taken, where it tells them.
    ghost taken: { Self → Option (List ℕ) };

    /// Adds a piece. One that answers Failed has added a front of it.
    fn put(&mut self, piece: &[u8]) -> Result<(), Failed>
        requires { faults self.old + 1 < 2 ^ 64 }
        ensures counted { IsCounted (faults self.old) (faults self.new) (last_failed self.new) (numbers self.old) (numbers self.new)
            result }
        ensures ok { OnOk result (taken self.new ≡ option_map (λ t. t ++ piece.now) (taken self.old)) }
        ensures err { OnErr result (TextGainsFront piece.now (taken self.old) (taken self.new)) };
}
