//! Objects of the outside whose calls are counted.
ghost use Rattle.std.specs.Prelude.{◌≡◌};

use ix_base::{Failed, PageSource, TargetSink, TextSink};

/// An object, and how often it was called.
#[derive(Drop)]
pub(crate) struct Counted<O> {
    pub object: O,
    pub calls: u64,
}

/// An object that wasn't called yet.
pub(crate) fn watched<O>(object: O) -> Counted<O>
    ensures object { result.object ≡ object }
    ensures calls { result.calls ≡ 0 }
{
    Counted { object, calls: 0 }
}

impl<P: PageSource> PageSource for Counted<P> {
    ghost faults = { λ c. P.faults c.object };

    ghost last_failed = { λ c. P.last_failed c.object };

    ghost numbers = { λ c. P.numbers c.object };

    ghost page = { λ c. P.page c.object };

    ghost left = { λ c. P.left c.object };

    ghost started = { λ c. P.started c.object };

    ghost asked = { λ c. P.asked c.object };

    ghost starts = { λ c. P.starts c.object };

    fn start(&mut self, name: &str) -> Result<(), Failed> {
        self.calls = self.calls.saturating_add(1);
        self.object.start(name)
    }

    fn read(&mut self, buf: &mut [u8]) -> Result<usize, Failed> {
        self.calls = self.calls.saturating_add(1);
        self.object.read(buf)
    }
}

impl<S: TargetSink> TargetSink for Counted<S> {
    ghost faults = { λ c. S.faults c.object };

    ghost last_failed = { λ c. S.last_failed c.object };

    ghost numbers = { λ c. S.numbers c.object };

    ghost targets = { λ c. S.targets c.object };

    ghost is_open = { λ c. S.is_open c.object };

    ghost asked = { λ c. S.asked c.object };

    ghost asked_len = { λ c. S.asked_len c.object };

    fn begin(&mut self, dir: &str, target: &str) -> Result<(), Failed> {
        self.calls = self.calls.saturating_add(1);
        self.object.begin(dir, target)
    }

    fn put(&mut self, piece: &[u8]) -> Result<(), Failed> {
        self.calls = self.calls.saturating_add(1);
        self.object.put(piece)
    }

    fn finish(&mut self) -> Result<(), Failed> {
        self.calls = self.calls.saturating_add(1);
        self.object.finish()
    }
}

impl<T: TextSink> TextSink for Counted<T> {
    ghost faults = { λ c. T.faults c.object };

    ghost last_failed = { λ c. T.last_failed c.object };

    ghost numbers = { λ c. T.numbers c.object };

    ghost taken = { λ c. T.taken c.object };

    fn put(&mut self, piece: &[u8]) -> Result<(), Failed> {
        self.calls = self.calls.saturating_add(1);
        self.object.put(piece)
    }
}
