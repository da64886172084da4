// A sink with a bar at its end.
ghost use Rattle.std.specs.Prelude.{◌≡◌, ◌≤◌, ◌<◌, ◌++◌, length, take, IfOk, OnOk, OnErr, None};
ghost use Rattle.run_capture.specs.Bytes.{Takes};
ghost use Rattle.run_capture.specs.Faults.{CountsFault};
ghost use Rattle.run_report.specs.Bar.{clears_above, erased, line_feeds, Draws, Erases};

use run_capture::{Failed, Sink, write_all};

/// A sink at whose end a bar may stand, which is erased before anything else goes there. It tells no bytes: its own
/// sink takes bars too.
pub struct BarSink<K: Sink> {
    sink: K,
    /// The bar that stands there, by its line feeds.
    bar: Option<usize>,
    faults: u64,
}

const CLEAR: &[u8] = b"\r\x1b[2K";

const CLEAR_ABOVE: &[u8] = b"\x1b[1A\x1b[2K";

// Clears so many lines above, one after the other.
#[tactic(auto, using(crate::proofs::BarLemmas::clears_more, crate::proofs::BarLemmas::clears_none))]
fn clear_above<K: Sink>(sink: &mut K, count: usize) -> Result<(), Failed>
    ensures taken { OnOk result (Takes (K.taken sink.old) (K.taken sink.new) (clears_above count)) }
    ensures fault { CountsFault (K.faults sink.old) (K.faults sink.new) result }
{
    for _line in 0..count {
        write_all(sink, CLEAR_ABOVE)?;
    }
    Ok(())
}

// Erases a bar of so many line feeds, where one stands there.
#[tactic(auto, using(crate::proofs::BarLemmas::erases_none, crate::proofs::BarLemmas::erases_some))]
fn erase<K: Sink>(sink: &mut K, bar: Option<usize>) -> Result<(), Failed>
    ensures taken { OnOk result (Takes (K.taken sink.old) (K.taken sink.new) (erased bar)) }
    ensures fault { CountsFault (K.faults sink.old) (K.faults sink.new) result }
{
    if let Some(feeds) = bar {
        write_all(sink, CLEAR)?;
        clear_above(sink, feeds)?;
    }
    Ok(())
}

// How many line feeds a text has.
fn feeds(text: &str) -> usize
    ensures { result ≡ line_feeds text.now }
{
    text.bytes().filter(|byte| *byte == b'\n').count()
}

impl<K: Sink> BarSink<K> {
    /// A sink with no bar.
    pub fn new(sink: K) -> Self
        ensures sink { result.sink ≡ sink }
        ensures bar { result.bar ≡ None }
    {
        BarSink {
            sink,
            bar: None,
            faults: 0,
        }
    }

    // Erases the bar. Where that fails none is known to stand there any more.
    fn clear(&mut self) -> Result<(), Failed>
        ensures taken { OnOk result (Takes (K.taken self.old.sink) (K.taken self.new.sink) (erased self.old.bar)) }
        ensures bar { self.new.bar ≡ None }
        ensures faults { self.new.faults ≡ self.old.faults }
        ensures inner { CountsFault (K.faults self.old.sink) (K.faults self.new.sink) result }
    {
        let bar = self.bar;
        self.bar = None;
        erase(&mut self.sink, bar)
    }

    /// Erases the bar, and shows a text as one. After an error none is known to stand there.
    #[tactic(auto, using(crate::proofs::BarLemmas::erases_before))]
    pub(crate) fn draw(&mut self, text: &str) -> Result<(), Failed>
        ensures drawn { OnOk result (Draws (K.taken self.old.sink) (K.taken self.new.sink) self.old.bar self.new.bar
            text.now) }
        ensures failed { OnErr result (self.new.bar ≡ None) }
        ensures faults { self.new.faults ≡ self.old.faults }
    {
        self.clear()?;
        write_all(&mut self.sink, text.as_bytes())?;
        self.bar = Some(feeds(text));
        Ok(())
    }

    // Erases the bar, and writes a front part of a piece.
    #[tactic(auto, using(crate::proofs::BarLemmas::erases_before))]
    fn write_behind(&mut self, piece: &[u8]) -> Result<usize, Failed>
        ensures within { IfOk result (λ n. n ≤ length piece.now) }
        ensures some { IfOk result (λ n. 0 < length piece.now → 0 < n) }
        ensures taken { IfOk result (λ n. Takes (K.taken self.old.sink) (K.taken self.new.sink)
            (erased self.old.bar ++ take n piece.now)) }
        ensures bar { self.new.bar ≡ None }
        ensures faults { self.new.faults ≡ self.old.faults }
        ensures inner { CountsFault (K.faults self.old.sink) (K.faults self.new.sink) result }
    {
        self.clear()?;
        self.sink.write(piece)
    }

    /// Erases the bar, unless the sink fails, and hands back the sink.
    pub fn into_sink(self) -> K
        ensures { Erases (K.taken self.sink) (K.taken result) (K.faults self.sink) (K.faults result) self.bar }
    {
        let BarSink {
            mut sink,
            bar,
            faults: _,
        } = self;
        let _ = erase(&mut sink, bar);
        sink
    }
}

impl<K: Sink> Sink for BarSink<K> {
    ghost taken = { λ _. None };

    ghost faults = { λ s. s.faults };

    /// Erases the bar, and writes a front part of a piece. It fails exactly if its own sink did (`inner`).
    fn write(&mut self, piece: &[u8]) -> Result<usize, Failed>
        ensures within { IfOk result (λ n. n ≤ length piece.now) }
        ensures some { IfOk result (λ n. 0 < length piece.now → 0 < n) }
        ensures taken { IfOk result (λ n. Takes (⟦<BarSink<K> as Sink>⟧.taken self.old)
            (⟦<BarSink<K> as Sink>⟧.taken self.new) (take n piece.now)) }
        ensures err { OnErr result (⟦<BarSink<K> as Sink>⟧.taken self.new ≡ ⟦<BarSink<K> as Sink>⟧.taken self.old) }
        ensures fault { CountsFault self.old.faults self.new.faults result }
        ensures behind { IfOk result (λ n. Takes (K.taken self.old.sink) (K.taken self.new.sink)
            (erased self.old.bar ++ take n piece.now)) }
        ensures bar { self.new.bar ≡ None }
        ensures inner { CountsFault (K.faults self.old.sink) (K.faults self.new.sink) result }
    {
        match self.write_behind(piece) {
            Ok(written) => Ok(written),
            Err(failed) => {
                self.faults = self.faults.saturating_add(1);
                Err(failed)
            }
        }
    }
}
