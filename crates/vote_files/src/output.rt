//! Writing a text whole.

ghost use Rattle.std.specs.Prelude.{◌≡◌, ◌+◌, ◌<◌, ◌≤◌, ◌↔◌, true, IsErr, OnErr, OnOk, length};
ghost use Rattle.std.specs.Io.KnownBytes.{Appends};
ghost use Rattle.vote_files.specs.Device.{AppendsPrefix};

use crate::device::{DeviceFault, Sink};

/// Writes the text, all of it and nothing else, and flushes the sink once. It returns an error exactly when a `put` or the flush
/// failed, or a `put` took no bytes; a prefix of the text was written then. The sink is called at most once for each byte of the
/// text, and once for the flush.
pub fn write_text<W: Sink>(sink: &mut W, text: &[u8]) -> Result<(), DeviceFault>
    ensures ok { OnOk result (Appends (W.contents sink.old) (W.contents sink.new) text.now) }
    ensures err { OnErr result (AppendsPrefix (W.contents sink.old) (W.contents sink.new) text.now) }
    ensures fault { IsErr result ↔ (W.faults sink.old < W.faults sink.new) }
    ensures flushed { OnOk result (W.flushed sink.new ≡ true) }
    ensures unfailed { OnOk result (W.faults sink.new ≡ W.faults sink.old) }
    ensures calls { W.calls sink.new ≤ W.calls sink.old + length text.now + 1 }
{
    let mut rest = text;
    while !rest.is_empty() {
        let taken = sink.put(rest)?;
        if taken == 0 {
            return Err(DeviceFault);
        }
        rest = &rest[taken..];
    }
    sink.flush()
}
