//! Writing the text of a run.

ghost use Rattle.std.specs.Prelude.{◌≡◌, ◌<◌, ◌↔◌, true, IfErr, IsErr, OnOk};
ghost use Rattle.std.specs.Result.{result_err};
ghost use Rattle.vote_commands.specs.Runs.{Writes};

use crate::fault::{Ended, RunFault};
use std::marker::Model;
use vote_files::{DeviceFault, Sink, write_text};

/// The text that a run is to write, and how the run ends after that.
#[derive(Drop)]
pub(crate) struct RunText {
    pub text: String,
    pub ended: Ended,
}

impl Model for RunText {
    ghost use Rattle.std.specs.Prelude.{string_bytes};
    ghost use Rattle.vote_commands.specs.TextAndEnd.{TextAndEnd};

    ghost Value = { TextAndEnd };

    ghost view = { λ run. record { text = string_bytes run.text; end = run.ended } };
}

/// Writes the text of a run. Only the output can fail from here on.
pub(crate) fn write_run<W: Sink>(sink: &mut W, text: &[u8]) -> Result<(), RunFault>
    ensures writes { Writes (λ meant. meant ≡ text.now) (W.contents sink.old) (W.contents sink.new)
        (result_err result) }
    ensures only { IfErr result (λ fault. fault ≡ RunFault.Output) }
    ensures output { IsErr result ↔ (W.faults sink.old < W.faults sink.new) }
    ensures flushed { OnOk result (W.flushed sink.new ≡ true) }
{
    match write_text(sink, text) {
        Ok(()) => Ok(()),
        Err(DeviceFault) => Err(RunFault::Output),
    }
}
