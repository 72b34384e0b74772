//! Writing all of some bytes.
ghost use Rattle.std.specs.Prelude.{◌≡◌, ℕ, ◌≤◌, List, OnOk, OnErr};
ghost use Rattle.std.specs.Io.KnownBytes.{Appends};
ghost use Rattle.blk_base.specs.Streams.{Rose, AppendsFront};

use crate::Sink;

/// A sink failed, or took nothing of a piece that is not empty.
#[derive(Clone, Copy, Debug, PartialEq, Eq)]
pub struct SinkFault;

/// Writes all of the bytes. Where the sink fails, a front of them went out.
pub fn write_all<W: Sink>(out: &mut W, bytes: &[u8]) -> Result<(), SinkFault>
    ensures ok { OnOk result (Appends (W.taken out.old) (W.taken out.new) bytes.now) }
    ensures front { OnErr result (AppendsFront (W.taken out.old) (W.taken out.new) bytes.now) }
    ensures fault { OnErr result (Rose (W.faults out.old) (W.faults out.new)) }
    ensures steady { OnOk result (W.faults out.new ≡ W.faults out.old) }
    ensures never_falls { W.faults out.old ≤ W.faults out.new }
{
    let mut at = 0;
    while at < bytes.len() {
        let (_, rest) = bytes.split_at(at);
        match out.write(rest) {
            Ok(0) => return Err(SinkFault),
            Ok(n) => at += n,
            Err(_) => return Err(SinkFault),
        }
    }
    Ok(())
}
