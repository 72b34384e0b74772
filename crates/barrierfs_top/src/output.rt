//! What goes out.
ghost use Rattle.std.specs.Prelude.{◌≡◌, ◌≤◌, OnOk, OnErr};
ghost use Rattle.std.specs.List.{concat};
ghost use Rattle.std.specs.Io.KnownBytes.{Appends};
ghost use Rattle.blk_base.specs.Streams.{Rose, AppendsFront};
ghost use Rattle.barrierfs_top.specs.Text.{output_bytes};

use blk_base::{Image, Sink, SinkFault, write_all};

/// What a task has to write.
#[derive(Drop)]
pub enum Output {
    Text(String),
    /// The bytes of all blocks, in order.
    Image(Image),
}

impl Output {
    /// Writes all of it. Where the sink fails, a front of it went out.
    pub fn write<W: Sink>(&self, out: &mut W) -> Result<(), SinkFault>
        ensures ok { OnOk result (Appends (W.taken out.old) (W.taken out.new) (output_bytes self.now)) }
        ensures front { OnErr result (AppendsFront (W.taken out.old) (W.taken out.new) (output_bytes self.now)) }
        ensures fault { OnErr result (Rose (W.faults out.old) (W.faults out.new)) }
        ensures steady { OnOk result (W.faults out.new ≡ W.faults out.old) }
    {
        match self {
            Output::Text(text) => write_all(out, text.as_bytes()),
            Output::Image(image) => write_image(out, image),
        }
    }
}

fn write_image<W: Sink>(out: &mut W, image: &Image) -> Result<(), SinkFault>
    ensures ok { OnOk result (Appends (W.taken out.old) (W.taken out.new) (concat image.now)) }
    ensures front { OnErr result (AppendsFront (W.taken out.old) (W.taken out.new) (concat image.now)) }
    ensures fault { OnErr result (Rose (W.faults out.old) (W.faults out.new)) }
    ensures steady { OnOk result (W.faults out.new ≡ W.faults out.old) }
{
    for b in 0..image.len() {
        write_all(out, image.block(b).as_slice())?;
    }
    Ok(())
}
