ghost use Rattle.std.specs.Prelude.{◌≡◌, ◌≤◌, length, OnOk, IfErr, MatchResult, true};
ghost use Rattle.mapdefs.specs.declared.limits.TheConstants.{MAX_LAYERS};
ghost use Rattle.streams.specs.Sent.{IsSent, IsCut};
ghost use Rattle.subcommands.specs.Summary.{feature_count, summary_line};

use itoa::Buffer;
use mapdefs::{Layer, Map};
use streams::{Sink, WriteFault, put_pieces};

// How many features the layers have in all.
fn feature_count(layers: &[Layer]) -> u64
    requires few { length layers.now ≤ MAX_LAYERS }
    ensures { result ≡ feature_count layers.now }
{
    let mut count = 0;
    for layer in layers {
        count += layer.get().features.len() as u64;
    }
    count
}

/// Writes the line with the number of layers of a map, and of features. The error is that the writer failed: exactly
/// the first `written` bytes of the line were written, and not all of them.
///
/// It takes no memory.
pub fn summary<S: Sink>(map: &Map, sink: &mut S) -> Result<(), WriteFault>
    ensures sent { OnOk result (IsSent S.held S.taken sink.old (summary_line map.now) sink.new) }
    ensures cut { IfErr result (λ fault. IsCut S.held S.taken sink.old (summary_line map.now) fault.written sink.new) }
    ensures flag { MatchResult result (λ _. S.put_failed sink.new ≡ S.put_failed sink.old) (λ _. S.put_failed sink.new ≡ true) }
{
    let layers = map.get().layers.as_slice();
    let (mut layer_digits, mut feature_digits) = (Buffer::new(), Buffer::new());
    let layer_count = layer_digits.format(layers.len() as u64).as_bytes();
    let feature_count = feature_digits.format(feature_count(layers)).as_bytes();
    let before = sink.taken();
    let line: [&[u8]; 5] = [
        b"ok ",
        layer_count,
        b" layers ",
        feature_count,
        b" features\n",
    ];
    match put_pieces(sink, &line) {
        Ok(()) => Ok(()),
        Err(_) => Err(WriteFault::since(sink, before)),
    }
}
