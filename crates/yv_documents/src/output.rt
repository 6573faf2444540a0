//! What a writer took is passed on.
ghost use Rattle.std.specs.{Prelude.{◌≡◌, ◌<◌, ◌↔◌, true, false}, Io.KnownBytes.{Keeps}};
ghost use Rattle.yv_base_streams.specs.Stream.{stream_inner, stream_interrupts, has_failed, FailsOnceAtMost};

use std::io::Write;
use yv_base_streams::Counted;

/// Has a writer pass on what it took, and answers whether it did. As many interruptions are borne
/// as of its writes.
pub fn flush_all<W: Write>(writer: &mut Counted<W>) -> bool
    // The writer has not failed.
    requires { has_failed writer.old ≡ false }
    // It holds what it held.
    ensures keeps { Keeps (W.contents (stream_inner writer.old))
        (W.contents (stream_inner writer.new)) }
    // False is returned exactly if the writer has failed.
    ensures fault { result ≡ false ↔ (has_failed writer.new ≡ true) }
    // At most one call of the writer failed in a way that is not tolerated, and none came after it.
    ensures once { FailsOnceAtMost writer.new }
{
    while !flush_once(writer) {
        if writer.has_failed() {
            return false;
        }
    }
    true
}

// One flush, and whether it was done.
fn flush_once<W: Write>(writer: &mut Counted<W>) -> bool
    requires { has_failed writer.old ≡ false }
    ensures keeps { Keeps (W.contents (stream_inner writer.old))
        (W.contents (stream_inner writer.new)) }
    ensures ends { result ≡ true → has_failed writer.new ≡ false }
    ensures moves { result ≡ false → has_failed writer.new ≡ false → stream_interrupts writer.old
        < stream_interrupts writer.new }
    ensures once { FailsOnceAtMost writer.new }
{
    writer.flush().is_ok()
}
