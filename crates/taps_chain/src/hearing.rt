ghost use Rattle.std.specs.Prelude.{◌≡◌, ◌+◌, ◌≤◌, ◌<◌, [], None, Some, length, slice_get, IfSome, IfOk};
ghost use Rattle.taps_chain.specs.Kept.{HasKept};
ghost use Rattle.taps_chain.specs.Layers.{layers_of};
ghost use Rattle.taps_chain.specs.ChainLaws.{AreFramers};
ghost use Rattle.taps_chain.specs.Hearings.{joined, IsHearingOf, IsUnderWay, Waits};

use crate::next::{Found, next_uncounted};
use crate::progress::Progress;
use crate::{BadAt, Chain, Heard, MessageSink};
use std::alloc::Global;
use taps_base::{Body, List, NoMemory};
use taps_framer::Framer;

/// How the hearing of bytes ends.
#[derive(Debug, Drop)]
pub struct Hearing {
    /// `Need`, `Bad` or `NoMemory`, and never a message.
    pub end: Heard,
    /// The number of bytes behind the messages, also of those that came after a Bad.
    pub rest: u64,
}

/// Hears the messages of the pieces, one piece behind the other.
pub fn hear_pieces(chain: Chain<'_>, pieces: &List<Body>, sink: &mut List<Body>) -> Hearing
    requires some { 0 < length (layers_of ⟦<dyn Framer as Framer>⟧ chain) }
    requires empty { sink.old.items ≡ [] }
    requires few { length (joined pieces.now.items) ≤ 4194304 }
    ensures { IsHearingOf (layers_of ⟦<dyn Framer as Framer>⟧ chain.entry)
        (joined pieces.now.items) sink.new.items result.end result.rest }
{
    chain.vouch_each();
    let bytes = match joined_bytes(chain.allocator(), pieces.as_slice()) {
        Ok(bytes) => bytes,
        Err(NoMemory) => return out_of_memory(),
    };
    hear_joined(&chain, &bytes, pieces.as_slice(), sink)
}

/// Hears the messages of bytes that come in pieces of so many bytes, the last of which may be
/// shorter. The sink keeps each as soon as it is heard.
pub fn hear_bytes<S: MessageSink>(
    chain: Chain<'_>,
    bytes: &[u8],
    piece: usize,
    sink: &mut S,
) -> Hearing
    requires some { 0 < length (layers_of ⟦<dyn Framer as Framer>⟧ chain) }
    requires empty { S.Keeps sink.old [] }
    requires few { length bytes.now ≤ 4194304 }
    requires piece { 1 ≤ piece }
    ensures { HasKept (S.Keeps sink.new) (λ messages. IsHearingOf (layers_of ⟦<dyn Framer as Framer>⟧ chain.entry)
        bytes.now messages result.end result.rest) }
{
    chain.vouch_each();
    let first = chain.at(0);
    let mut progress = Progress::start(first);
    'pieces: while progress.fed < bytes.len() {
        progress.take_piece(first, bytes, piece);
        if let Some(hearing) = hear_more(&chain, first, bytes, 0, &mut progress, sink) {
            return hearing;
        }
    }
    needs_more(bytes, &progress)
}

// The pieces in one buffer, one behind the other.
fn joined_bytes(alloc: Global, pieces: &[Body]) -> Result<Vec<u8>, NoMemory>
    ensures { IfOk result (λ bytes. bytes.items ≡ joined pieces.now) }
{
    let mut bytes = Vec::new(alloc);
    for piece in pieces {
        bytes.extend_from_slice(piece.bytes())?;
    }
    Ok(bytes)
}

// Hears the messages of the pieces, which are these bytes.
fn hear_joined(chain: &Chain<'_>, bytes: &[u8], pieces: &[Body], sink: &mut List<Body>) -> Hearing
    requires some { 0 < length (layers_of ⟦<dyn Framer as Framer>⟧ chain.now) }
    requires framers { AreFramers (layers_of ⟦<dyn Framer as Framer>⟧ chain.now) }
    requires empty { sink.old.items ≡ [] }
    requires few { length bytes.now ≤ 4194304 }
    requires joined { bytes.now ≡ joined pieces.now }
    ensures { IsHearingOf (layers_of ⟦<dyn Framer as Framer>⟧ chain.now)
        bytes.now sink.new.items result.end result.rest }
{
    let first = chain.at(0);
    let mut progress = Progress::start(first);
    for piece in pieces {
        let more = piece.bytes().len();
        if let Some(hearing) = hear_more(chain, first, bytes, more, &mut progress, sink) {
            return hearing;
        }
    }
    needs_more(bytes, &progress)
}

// Hears all messages of the bytes that came, so many more now. It answers only where the hearing ends.
fn hear_more<S: MessageSink>(
    chain: &Chain<'_>,
    first: &Box<dyn Framer>,
    bytes: &[u8],
    more: usize,
    progress: &mut Progress,
    sink: &mut S,
) -> Option<Hearing>
    requires first { slice_get (layers_of ⟦<dyn Framer as Framer>⟧ chain.now) 0 ≡ Some (layer first.now) }
    requires framers { AreFramers (layers_of ⟦<dyn Framer as Framer>⟧ chain.now) }
    requires few { length bytes.now ≤ 4194304 }
    requires more { progress.old.fed + more ≤ length bytes.now }
    requires heard { HasKept (S.Keeps sink.old) (λ messages. IsUnderWay (layers_of ⟦<dyn Framer as Framer>⟧ chain.now)
        (layer first.now) (scans first.now) bytes.now messages progress.old) }
    ensures fed { progress.new.fed ≡ progress.old.fed + more }
    ensures goes_on { result ≡ None → HasKept (S.Keeps sink.new) (λ messages.
        Waits (layers_of ⟦<dyn Framer as Framer>⟧ chain.now)
        (layer first.now) (scans first.now) bytes.now messages progress.new) }
    ensures ends { IfSome result (λ hearing. HasKept (S.Keeps sink.new) (λ messages.
        IsHearingOf (layers_of ⟦<dyn Framer as Framer>⟧ chain.now) bytes.now messages hearing.end hearing.rest)) }
{
    progress.fed += more;
    'messages: loop {
        let unread = &bytes[progress.taken..progress.fed];
        match next_uncounted(chain, first, progress.index, unread, &mut progress.look) {
            Found::Message(body) => {
                if let Err(NoMemory) = sink.keep(progress.index, body) {
                    return Some(out_of_memory());
                }
                progress.take_out(first);
            }
            Found::Need => return None,
            Found::Bad { layer, place } => return Some(fails(bytes, progress, layer, place)),
            Found::NoMemory => return Some(out_of_memory()),
        }
    }
}

// How the hearing ends where memory runs out.
fn out_of_memory() -> Hearing
    ensures { result.end ≡ Heard.NoMemory }
{
    Hearing {
        end: Heard::NoMemory,
        rest: 0,
    }
}

// How the hearing ends where the unread bytes are bad.
fn fails(bytes: &[u8], progress: &Progress, layer: u8, place: u64) -> Hearing
    requires { progress.now.taken ≤ length bytes.now }
    ensures end { result.end ≡ Heard.Bad (record { message = progress.now.index; layer = layer; place = place }) }
    ensures rest { result.rest + progress.now.taken ≡ length bytes.now }
{
    let bad = BadAt {
        message: progress.index,
        layer,
        place,
    };
    Hearing {
        end: Heard::Bad(bad),
        rest: (bytes.len() - progress.taken) as u64,
    }
}

// How the hearing ends where all bytes came.
fn needs_more(bytes: &[u8], progress: &Progress) -> Hearing
    requires { progress.now.taken ≤ length bytes.now }
    ensures end { result.end ≡ Heard.Need }
    ensures rest { result.rest + progress.now.taken ≡ length bytes.now }
{
    Hearing {
        end: Heard::Need,
        rest: (bytes.len() - progress.taken) as u64,
    }
}
