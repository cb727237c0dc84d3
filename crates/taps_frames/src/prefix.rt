// Heads behind bytes that are known.
ghost use Rattle.std.specs.Prelude.{◌≡◌, ◌++◌, drop, MatchResult};
ghost use Rattle.taps_frames.specs.Heads.{IsOfPrefix, IsMoved};

use crate::head::Head;

/// The bytes behind a prefix, or what stands at the start of bytes that do not begin with it.
pub(crate) fn strip<'a>(prefix: &[u8], buffer: &'a [u8]) -> Result<&'a [u8], Head>
    ensures { MatchResult result (λ rest. buffer.now ≡ prefix.now ++ rest.now) (IsOfPrefix prefix.now buffer.now) }
{
    for place in 0..prefix.len() {
        if place == buffer.len() {
            return Err(Head::Need);
        }
        if buffer[place] != prefix[place] {
            return Err(Head::Bad { place });
        }
    }
    Ok(&buffer[prefix.len()..])
}

/// What stands where a head stands behind a prefix of this width. No sum is past a buffer's end.
pub(crate) fn moved(width: usize, inner: Head) -> Head
    ensures { IsMoved width inner result }
{
    match inner {
        Head::Need => Head::Need,
        Head::Bad { place } => Head::Bad {
            place: width.saturating_add(place),
        },
        Head::Whole { width: own, size } => Head::Whole {
            width: width.saturating_add(own),
            size,
        },
    }
}

/// The bytes that follow the first `width`.
pub(crate) fn behind(bytes: &[u8], width: usize) -> &[u8]
    ensures { result.now ≡ drop width bytes.now }
{
    if width < bytes.len() {
        &bytes[width..]
    } else {
        &[]
    }
}
