// Heads that tell how long a body is.
ghost use Rattle.std.specs.Prelude.{◌≡◌, length};
ghost use Rattle.std.specs.Int.{w32, from_be_bytes};
ghost use Rattle.taps_frames.specs.Heads.{grown_of, ReachesBody, body_behind};

/// What stands at the start of a buffer where a head is to stand.
#[derive(Clone, Copy)]
pub(crate) enum Head {
    /// The beginning of a head, and no whole one.
    Need,
    /// No head: with the byte at this place none can come any more.
    Bad { place: usize },
    /// A head of `width` bytes, which tells a body of `size` bytes.
    Whole { width: usize, size: usize },
}

/// What the first bytes of a head are with one byte more.
#[derive(Clone, Copy)]
pub(crate) enum Grown {
    /// The beginning of a head, whose bytes make this number.
    Need { value: u64 },
    /// No head: none can come any more.
    Bad,
    /// A whole head, which tells a body of `size` bytes.
    Whole { size: usize },
}

/// The number that four bytes make in network order, where those that have not come are zero.
pub(crate) fn number_in(buffer: &[u8]) -> u32
    ensures { result ≡ from_be_bytes w32 buffer.now }
{
    match buffer {
        [a, b, c, d, ..] => u32::from_be_bytes([*a, *b, *c, *d]),
        [a, b, c] => u32::from_be_bytes([*a, *b, *c, 0]),
        [a, b] => u32::from_be_bytes([*a, *b, 0, 0]),
        [a] => u32::from_be_bytes([*a, 0, 0, 0]),
        [] => 0,
    }
}

/// What the bytes of a head are, of which these follow its prefix.
pub(crate) fn grown_by(head: Head, bytes: &[u8]) -> Grown
    ensures { result ≡ grown_of head bytes.now }
{
    match head {
        Head::Need => Grown::Need {
            value: number_in(bytes) as u64,
        },
        Head::Bad { .. } => Grown::Bad,
        Head::Whole { size, .. } => Grown::Whole { size },
    }
}

/// The body that follows a head.
pub(crate) fn body_of(head: Head, frame: &[u8]) -> &[u8]
    requires { ReachesBody head (length frame.now) }
    ensures { result.now ≡ body_behind head frame.now }
{
    match head {
        Head::Whole { width, size } => &frame[width..width + size],
        _ => unreachable!(),
    }
}
