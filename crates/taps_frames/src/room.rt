// Writing into a vector.
ghost use Rattle.std.specs.Prelude.{◌≡◌, ◌+◌, ◌≤◌, ◌++◌, length, take, vec_len, vec_capacity, IsOk, OnOk, OnErr};
ghost use Rattle.taps_frames.specs.Bodies.{is_body};

use taps_base::NoMemory;

/// Puts bytes behind those of a vector that has the room.
pub(crate) fn put(bytes: &[u8], out: &mut Vec<u8>)
    requires room { vec_len out.old + length bytes.now ≤ vec_capacity out.old }
    ensures items { out.new.items ≡ out.old.items ++ bytes.now }
    ensures len { vec_len out.new ≡ vec_len out.old + length bytes.now }
    ensures capacity { vec_capacity out.old ≤ vec_capacity out.new }
{
    out.extend_from_slice(bytes).unwrap();
}

/// Appends a head, a body and a tail.
pub(crate) fn write_parts(
    head: &[u8],
    body: &[u8],
    tail: &[u8],
    out: &mut Vec<u8>,
) -> Result<(), NoMemory>
    requires { length head.now + length body.now + length tail.now ≤ 4194304 }
    ensures written { OnOk result (out.new.items ≡ out.old.items ++ (head.now ++ (body.now ++ tail.now))) }
    ensures unchanged { OnErr result (out.new.items ≡ out.old.items) }
    ensures room { vec_len out.old + (length head.now + length body.now + length tail.now) ≤ vec_capacity out.old
        → IsOk result }
{
    out.reserve(head.len() + body.len() + tail.len())?;
    put(head, out);
    put(body, out);
    put(tail, out);
    Ok(())
}

/// Whether a body has from `least` to `most` bytes.
pub(crate) fn is_of_size(body: &[u8], least: usize, most: usize) -> bool
    ensures { result ≡ is_body least most body.now }
{
    least <= body.len() && body.len() <= most
}

/// The first bytes, at most so many.
pub(crate) fn first_of(bytes: &[u8], most: usize) -> &[u8]
    ensures { result.now ≡ take most bytes.now }
{
    if most < bytes.len() {
        &bytes[..most]
    } else {
        bytes
    }
}
