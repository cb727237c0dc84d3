// What `bench/throughput` measures of the adapter alone: 64 MiB from one socket to another, in pieces of 65,536 bytes.
ghost use Rattle.std.specs.Prelude.{◌≡◌, ◌≤◌, length, true, Ok};
ghost use Rattle.taps_stack.specs.StackTable.{is_stream};
ghost use Rattle.taps_socket.specs.Sides.{carries_stream, may_send, may_receive};
ghost use Rattle.taps_real_rows.specs.Pairs.{IsPair, HasNoItem};

use crate::pair_rows::pair;
use std::alloc::Global;
use std::fs;
use std::net::Net;
use std::process::Abort;
use std::rt::Runtime;
use std::test::Fail;
use taps_base::NoMemory;
use taps_endpoint::parse_address;
use taps_real::RealSockets;
use taps_socket::{RecvAnswer, SendAnswer, Sockets, Target};
use taps_stack::Stack;

const UNTIL: u64 = 60_000;

const PIECES: u64 = 1024;

// Whether so many bytes came.
fn receive_all<N: Sockets>(socket: u32, left: usize, out: &mut [u8], net: &mut N) -> bool
    requires may { may_receive (N.net net.old).trace socket ≡ true }
    requires room { 1 ≤ (N.net net.old).spare }
    requires most { length out.old ≡ 65536 }
    ensures still { result ≡ true → HasNoItem (N.net net.old) (N.net net.new) }
    ensures most { length out.new ≡ 65536 }
{
    if left == 0 {
        return true;
    }
    match net.recv(socket, out, UNTIL) {
        RecvAnswer::Got { count, .. } => {
            count > 0 && count <= left && receive_all(socket, left - count, out, net)
        }
        RecvAnswer::End | RecvAnswer::Timed { .. } | RecvAnswer::Failed(_) => false,
    }
}

// Whether the piece was sent whole.
fn send_piece<N: Sockets>(socket: u32, piece: &[u8], net: &mut N) -> Result<bool, NoMemory>
    requires may { may_send (N.net net.old).trace socket ≡ true }
    requires room { 1 ≤ (N.net net.old).spare }
    requires stream { carries_stream (N.net net.old).trace socket ≡ true }
    requires most { length piece.now ≡ 65536 }
    ensures { result ≡ Ok true → HasNoItem (N.net net.old) (N.net net.new) }
{
    net.make_room(socket, piece.len())?;
    match net.send(socket, piece, UNTIL) {
        SendAnswer::Sent { count, .. } => Ok(count == piece.len()),
        SendAnswer::Timed { .. } | SendAnswer::Failed(_) => Ok(false),
    }
}

// Whether so many pieces came over, one behind the other.
fn carry<N: Sockets>(
    near: u32,
    far: u32,
    pieces: u64,
    piece: &[u8],
    out: &mut [u8],
    net: &mut N,
) -> Result<bool, NoMemory>
    requires pair { IsPair near far 1 (N.net net.old) }
    requires most { length piece.now ≡ 65536 }
    requires out { length out.old ≡ 65536 }
{
    if pieces == 0 {
        return Ok(true);
    }
    if !send_piece(near, piece, net)? || !receive_all(far, piece.len(), out, net) {
        return Ok(false);
    }
    carry(near, far, pieces - 1, piece, out, net)
}

// Whether all pieces came over.
fn carry_all<N: Sockets>(
    alloc: Global,
    near: u32,
    far: u32,
    pieces: u64,
    net: &mut N,
) -> Result<bool, Fail>
    requires { IsPair near far 4 (N.net net.old) }
{
    let piece = vec![in alloc; 7; 65536]?;
    let mut out = vec![in alloc; 0; 65536]?;
    Ok(carry(near, far, pieces, &piece, &mut out, net)?)
}

// Whether all pieces came over a new pair.
fn carried_over<R: Abort + Runtime + Net + AllocGlobal + Copy>(
    rt: &R,
    stack: Stack,
    text: &[u8],
    pieces: u64,
) -> Result<bool, Fail>
    requires { is_stream stack ≡ true }
{
    let address = parse_address(text)?;
    let mut net = RealSockets::new(rt.alloc(), *rt)?;
    net.reserve(9)?;
    match pair(Target { stack, address }, &mut net) {
        Some((near, far)) => carry_all(rt.alloc(), near, far, pieces, &mut net),
        None => Ok(false),
    }
}

#[test]
fn pieces_over_tcp(rt: HostRuntime) -> Result<(), Fail> {
    assert!(rt; carried_over(&rt, Stack::Tcp, b"127.0.0.1:47118", PIECES)?);
    Ok(())
}

#[test]
fn pieces_over_a_unix_path(rt: HostRuntime) -> Result<(), Fail> {
    let _ = fs::remove_file(&rt, "bench.sock");
    assert!(rt; carried_over(&rt, Stack::Unix, b"unix:bench.sock", PIECES)?);
    Ok(())
}
