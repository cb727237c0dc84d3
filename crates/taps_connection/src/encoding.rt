// The bytes of a message on a socket.
ghost use Rattle.std.specs.Prelude.{[], ◌≡◌, ◌≤◌, ◌<◌, ◌^◌, ℕ, true, false, None, not, ◌==◌, List, length, MatchResult};
ghost use Rattle.taps_framer.specs.Layers.{Layer};
ghost use Rattle.taps_chain.specs.Layers.{layers_of};
ghost use Rattle.taps_chain.specs.Wraps.{IsRefusal};
ghost use Rattle.taps_chain.specs.Chained.{chain_refusal};
ghost use Rattle.taps_socket.specs.Sides.{may_send};
ghost use Rattle.taps_connection.specs.Adds.{IsRoomier};
ghost use Rattle.taps_connection.specs.Encodings.{index_of, carrier_refusal, ends_of, encoding_of};
ghost use Rattle.taps_connection.specs.Encoded.{IsFramed, IsEncoded, IsEncodedAs, refused_by, bytes_by};

use taps_base::Body;
use taps_chain::{Chain, WrapError};
use taps_framer::Framer;
use taps_message::Message;
use taps_socket::Sockets;

const DATAGRAM: usize = 65507;

// A message with its bytes, or why it has none.
#[derive(Drop)]
pub enum Encoded {
    Bytes(Body),
    NotSpeakable(u8),
    NoMemory(Message),
}

// The index that the framers are handed.
fn index_of(stream: bool, sent: u64) -> u64
    ensures { result ≡ index_of stream sent }
{
    if stream { sent } else { 0 }
}

// Whether the sending side is ended behind a message, final or not.
pub fn ends_of(chain: &Chain<'_>, stream: bool, is_final: bool) -> bool
    ensures { result ≡ ends_of stream (layers_of ⟦<dyn Framer as Framer>⟧ chain.now) is_final }
{
    stream && (is_final || chain.is_empty())
}

// Whether a carrier refuses bytes behind so many sent messages.
fn refuses(stream: bool, layered: bool, sent: u64, bytes: &[u8]) -> bool
    ensures { (fs : List Layer) → layered ≡ not (length fs == 0) →
        carrier_refusal stream fs sent bytes.now ≡ refused_by result }
{
    if stream {
        !layered && sent >= 1
    } else {
        bytes.is_empty() || bytes.len() > DATAGRAM
    }
}

// The bytes of a body through a chain that has a layer.
fn framed(chain: &Chain<'_>, index: u64, body: &[u8]) -> Result<Body, WrapError>
    requires { 0 < length (layers_of ⟦<dyn Framer as Framer>⟧ chain.now) }
    ensures { MatchResult result (IsFramed (layers_of ⟦<dyn Framer as Framer>⟧ chain.now) index body.now)
        (IsRefusal (chain_refusal (layers_of ⟦<dyn Framer as Framer>⟧ chain.now) index body.now)) }
{
    chain.vouch();
    match chain.wrap(index, body) {
        Ok(bytes) => Ok(Body::from_vec(bytes)),
        Err(error) => Err(error),
    }
}

// The bytes of a body; none where it is its own.
fn bytes_of(
    chain: &Chain<'_>,
    stream: bool,
    sent: u64,
    body: &[u8],
) -> Result<Option<Body>, WrapError>
    requires { length body.now ≤ 4194304 }
    ensures { MatchResult result
        (λ bytes. IsEncoded stream (layers_of ⟦<dyn Framer as Framer>⟧ chain.now) sent body.now
        (bytes_by bytes body.now))
        (IsRefusal ((encoding_of stream (layers_of ⟦<dyn Framer as Framer>⟧ chain.now)).refusal sent body.now)) }
{
    if chain.is_empty() {
        if refuses(stream, false, sent, body) {
            return Err(WrapError::NotSpeakable(0));
        }
        return Ok(None);
    }
    match framed(chain, index_of(stream, sent), body) {
        Ok(bytes) => {
            if refuses(stream, true, sent, bytes.bytes()) {
                return Err(WrapError::NotSpeakable(0));
            }
            Ok(Some(bytes))
        }
        Err(error) => Err(error),
    }
}

// The bytes that were made, or else the body, which needs no copy.
fn chosen(bytes: Option<Body>, message: Message) -> Body
    ensures { result ≡ bytes_by bytes message.body }
{
    match bytes {
        Some(bytes) => bytes,
        None => message.body,
    }
}

// The number of bytes.
fn length_of(bytes: &Option<Body>, message: &Message) -> usize
    ensures { result ≡ length (bytes_by bytes.now message.now.body) }
{
    match bytes {
        Some(bytes) => bytes.bytes().len(),
        None => message.body.bytes().len(),
    }
}

// Makes the bytes of a message, and room for them on the socket.
pub fn encode<N: Sockets>(
    chain: &Chain<'_>,
    stream: bool,
    sent: u64,
    net: &mut N,
    socket: u32,
    message: Message,
) -> Encoded
    requires few { length message.body ≤ 4194304 }
    requires may { (encoding_of stream (layers_of ⟦<dyn Framer as Framer>⟧ chain.now)).refusal sent message.body
        ≡ None →
        may_send (N.net net.old).trace socket ≡ true }
    ensures encoded { IsEncodedAs stream (layers_of ⟦<dyn Framer as Framer>⟧ chain.now) sent
        ((N.net net.new).traffic socket).room message result }
    ensures becomes { N.Becomes net.old [] net.new }
    ensures room { IsRoomier socket (N.net net.old) (N.net net.new) }
{
    match bytes_of(chain, stream, sent, message.body.bytes()) {
        Err(WrapError::NotSpeakable(layer)) => Encoded::NotSpeakable(layer),
        Err(WrapError::NoMemory) => Encoded::NoMemory(message),
        Ok(bytes) => match net.make_room(socket, length_of(&bytes, &message)) {
            Ok(()) => Encoded::Bytes(chosen(bytes, message)),
            Err(_) => Encoded::NoMemory(message),
        },
    }
}
