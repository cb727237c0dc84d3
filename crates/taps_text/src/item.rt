// The line of an item of a trace.
ghost use Rattle.std.specs.Prelude.{◌++◌, codes};
ghost use Rattle.std.specs.Fmt.{decimal};
ghost use Rattle.taps_endpoint.specs.CanonicalTexts.{canonical_text};
ghost use Rattle.taps_socket.specs.CauseWords.{cause_word};
ghost use Rattle.taps_text.specs.Appends.{Appends};
ghost use Rattle.taps_text.specs.ItemLines.{at_moment, how_text, item_line, item_lines};

use crate::cause::word_of;
use crate::part::Part::{Number, Place, Words};
use crate::part::append_parts;
use taps_base::NoMemory;
use taps_endpoint::Address;
use taps_socket::{Cause, How, Item};

/// Appends a line for each item to the text, in their order.
pub fn put_items(text: &mut Vec<u8>, items: &[Item]) -> Result<(), NoMemory>
    ensures { Appends result text.old.items text.new.items (item_lines items.now) }
{
    for item in items {
        put_item(text, item)?;
    }
    Ok(())
}

/// Appends the line of an item to the text.
#[tactic(auto, unfolding(crate::specs::ItemLines::item_line))]
pub fn put_item(text: &mut Vec<u8>, item: &Item) -> Result<(), NoMemory>
    ensures { Appends result text.old.items text.new.items (item_line item.now) }
{
    match item {
        Item::Began { at } => append_last(text, b"begin ", *at),
        Item::Started {
            leaf,
            target: _,
            socket,
            at,
        } => append_started(text, *leaf, *socket, *at),
        Item::Refused {
            leaf,
            target: _,
            cause,
            at,
        } => append_refused(text, *leaf, *cause, *at),
        Item::Waited { until, at, how } => append_waited(text, *until, *at, *how),
        Item::Closed { socket } => append_last(text, b"close ", *socket as u64),
        Item::Listening { target, socket, at } => {
            append_listening(text, *socket, &target.address, *at)
        }
        Item::NotListening {
            target: _,
            cause,
            at,
        } => append_not_listening(text, *cause, *at),
        Item::Accepted {
            listener,
            socket,
            at,
        } => append_accepted(text, *socket, *listener, *at),
        Item::Faulted { at } => append_last(text, b"faulted at ", *at),
        Item::Shut { socket } => append_last(text, b"shut ", *socket as u64),
        Item::Ended { socket } => append_last(text, b"ended ", *socket as u64),
        Item::DataFailed {
            socket,
            sending: _,
            cause,
        } => append_failed(text, *socket, *cause),
    }
}

// Words, a number, and the end of the line.
fn append_last(text: &mut Vec<u8>, words: &[u8], number: u64) -> Result<(), NoMemory>
    ensures { Appends result text.old.items text.new.items (words.now ++ (decimal number ++ codes "\n")) }
{
    append_parts(text, &[Number(words, number), Words(b"\n")])
}

fn append_started(text: &mut Vec<u8>, leaf: u32, socket: u32, at: u64) -> Result<(), NoMemory>
    ensures { Appends result text.old.items text.new.items
        (codes "start " ++ (decimal leaf ++ (codes " socket " ++ (decimal socket ++ at_moment at)))) }
{
    append_parts(
        text,
        &[
            Number(b"start ", leaf as u64),
            Number(b" socket ", socket as u64),
            Number(b" at ", at),
            Words(b"\n"),
        ],
    )
}

fn append_refused(text: &mut Vec<u8>, leaf: u32, cause: Cause, at: u64) -> Result<(), NoMemory>
    ensures { Appends result text.old.items text.new.items
        (codes "start " ++ (decimal leaf ++ (codes " refused " ++ (cause_word cause ++ at_moment at)))) }
{
    append_parts(
        text,
        &[
            Number(b"start ", leaf as u64),
            Words(b" refused "),
            Words(word_of(cause)),
            Number(b" at ", at),
            Words(b"\n"),
        ],
    )
}

fn append_waited(text: &mut Vec<u8>, until: u64, at: u64, how: How) -> Result<(), NoMemory>
    ensures { Appends result text.old.items text.new.items (codes "wait " ++ (decimal until ++ how_text how at)) }
{
    match how {
        How::Reached => append_parts(
            text,
            &[
                Number(b"wait ", until),
                Number(b" reached ", at),
                Words(b"\n"),
            ],
        ),
        How::Completed(socket) => append_parts(
            text,
            &[
                Number(b"wait ", until),
                Number(b" completed ", socket as u64),
                Number(b" at ", at),
                Words(b"\n"),
            ],
        ),
        How::Broke(socket, cause) => append_parts(
            text,
            &[
                Number(b"wait ", until),
                Number(b" broke ", socket as u64),
                Words(b" "),
                Words(word_of(cause)),
                Number(b" at ", at),
                Words(b"\n"),
            ],
        ),
        How::Faulted => append_parts(
            text,
            &[
                Number(b"wait ", until),
                Number(b" faulted at ", at),
                Words(b"\n"),
            ],
        ),
    }
}

fn append_listening(
    text: &mut Vec<u8>,
    socket: u32,
    address: &Address,
    at: u64,
) -> Result<(), NoMemory>
    ensures { Appends result text.old.items text.new.items
        (codes "listen " ++ (decimal socket ++ (codes " " ++ (canonical_text address.now ++ at_moment at)))) }
{
    append_parts(
        text,
        &[
            Number(b"listen ", socket as u64),
            Words(b" "),
            Place(address),
            Number(b" at ", at),
            Words(b"\n"),
        ],
    )
}

fn append_not_listening(text: &mut Vec<u8>, cause: Cause, at: u64) -> Result<(), NoMemory>
    ensures { Appends result text.old.items text.new.items
        (codes "listen refused " ++ (cause_word cause ++ at_moment at)) }
{
    append_parts(
        text,
        &[
            Words(b"listen refused "),
            Words(word_of(cause)),
            Number(b" at ", at),
            Words(b"\n"),
        ],
    )
}

fn append_accepted(text: &mut Vec<u8>, socket: u32, listener: u32, at: u64) -> Result<(), NoMemory>
    ensures { Appends result text.old.items text.new.items
        (codes "accept " ++ (decimal socket ++ (codes " from " ++ (decimal listener ++ at_moment at)))) }
{
    append_parts(
        text,
        &[
            Number(b"accept ", socket as u64),
            Number(b" from ", listener as u64),
            Number(b" at ", at),
            Words(b"\n"),
        ],
    )
}

fn append_failed(text: &mut Vec<u8>, socket: u32, cause: Cause) -> Result<(), NoMemory>
    ensures { Appends result text.old.items text.new.items
        (codes "failed " ++ (decimal socket ++ (codes " " ++ (cause_word cause ++ codes "\n")))) }
{
    append_parts(
        text,
        &[
            Number(b"failed ", socket as u64),
            Words(b" "),
            Words(word_of(cause)),
            Words(b"\n"),
        ],
    )
}
