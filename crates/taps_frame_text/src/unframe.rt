ghost use Rattle.std.specs.Prelude.{◌≡◌, ◌<◌, ◌≤◌, ◌++◌, length, IfOk, OnOk};
ghost use Rattle.taps_chain.specs.Layers.{layers_of};
ghost use Rattle.taps_frame_text.specs.HearingEnds.{ended_line, has_ended_whole, HasEnded, IsEnd};
ghost use Rattle.taps_frame_text.specs.UnframeLines.{IsHeardAs, IsUnframed, IsOneMessage};
ghost use Rattle.taps_text.specs.OutcomeLines.{outcome_line};
ghost use Rattle.taps_text.specs.declared.outcome.Outcome.TheVariants.{BadFrame};

use crate::FrameText;
use crate::message_lines::MessageLines;
use std::alloc::Global;
use taps_base::NoMemory;
use taps_chain::{BadAt, Chain, Heard, Hearing, hear_bytes};
use taps_framer::Framer;
use taps_text::{Outcome, put_message, put_outcome, put_rest};

/// The messages that bytes decode to, a line each, followed by how many bytes are left, or where they
/// are bad. Through the empty chain all bytes are one message.
#[tactic(auto, using(crate::proofs::HeardAs::unframed_none, crate::proofs::HeardAs::unframed_some))]
pub fn unframe_text(
    alloc: Global,
    chain: Chain<'_>,
    bytes: &[u8],
    piece: u64,
) -> Result<FrameText, NoMemory>
    requires few { length bytes.now ≤ 4194304 }
    requires piece { 1 ≤ piece }
    ensures { IfOk result (λ framed. IsUnframed (layers_of ⟦<dyn Framer as Framer>⟧ chain.entry)
        bytes.now framed.text.items framed.whole) }
{
    if chain.is_empty() {
        one_message(alloc, bytes)
    } else {
        heard_text(alloc, chain, bytes, piece)
    }
}

// The text of bytes that are one message.
fn one_message(alloc: Global, bytes: &[u8]) -> Result<FrameText, NoMemory>
    ensures { IfOk result (λ framed. IsOneMessage bytes.now framed.text.items framed.whole) }
{
    let mut text = Vec::new(alloc);
    put_message(&mut text, 0, bytes)?;
    put_rest(&mut text, 0)?;
    Ok(FrameText { text, whole: true })
}

// The text of what bytes that come in pieces decode to.
fn heard_text(
    alloc: Global,
    chain: Chain<'_>,
    bytes: &[u8],
    piece: u64,
) -> Result<FrameText, NoMemory>
    requires some { 0 < length (layers_of ⟦<dyn Framer as Framer>⟧ chain) }
    requires few { length bytes.now ≤ 4194304 }
    requires piece { 1 ≤ piece }
    ensures { IfOk result (λ framed. IsHeardAs (layers_of ⟦<dyn Framer as Framer>⟧ chain.entry)
        bytes.now framed.text.items framed.whole) }
{
    chain.vouch();
    let mut lines = MessageLines {
        text: Vec::new(alloc),
    };
    let hearing = hear_bytes(chain, bytes, piece as usize, &mut lines);
    ended_text(lines, &hearing)
}

// The text of the messages' lines and of how their decoding ends.
fn ended_text(lines: MessageLines, hearing: &Hearing) -> Result<FrameText, NoMemory>
    requires { IsEnd hearing.now.end }
    ensures ended { OnOk result (HasEnded hearing.now.end) }
    ensures text { IfOk result (λ framed. framed.text.items ≡
        lines.text.items ++ ended_line hearing.now.end hearing.now.rest) }
    ensures whole { IfOk result (λ framed. framed.whole ≡ has_ended_whole hearing.now.end hearing.now.rest) }
{
    let mut text = lines.text;
    let whole = put_end(&mut text, hearing)?;
    Ok(FrameText { text, whole })
}

// Appends how a decoding ends, and answers whether nothing is left then.
fn put_end(text: &mut Vec<u8>, hearing: &Hearing) -> Result<bool, NoMemory>
    requires { IsEnd hearing.now.end }
    ensures ended { OnOk result (HasEnded hearing.now.end) }
    ensures text { OnOk result (text.new.items ≡ text.old.items ++ ended_line hearing.now.end hearing.now.rest) }
    ensures whole { IfOk result (λ whole. whole ≡ has_ended_whole hearing.now.end hearing.now.rest) }
{
    match &hearing.end {
        Heard::Message(_) => unreachable!(),
        Heard::Need => {
            put_rest(text, hearing.rest)?;
            Ok(hearing.rest == 0)
        }
        Heard::Bad(bad) => {
            put_bad(text, *bad)?;
            Ok(false)
        }
        Heard::NoMemory => Err(NoMemory),
    }
}

// Appends where bytes are bad.
fn put_bad(text: &mut Vec<u8>, bad: BadAt) -> Result<(), NoMemory>
    ensures { OnOk result (text.new.items ≡ text.old.items ++ outcome_line (BadFrame bad.message bad.layer bad.place)) }
{
    put_outcome(
        text,
        Outcome::BadFrame {
            message: bad.message,
            layer: bad.layer,
            place: bad.place,
        },
    )?;
    Ok(())
}
