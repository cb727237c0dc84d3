ghost use Rattle.std.specs.Prelude.{◌≡◌, ◌++◌, map, IfOk, OnOk};
ghost use Rattle.std.specs.Option.{is_none};
ghost use Rattle.taps_chain.specs.Chained.{chained, chain_refusal};
ghost use Rattle.taps_chain.specs.Layers.{layers_of};
ghost use Rattle.taps_frame_text.specs.FrameLines.{frame_lines, are_all_spoken, framed_line};

use crate::FrameText;
use std::alloc::Global;
use taps_base::{Body, NoMemory};
use taps_chain::{Chain, WrapError};
use taps_framer::Framer;
use taps_text::{Outcome, put_frame, put_outcome};

/// The frames of bodies, a line each, as hexadecimal digits, each with its place as index. At the
/// first one that a layer cannot encode there is a line that says so, and none follows.
pub fn frame_text(alloc: Global, chain: &Chain<'_>, bodies: &[&Body]) -> Result<FrameText, NoMemory>
    ensures text { IfOk result (λ framed. framed.text.items ≡
        frame_lines (layers_of ⟦<dyn Framer as Framer>⟧ chain.now) 0 (map (λ body. body.now) bodies.now)) }
    ensures whole { IfOk result (λ framed. framed.whole ≡
        are_all_spoken (layers_of ⟦<dyn Framer as Framer>⟧ chain.now) 0 (map (λ body. body.now) bodies.now)) }
{
    let mut text = Vec::new(alloc);
    let whole = put_frames(&mut text, chain, bodies)?;
    Ok(FrameText { text, whole })
}

// Appends the lines of bodies, up to that of the first one that cannot be encoded.
fn put_frames(text: &mut Vec<u8>, chain: &Chain<'_>, bodies: &[&Body]) -> Result<bool, NoMemory>
    ensures text { OnOk result (text.new.items ≡ text.old.items ++
        frame_lines (layers_of ⟦<dyn Framer as Framer>⟧ chain.now) 0 (map (λ body. body.now) bodies.now)) }
    ensures whole { IfOk result (λ whole. whole ≡
        are_all_spoken (layers_of ⟦<dyn Framer as Framer>⟧ chain.now) 0 (map (λ body. body.now) bodies.now)) }
{
    for (number, body) in bodies.iter().enumerate() {
        if !put_framed(text, chain, number as u64, *body)? {
            return Ok(false);
        }
    }
    Ok(true)
}

// Appends the line of a body.
fn put_framed(
    text: &mut Vec<u8>,
    chain: &Chain<'_>,
    number: u64,
    body: &Body,
) -> Result<bool, NoMemory>
    ensures text { OnOk result (text.new.items ≡ text.old.items ++
        framed_line (chain_refusal (layers_of ⟦<dyn Framer as Framer>⟧ chain.now) number body.now)
        number (chained (layers_of ⟦<dyn Framer as Framer>⟧ chain.now) number body.now)) }
    ensures spoken { IfOk result (λ spoken. spoken ≡
        is_none (chain_refusal (layers_of ⟦<dyn Framer as Framer>⟧ chain.now) number body.now)) }
{
    match chain.wrap(number, body.bytes()) {
        Ok(bytes) => {
            put_frame(text, &bytes)?;
            Ok(true)
        }
        Err(WrapError::NotSpeakable(layer)) => {
            put_outcome(
                text,
                Outcome::NotSpeakable {
                    member: 0,
                    number,
                    layer,
                },
            )?;
            Ok(false)
        }
        Err(WrapError::NoMemory) => Err(NoMemory),
    }
}
