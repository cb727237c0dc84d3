ghost use Rattle.std.specs.Prelude.{◌≡◌, ◌≤◌, [], ◌∷◌, ◌++◌, length, map, IfOk, OnOk};
ghost use Rattle.taps_command.specs.Checks.{most_framed};
ghost use Rattle.taps_app.specs.Frame.{bodies_of, IsFramed, status_if};
ghost use Rattle.taps_command.specs.Meanings.{HasText};
ghost use Rattle.taps_command.specs.Places.{IsOnShelf};
ghost use Rattle.taps_command.specs.Shelves.{layers_on};
ghost use Rattle.taps_app.specs.Unframe.{IsDecoded};

use crate::status::status_if;
use std::alloc::Global;
use taps_base::{Body, NoMemory};
use taps_command::{Layers, Printed, Ready, Shelf, chain};
use taps_frame_text::{FrameText, frame_text, unframe_text};
use taps_framer::Framer;
use taps_preconnection::MessageSpec;

/// The frames of the file's messages.
pub fn print_frames<L: Layers>(
    alloc: Global,
    shelf: &Shelf<'_>,
    ready: &Ready,
) -> Result<Printed, NoMemory>
    requires shelf { layers_on ⟦<dyn Framer as Framer>⟧ shelf.now ≡ L.layers }
    requires on_shelf { IsOnShelf L.layers ready.now.places }
    ensures framed { IfOk result (λ printed. IsFramed L.layers ready.now printed.text.items printed.status) }
    ensures has_text { IfOk result (λ printed. HasText printed.status) }
{
    let chain = chain::<L>(alloc, shelf, &ready.places)?;
    let bodies = bodies(alloc, ready.pre.messages.as_slice())?;
    let framed = frame_text(alloc, &chain, &bodies)?;
    Ok(printed(framed))
}

/// The messages that bytes decode to through the chain of the file's framers.
pub fn print_messages<L: Layers>(
    alloc: Global,
    shelf: &Shelf<'_>,
    ready: &Ready,
    bytes: &[u8],
) -> Result<Printed, NoMemory>
    requires shelf { layers_on ⟦<dyn Framer as Framer>⟧ shelf.now ≡ L.layers }
    requires on_shelf { IsOnShelf L.layers ready.now.places }
    requires few { length bytes.now ≤ most_framed }
    ensures decoded { IfOk result (λ printed.
        IsDecoded L.layers ready.now bytes.now printed.text.items printed.status) }
    ensures has_text { IfOk result (λ printed. HasText printed.status) }
{
    let chain = chain::<L>(alloc, shelf, &ready.places)?;
    let framed = unframe_text(alloc, chain, bytes, ready.pre.exchange.piece)?;
    Ok(printed(framed))
}

#[tactic(auto, using(crate::proofs::Framed::text_if))]
fn printed(framed: FrameText) -> Printed
    ensures text { result.text ≡ framed.text }
    ensures status { result.status ≡ status_if framed.whole }
    ensures has_text { HasText result.status }
{
    let FrameText { text, whole } = framed;
    Printed {
        text,
        status: status_if(whole),
    }
}

// The bodies of messages.
fn bodies(alloc: Global, messages: &[MessageSpec]) -> Result<Vec<&Body>, NoMemory>
    ensures { IfOk result (λ bodies. map (λ body. body.now) bodies.items ≡ bodies_of messages.now) }
{
    let mut bodies = Vec::new(alloc);
    for message in messages {
        put_body(&mut bodies, message)?;
    }
    Ok(bodies)
}

fn put_body<'a>(bodies: &mut Vec<&'a Body>, message: &'a MessageSpec) -> Result<(), NoMemory>
    ensures { OnOk result (map (λ body. body.now) bodies.new.items ≡
        map (λ body. body.now) bodies.old.items ++ message.now.body ∷ []) }
{
    Ok(bodies.push(&message.body)?)
}
