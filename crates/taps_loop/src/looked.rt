// What a connection finds in the bytes that it read.
ghost use Rattle.std.specs.Prelude.{◌≡◌, ◌≤◌, ◌<◌, ℕ, List};
ghost use Rattle.taps_chain.specs.ChainLaws.{AreFramers};
ghost use Rattle.taps_chain.specs.Layers.{layers_of};
ghost use Rattle.taps_connection.specs.Inboxes.{IsSoundReceiver};
ghost use Rattle.taps_connection.specs.Sources.{unread_of};
ghost use Rattle.taps_connection.specs.Unread.{count_given};
ghost use Rattle.taps_stack.specs.StackTable.{is_stream};
ghost use Rattle.taps_loop.specs.Looks.{IsReceiving, HasLooked, IfLacks, IsNearer};

use taps_base::{Body, NoMemory};
use taps_chain::Heard;
use taps_connection::{Connection, Open};
use taps_exchange::Outcome;
use taps_framer::Framer;

// As many messages were heard as are needed; or more bytes have to come; or the exchange ends.
#[derive(Clone, Copy, Debug)]
pub enum Look {
    Enough,
    Lacks,
    Over(Outcome),
}

// Gives out the messages in the bytes that were read, until so many were heard in all.
pub fn look_for<S: Open>(
    connection: &mut Connection<'_, S>,
    needs: u64,
    heard: &mut Vec<Body>,
) -> Result<Look, NoMemory>
    requires framers { AreFramers (layers_of ⟦<dyn Framer as Framer>⟧ connection.old.chain) }
    requires sound { IsSoundReceiver ⟦<dyn Framer as Framer>⟧ connection.old.stack
        (layers_of ⟦<dyn Framer as Framer>⟧ connection.old.chain) connection.old.receiver }
    requires few { needs ≤ 256 }
    ensures looked { (piece : ℕ) (read : List (List ℕ)) →
        IsReceiving (is_stream connection.old.stack) (layers_of ⟦<dyn Framer as Framer>⟧ connection.old.chain) piece
        connection.old.receiver.ended (unread_of connection.old.receiver.source) read heard.old.items →
        HasLooked (is_stream connection.old.stack) (layers_of ⟦<dyn Framer as Framer>⟧ connection.old.chain) piece
        needs read connection.old.receiver.ended result (unread_of connection.new.receiver.source) heard.new.items }
    ensures lacks { IfLacks result connection.new.receiver.ended (unread_of connection.new.receiver.source) }
    ensures less { result ≡ Ok Look.Lacks → count_given (unread_of connection.new.receiver.source) < needs }
    ensures nearer { IsNearer connection.old.receiver.ended (unread_of connection.old.receiver.source)
        (unread_of connection.new.receiver.source) }
    ensures enough { result ≡ Ok Look.Enough → needs ≤ count_given (unread_of connection.new.receiver.source) }
    ensures sound { IsSoundReceiver ⟦<dyn Framer as Framer>⟧ connection.old.stack
        (layers_of ⟦<dyn Framer as Framer>⟧ connection.old.chain) connection.new.receiver }
    ensures ended { connection.new.receiver.ended ≡ connection.old.receiver.ended }
    ensures kept { connection.new ≡ record connection.old { receiver = connection.new.receiver } }
{
    'looking: while connection.given() < needs {
        match connection.receive() {
            Heard::Message(body) => match heard.push(body) {
                Ok(()) => {}
                Err(_) => return Err(NoMemory),
            },
            Heard::Need => {
                if connection.has_ended() {
                    return Ok(Look::Over(Outcome::PeerEnded));
                }
                return Ok(Look::Lacks);
            }
            Heard::Bad(bad) => return Ok(Look::Over(Outcome::BadFrame(bad))),
            Heard::NoMemory => return Err(NoMemory),
        }
    }
    Ok(Look::Enough)
}
