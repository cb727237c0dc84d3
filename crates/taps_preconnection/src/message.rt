ghost use Rattle.std.specs.Prelude.{◌≡◌, []};
ghost use Rattle.toml.specs.View.{table_view};
ghost use Rattle.taps_table.specs.Places.{place_text};
ghost use Rattle.taps_table.specs.Refusals.{Gives};
ghost use Rattle.taps_preconnection.specs.Messages.{one_of, message_at, has_ended, message_fits, messages_fit};

use crate::MessageSet;
use crate::property_table::Properties;
use crate::text::HexText;
use std::alloc::Global;
use taps_base::Body;
use taps_table::{
    FromTable, Number, Place, PreError, Text, key_rule, out_of_range, read, read_keys, rule,
};
use toml::Table;

/// A message to be sent.
#[derive(Debug, Drop)]
pub struct MessageSpec {
    pub body: Body,
    /// The member of the group that sends it: 0 is the connection, and the others are its clones.
    pub member: u64,
    /// The properties that it is given.
    pub set: MessageSet,
}

/// A table `message`.
#[derive(Clone, Copy, Drop)]
pub(crate) struct MessageTable;

impl FromTable for MessageTable {
    type Output = MessageSpec;

    ghost at = { λ _. message_at };

    #[tactic(auto, unfolding(crate::specs::Messages::message_at, taps_table::specs::Keys::keys_of))]
    fn read_table(
        &self,
        alloc: Global,
        place: &Place<'_>,
        table: &Table,
    ) -> Result<MessageSpec, PreError> {
        read! { read_keys(alloc, place, table);
            text = "text": Text,
            hex = "hex": HexText,
            member = "member": Number { low: 0, high: 15 },
            set: Properties { start: MessageSet::none() },
        }
        let body = one_of(alloc, place, text, hex)?;
        Ok(MessageSpec {
            body,
            member: member.unwrap_or(0),
            set,
        })
    }
}

// Exactly one of a text and of bytes by their digits.
fn one_of(
    alloc: Global,
    place: &Place<'_>,
    text: Option<Body>,
    hex: Option<Body>,
) -> Result<Body, PreError>
    ensures { Gives result (one_of (place_text place.now) text hex) }
{
    match text {
        Some(text) => match hex {
            None => Ok(text),
            Some(_) => out_of_range(alloc, place),
        },
        None => match hex {
            Some(bytes) => Ok(bytes),
            None => out_of_range(alloc, place),
        },
    }
}

#[tactic(auto, unfolding(crate::specs::Messages::has_ended))]
fn has_ended(before: &[MessageSpec], member: u64) -> bool
    ensures { result ≡ has_ended before.now member }
{
    before
        .iter()
        .any(|m| m.member == member && m.set.is_final.unwrap_or(false))
}

#[tactic(auto, unfolding(crate::specs::Messages::message_fits))]
fn message_fits(
    alloc: Global,
    clones: u64,
    before: &[MessageSpec],
    message: &MessageSpec,
) -> Result<(), PreError>
    ensures { Gives result (message_fits clones before.now message.now) }
{
    let messages = Place::Key(&Place::Top, "message");
    let place = Place::Item(&messages, before.len());
    key_rule(alloc, &place, "member", message.member <= clones)?;
    rule(alloc, &place, !has_ended(before, message.member))
}

/// Each message goes to a member that there is, and to none that has ended.
pub(crate) fn messages_fit(
    alloc: Global,
    clones: u64,
    messages: &[MessageSpec],
) -> Result<(), PreError>
    ensures { Gives result (messages_fit clones [] messages.now) }
{
    for (index, message) in messages.iter().enumerate() {
        message_fits(alloc, clones, &messages[..index], message)?;
    }
    Ok(())
}
