ghost use Rattle.std.specs.Prelude.{◌≡◌, ◌≤◌, ◌<◌, ◌+◌, ◌++◌, ◌∷◌, ◌==◌, [], IfOk, OnOk};
ghost use Rattle.std.specs.List.{All};
ghost use Rattle.taps_group_exchange.specs.declared.addressed.Addressed.{Addressed};
ghost use Rattle.taps_command.specs.Ready.{HasMembers};
ghost use Rattle.taps_session.specs.FileGroups.{addressed_on, all_messages_on};
ghost use Rattle.taps_session.specs.FileMessages.{message_on, messages_on, props_on};

use std::alloc::Global;
use taps_base::{Body, NoMemory};
use taps_group_exchange::Addressed;
use taps_message::Message;
use taps_preconnection::{MessageSet, MessageSpec, Preconnection, apply_set};
use taps_property::{MessageProps, StackProperty};
use taps_stack::{Stack, offers};

/// The messages of a member, by its place, as they are sent over a stack.
pub fn messages(
    alloc: Global,
    pre: &Preconnection,
    stack: Stack,
    place: u64,
) -> Result<Vec<Message>, NoMemory>
    ensures { IfOk result (λ messages. messages.items ≡ messages_on pre.now stack place) }
{
    let mut messages = Vec::new(alloc);
    for spec in pre.messages.as_slice() {
        if spec.member == place {
            put_message(&mut messages, pre, stack, spec)?;
        }
    }
    Ok(messages)
}

fn put_message(
    messages: &mut Vec<Message>,
    pre: &Preconnection,
    stack: Stack,
    spec: &MessageSpec,
) -> Result<(), NoMemory>
    ensures { OnOk result (messages.new.items ≡ messages.old.items ++ message_on pre.now stack spec.now ∷ []) }
{
    let alloc = *messages.allocator();
    let message = message(alloc, pre, stack, spec)?;
    Ok(messages.push(message)?)
}

/// The messages of all members, as they are sent over a stack, in the order of the file.
pub fn all_messages(
    alloc: Global,
    pre: &Preconnection,
    stack: Stack,
) -> Result<Vec<Addressed>, NoMemory>
    requires members { HasMembers pre.now }
    requires few { pre.now.exchange.clones ≤ 15 }
    ensures are { IfOk result (λ addressed. addressed.items ≡ all_messages_on pre.now stack) }
    ensures members { IfOk result (λ addressed.
        All (λ (a : Addressed). a.member < pre.now.exchange.clones + 1) addressed.items) }
{
    match address_all(alloc, pre, stack) {
        Ok(addressed) => Ok(addressed),
        Err(none) => Err(none),
    }
}

fn address_all(alloc: Global, pre: &Preconnection, stack: Stack) -> Result<Vec<Addressed>, NoMemory>
    requires members { HasMembers pre.now }
    requires few { pre.now.exchange.clones ≤ 15 }
    ensures { IfOk result (λ addressed. addressed.items ≡ all_messages_on pre.now stack) }
{
    let mut addressed = Vec::new(alloc);
    for spec in pre.messages.as_slice() {
        put_addressed(&mut addressed, pre, stack, spec)?;
    }
    Ok(addressed)
}

fn put_addressed(
    addressed: &mut Vec<Addressed>,
    pre: &Preconnection,
    stack: Stack,
    spec: &MessageSpec,
) -> Result<(), NoMemory>
    requires { spec.now.member ≤ 15 }
    ensures { OnOk result (addressed.new.items ≡ addressed.old.items ++ addressed_on pre.now stack spec.now ∷ []) }
{
    let alloc = *addressed.allocator();
    let message = message(alloc, pre, stack, spec)?;
    let member = spec.member as u32;
    Ok(addressed.push(Addressed { member, message })?)
}

// A message as it is sent over a stack.
fn message(
    alloc: Global,
    pre: &Preconnection,
    stack: Stack,
    spec: &MessageSpec,
) -> Result<Message, NoMemory>
    ensures { IfOk result (λ message. message ≡ message_on pre.now stack spec.now) }
{
    let body = Body::from_slice(alloc, spec.body.bytes())?;
    let props = props(pre, stack, &spec.set);
    Ok(Message { body, props })
}

// The properties of a message, with those that the file gives.
fn props(pre: &Preconnection, stack: Stack, given: &MessageSet) -> MessageProps
    ensures { result ≡ props_on pre.now stack given.now }
{
    let defaults = MessageProps::defaults(
        offers(stack, StackProperty::PreserveOrder),
        offers(stack, StackProperty::Reliability),
        pre.connection.conn_capacity_profile,
        pre.replayable,
    );
    apply_set(defaults, given)
}
