// The example of docs/LIBRARY.md.
ghost use Rattle.std.specs.Prelude.{◌≡◌, length};
ghost use Rattle.taps_example_client.specs.PlanFacts.{IsPlanOf};

use crate::{Called, DecodeError, Planned, call_over, decode, plan_of_file, race_over, text};
use std::alloc::Global;
use std::process::Abort;
use std::test::Fail;
use taps_base::Body;
use taps_chain::Chain;
use taps_exchange::Outcome;
use taps_framer::Framer;
use taps_frames::Netstring;
use taps_message::Message;
use taps_property::{Capacity, MessageProps};
use taps_script::ScriptSockets;
use taps_socket::RaceAnswer;

const FILE: &[u8] = b"format = 1
[[remote]]
address = \"[::1]:9000\"
[[remote]]
address = \"127.0.0.1:9000\"
";

const SCRIPT: &[u8] = b"leaf 0 breaks 40 reset
leaf 1 completes 10
";

const ECHO: &[u8] = b"leaf 0 breaks 40 reset
leaf 1 completes 10
peer echo
";

const PLAN: &str = "leaves 2
0 any tcp [::1]:9000 +0
1 any tcp 127.0.0.1:9000 +250
";

#[test]
fn a_race_by_a_script(rt: HostRuntime) -> Result<(), Fail> {
    let alloc = rt.alloc();
    let planned = plan_of_file(alloc, FILE)?;
    is_printed(&rt, alloc, &planned)?;
    is_won(&rt, alloc, &planned)
}

fn is_printed(rt: &impl Abort, alloc: Global, planned: &Planned) -> Result<(), Fail>
    requires { IsPlanOf planned.now.pre planned.now.plan }
{
    let text = text(alloc, planned)?;
    assert_eq!(rt; str::from_utf8(text.bytes()), Ok(PLAN));
    Ok(())
}

fn is_won(rt: &impl Abort, alloc: Global, planned: &Planned) -> Result<(), Fail>
    requires { IsPlanOf planned.now.pre planned.now.plan }
{
    let mut net = ScriptSockets::read(alloc, SCRIPT)?;
    let answer = race_over(alloc, planned, &mut net)?;
    let ready = RaceAnswer::Ready {
        leaf: 1,
        socket: 1,
        at: 50,
    };
    assert_eq!(rt; answer, ready);
    Ok(())
}

#[test]
fn a_message_there_and_back(rt: HostRuntime) -> Result<(), Fail> {
    let alloc = rt.alloc();
    let planned = plan_of_file(alloc, FILE)?;
    let mut shelf: Vec<Box<dyn Framer>> = Vec::new(alloc);
    shelf.push(Box::new(alloc, Netstring)?)?;
    assert_eq!(rt; shelf.len(), 1);
    let chain = Chain::new(alloc, &shelf, &[0])?;
    is_answered(&rt, alloc, &planned, chain)
}

fn is_answered(
    rt: &impl Abort,
    alloc: Global,
    planned: &Planned,
    chain: Chain<'_>,
) -> Result<(), Fail>
    requires { IsPlanOf planned.now.pre planned.now.plan }
{
    let messages = vec![in alloc; message(alloc)?]?;
    let mut net = ScriptSockets::read(alloc, ECHO)?;
    let called = call_over(alloc, planned, chain, messages, 1, 1000, &mut net)?;
    let Called::Exchanged(exchanged) = called else {
        return Err(Fail::from("no leaf won"));
    };
    assert_eq!(rt; exchanged.outcome, Outcome::Done);
    assert_eq!(rt; exchanged.sent, 1);
    assert_eq!(rt; exchanged.heard.len(), 1);
    assert_eq!(rt; exchanged.heard[0].bytes(), b"hello".as_slice());
    Ok(())
}

fn message(alloc: Global) -> Result<Message, Fail> {
    let body = Body::from_slice(alloc, b"hello")?;
    let props = MessageProps::defaults(true, true, Capacity::Default, false);
    Ok(Message { body, props })
}

#[test]
fn messages_by_a_chain(rt: HostRuntime) -> Result<(), Fail> {
    let alloc = rt.alloc();
    let mut shelf: Vec<Box<dyn Framer>> = Vec::new(alloc);
    shelf.push(Box::new(alloc, Netstring)?)?;
    assert_eq!(rt; shelf.len(), 1);
    let chain = Chain::new(alloc, &shelf, &[0])?;
    let bytes = chain.wrap(0, b"hello")?;
    assert_eq!(rt; bytes.as_slice(), b"5:hello,".as_slice());
    let messages = decode(alloc, chain.copy()?, b"5:hello,2:hi,")?;
    assert_eq!(rt; messages.len(), 2);
    assert_eq!(rt;
        decode(alloc, chain, b"5:hello,2:").err(),
        Some(DecodeError::Rest(2))
    );
    Ok(())
}
