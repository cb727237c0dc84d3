use std::alloc::Global;
use std::process::Abort;
use std::test::Fail;
use taps_base::{List, Name};
use taps_property::{
    Capacity, ConnState, ConnectionProps, Direction, Entry, MessageProps, Multipath, Policy,
    Preference, PropError, PropValue, Role, Scheduler, Selection,
};

// A value of a property, but for a collection.
#[derive(Clone, Copy)]
enum Given {
    Pref(Preference),
    Flag(bool),
    Number(u64),
    Limit(Option<u64>),
    Multipath(Multipath),
    Direction(Direction),
    Scheduler(Scheduler),
    Capacity(Capacity),
    Policy(Policy),
    State(ConnState),
}

fn value(given: Given) -> PropValue {
    match given {
        Given::Pref(preference) => PropValue::Pref(preference),
        Given::Flag(flag) => PropValue::Flag(flag),
        Given::Number(number) => PropValue::Number(number),
        Given::Limit(limit) => PropValue::Limit(limit),
        Given::Multipath(multipath) => PropValue::Multipath(multipath),
        Given::Direction(direction) => PropValue::Direction(direction),
        Given::Scheduler(scheduler) => PropValue::Scheduler(scheduler),
        Given::Capacity(capacity) => PropValue::Capacity(capacity),
        Given::Policy(policy) => PropValue::Policy(policy),
        Given::State(state) => PropValue::State(state),
    }
}

fn is_given(value: &PropValue, given: Given) -> bool {
    match given {
        Given::Pref(given) => matches!(value, PropValue::Pref(got) if *got == given),
        Given::Flag(given) => matches!(value, PropValue::Flag(got) if *got == given),
        Given::Number(given) => matches!(value, PropValue::Number(got) if *got == given),
        Given::Limit(given) => matches!(value, PropValue::Limit(got) if *got == given),
        Given::Multipath(given) => matches!(value, PropValue::Multipath(got) if *got == given),
        Given::Direction(given) => matches!(value, PropValue::Direction(got) if *got == given),
        Given::Scheduler(given) => matches!(value, PropValue::Scheduler(got) if *got == given),
        Given::Capacity(given) => matches!(value, PropValue::Capacity(got) if *got == given),
        Given::Policy(given) => matches!(value, PropValue::Policy(got) if *got == given),
        Given::State(given) => matches!(value, PropValue::State(got) if *got == given),
    }
}

// A property: what it is first, what it is set to, how that is answered, and what it is then.
struct Row(&'static str, Given, Given, Result<(), PropError>, Given);

static CONNECTION: [Row; 17] = [
    Row(
        "recvChecksumLen",
        Given::Limit(None),
        Given::Limit(Some(0)),
        Ok(()),
        Given::Limit(Some(0)),
    ),
    Row(
        "connPriority",
        Given::Number(100),
        Given::Number(4294967295),
        Ok(()),
        Given::Number(4294967295),
    ),
    Row(
        "connTimeout",
        Given::Limit(None),
        Given::Limit(Some(1)),
        Ok(()),
        Given::Limit(Some(1)),
    ),
    Row(
        "keepAliveTimeout",
        Given::Limit(None),
        Given::Limit(Some(2)),
        Ok(()),
        Given::Limit(Some(2)),
    ),
    Row(
        "connScheduler",
        Given::Scheduler(Scheduler::WeightedFairQueueing),
        Given::Scheduler(Scheduler::FirstComeFirstServed),
        Ok(()),
        Given::Scheduler(Scheduler::FirstComeFirstServed),
    ),
    Row(
        "connCapacityProfile",
        Given::Capacity(Capacity::Default),
        Given::Capacity(Capacity::Scavenger),
        Ok(()),
        Given::Capacity(Capacity::Scavenger),
    ),
    Row(
        "multipathPolicy",
        Given::Policy(Policy::Handover),
        Given::Policy(Policy::Aggregate),
        Ok(()),
        Given::Policy(Policy::Aggregate),
    ),
    Row(
        "minSendRate",
        Given::Limit(None),
        Given::Limit(Some(3)),
        Ok(()),
        Given::Limit(Some(3)),
    ),
    Row(
        "minRecvRate",
        Given::Limit(None),
        Given::Limit(Some(4)),
        Ok(()),
        Given::Limit(Some(4)),
    ),
    Row(
        "maxSendRate",
        Given::Limit(None),
        Given::Limit(Some(5)),
        Ok(()),
        Given::Limit(Some(5)),
    ),
    Row(
        "maxRecvRate",
        Given::Limit(None),
        Given::Limit(Some(6)),
        Ok(()),
        Given::Limit(Some(6)),
    ),
    Row(
        "groupConnLimit",
        Given::Limit(None),
        Given::Limit(Some(7)),
        Ok(()),
        Given::Limit(Some(7)),
    ),
    Row(
        "isolateSession",
        Given::Flag(false),
        Given::Flag(true),
        Ok(()),
        Given::Flag(true),
    ),
    Row(
        "connState",
        Given::State(ConnState::Establishing),
        Given::State(ConnState::Closed),
        Err(PropError::ReadOnly),
        Given::State(ConnState::Establishing),
    ),
    Row(
        "connTimeout",
        Given::Limit(Some(1)),
        Given::Limit(Some(0)),
        Err(PropError::OutOfRange),
        Given::Limit(Some(1)),
    ),
    Row(
        "connPriority",
        Given::Number(4294967295),
        Given::Number(4294967296),
        Err(PropError::OutOfRange),
        Given::Number(4294967295),
    ),
    Row(
        "connPriority",
        Given::Number(4294967295),
        Given::Flag(true),
        Err(PropError::WrongKind),
        Given::Number(4294967295),
    ),
];

static MESSAGE: [Row; 12] = [
    Row(
        "msgLifetime",
        Given::Limit(None),
        Given::Limit(Some(1)),
        Ok(()),
        Given::Limit(Some(1)),
    ),
    Row(
        "msgPriority",
        Given::Number(100),
        Given::Number(0),
        Ok(()),
        Given::Number(0),
    ),
    Row(
        "msgOrdered",
        Given::Flag(true),
        Given::Flag(false),
        Ok(()),
        Given::Flag(false),
    ),
    Row(
        "safelyReplayable",
        Given::Flag(false),
        Given::Flag(true),
        Ok(()),
        Given::Flag(true),
    ),
    Row(
        "final",
        Given::Flag(false),
        Given::Flag(true),
        Ok(()),
        Given::Flag(true),
    ),
    Row(
        "msgChecksumLen",
        Given::Limit(None),
        Given::Limit(Some(0)),
        Ok(()),
        Given::Limit(Some(0)),
    ),
    Row(
        "msgReliable",
        Given::Flag(true),
        Given::Flag(false),
        Ok(()),
        Given::Flag(false),
    ),
    Row(
        "msgCapacityProfile",
        Given::Capacity(Capacity::CapacitySeeking),
        Given::Capacity(Capacity::Default),
        Ok(()),
        Given::Capacity(Capacity::Default),
    ),
    Row(
        "noFragmentation",
        Given::Flag(false),
        Given::Flag(true),
        Ok(()),
        Given::Flag(true),
    ),
    Row(
        "noSegmentation",
        Given::Flag(false),
        Given::Flag(true),
        Ok(()),
        Given::Flag(true),
    ),
    Row(
        "msgLifetime",
        Given::Limit(Some(1)),
        Given::Limit(Some(0)),
        Err(PropError::OutOfRange),
        Given::Limit(Some(1)),
    ),
    Row(
        "final",
        Given::Flag(true),
        Given::Number(1),
        Err(PropError::WrongKind),
        Given::Flag(true),
    ),
];

static SELECTION: [Row; 8] = [
    Row(
        "reliability",
        Given::Pref(Preference::Require),
        Given::Pref(Preference::Avoid),
        Ok(()),
        Given::Pref(Preference::Avoid),
    ),
    Row(
        "multistreaming",
        Given::Pref(Preference::Prefer),
        Given::Pref(Preference::Prohibit),
        Ok(()),
        Given::Pref(Preference::Prohibit),
    ),
    Row(
        "activeReadBeforeSend",
        Given::Pref(Preference::NoPreference),
        Given::Pref(Preference::Prefer),
        Ok(()),
        Given::Pref(Preference::Prefer),
    ),
    Row(
        "useTemporaryLocalAddress",
        Given::Pref(Preference::Avoid),
        Given::Pref(Preference::Require),
        Ok(()),
        Given::Pref(Preference::Require),
    ),
    Row(
        "multipath",
        Given::Multipath(Multipath::Passive),
        Given::Multipath(Multipath::Active),
        Ok(()),
        Given::Multipath(Multipath::Active),
    ),
    Row(
        "advertisesAltaddr",
        Given::Flag(false),
        Given::Flag(true),
        Ok(()),
        Given::Flag(true),
    ),
    Row(
        "direction",
        Given::Direction(Direction::Bidirectional),
        Given::Direction(Direction::UnidirectionalSend),
        Ok(()),
        Given::Direction(Direction::UnidirectionalSend),
    ),
    Row(
        "direction",
        Given::Direction(Direction::UnidirectionalSend),
        Given::Flag(true),
        Err(PropError::WrongKind),
        Given::Direction(Direction::UnidirectionalSend),
    ),
];

fn has(value: &Result<PropValue, PropError>, given: Given) -> bool {
    match value {
        Ok(value) => is_given(value, given),
        Err(_) => false,
    }
}

fn connection_is_set(props: &mut ConnectionProps, row: &Row) -> bool {
    let Row(name, first, given, answer, then) = *row;
    has(&props.get(name), first)
        && props.set(name, value(given)) == answer
        && has(&props.get(name), then)
}

#[test]
fn connection_properties_are_set(rt: HostRuntime) -> Result<(), Fail> {
    let mut props = ConnectionProps::defaults();
    for row in &CONNECTION {
        assert!(rt; connection_is_set(&mut props, row), "{}", row.0);
    }
    Ok(())
}

#[test]
fn connections_have_no_other_property(rt: HostRuntime) -> Result<(), Fail> {
    let mut props = ConnectionProps::defaults();
    let answer = props.set("msgOrdered", PropValue::Flag(true));
    assert!(rt; answer == Err(PropError::UnknownProperty));
    assert!(rt; matches!(props.get("msgOrdered"), Err(PropError::UnknownProperty)));
    Ok(())
}

fn message_is_set(props: &mut MessageProps, row: &Row) -> bool {
    let Row(name, first, given, answer, then) = *row;
    has(&props.get(name), first)
        && props.set(name, value(given)) == answer
        && has(&props.get(name), then)
}

#[test]
fn message_properties_are_set(rt: HostRuntime) -> Result<(), Fail> {
    let mut props = MessageProps::defaults(true, true, Capacity::CapacitySeeking, false);
    for row in &MESSAGE {
        assert!(rt; message_is_set(&mut props, row), "{}", row.0);
    }
    Ok(())
}

#[test]
fn messages_have_no_other_property(rt: HostRuntime) -> Result<(), Fail> {
    let mut props = MessageProps::defaults(true, true, Capacity::CapacitySeeking, false);
    let answer = props.set("connState", PropValue::Flag(true));
    assert!(rt; answer == Err(PropError::UnknownProperty));
    assert!(rt; matches!(props.get("connState"), Err(PropError::UnknownProperty)));
    Ok(())
}

fn selection_is_set(selection: &mut Selection, row: &Row) -> bool {
    let Row(name, first, given, answer, then) = *row;
    has(&selection.get(name), first)
        && selection.set(name, value(given)) == answer
        && has(&selection.get(name), then)
}

#[test]
fn selection_properties_are_set(rt: HostRuntime) -> Result<(), Fail> {
    let mut selection = Selection::defaults(rt.alloc(), Role::Listen);
    for row in &SELECTION {
        assert!(rt; selection_is_set(&mut selection, row), "{}", row.0);
    }
    assert!(rt; matches!(selection.get("final"), Err(PropError::UnknownProperty)));
    Ok(())
}

// One entry of this name.
fn entries(alloc: Global, text: &str) -> Result<List<Entry>, Fail> {
    let mut entries = List::new(alloc);
    let name = Name::read(alloc, text.as_bytes())?;
    let preference = Preference::Prefer;
    match entries.push(Entry { preference, name }) {
        Ok(()) => Ok(entries),
        Err((no_memory, _)) => Err(Fail::from(no_memory)),
    }
}

fn is_only_entry(value: &PropValue, text: &str) -> bool {
    match value {
        PropValue::Entries(entries) => match entries.as_slice() {
            [entry] => entry.name.as_str() == text,
            _ => false,
        },
        _ => false,
    }
}

fn keeps_entry(
    rt: &impl Abort,
    alloc: Global,
    selection: &mut Selection,
    property: &str,
    text: &str,
) -> Result<(), Fail> {
    let given = entries(alloc, text)?;
    assert!(rt; selection.set(property, PropValue::Entries(given)).is_ok());
    let value = selection.get(property)?;
    assert!(rt; is_only_entry(&value, text));
    Ok(())
}

#[test]
fn collections_are_set(rt: HostRuntime) -> Result<(), Fail> {
    let mut selection = Selection::defaults(rt.alloc(), Role::Initiate);
    keeps_entry(&rt, rt.alloc(), &mut selection, "interface", "eth0")?;
    keeps_entry(&rt, rt.alloc(), &mut selection, "pvd", "home")?;
    Ok(())
}
