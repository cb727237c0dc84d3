use std::alloc::Global;
use std::process::Abort;
use std::str;
use std::test::Fail;
use taps_base::Body;
use taps_preconnection::{MessageSet, PreError, apply_set, read_preconnection};
use taps_property::{Capacity, MessageProps};

// How a file is answered: it is read, or refused, mostly for the key at a path.
#[derive(Clone, Copy)]
enum Answer<'a> {
    Read,
    NotToml,
    UnknownKey(&'a str),
    WrongKind(&'a str),
    OutOfRange(&'a str),
    BadAddress(&'a str, u64),
    BadHex(&'a str),
    TooMany(&'a str, u64),
    NoRemote,
}

// A table of the file: how it opens, what parts its keys and how it closes, its path, and its keys
// in their order.
struct KeyTable(
    &'static str,
    &'static str,
    &'static str,
    &'static str,
    &'static str,
);

static TABLES: [KeyTable; 10] = [
    KeyTable(
        "",
        "\n",
        "",
        "",
        "format profile framers selection connection path local remote hosts race message exchange",
    ),
    KeyTable(
        "selection = { ",
        ", ",
        " }",
        "selection.",
        "reliability preserveMsgBoundaries perMsgReliability preserveOrder zeroRttMsg multistreaming fullChecksumSend fullChecksumRecv congestionControl keepAlive interface pvd useTemporaryLocalAddress multipath advertisesAltaddr direction softErrorNotify activeReadBeforeSend",
    ),
    KeyTable(
        "selection.pvd = [{ ",
        ", ",
        " }]",
        "selection.pvd[0].",
        "name preference",
    ),
    KeyTable(
        "connection = { ",
        ", ",
        " }",
        "connection.",
        "recvChecksumLen connPriority connTimeout keepAliveTimeout connScheduler connCapacityProfile multipathPolicy minSendRate minRecvRate maxSendRate maxRecvRate groupConnLimit isolateSession",
    ),
    KeyTable(
        "path = [{ ",
        ", ",
        " }]",
        "path[0].",
        "interface pvd temporary families",
    ),
    KeyTable("local = [{ ", ", ", " }]", "local[0].", "interface address"),
    KeyTable(
        "remote = [{ ",
        ", ",
        " }]",
        "remote[0].",
        "address host port",
    ),
    KeyTable(
        "race = { ",
        ", ",
        " }",
        "race.",
        "mode delay_ms timeout_ms cancel_ms",
    ),
    KeyTable(
        "message = [{ ",
        ", ",
        " }]",
        "message[0].",
        "text hex member msgLifetime msgPriority msgOrdered safelyReplayable final msgChecksumLen msgReliable msgCapacityProfile noFragmentation noSegmentation",
    ),
    KeyTable(
        "exchange = { ",
        ", ",
        " }",
        "exchange.",
        "role expect deadline_ms piece part clones priorities connections",
    ),
];

// A value that is out of range at each of these keys: what stands before a key and after the value,
// the path, the keys, and the value.
struct OutOfRange(
    &'static str,
    &'static str,
    &'static str,
    &'static str,
    &'static str,
);

static RANGES: [OutOfRange; 34] = [
    OutOfRange("", "", "", "format", "0"),
    OutOfRange("", "", "", "format", "2"),
    OutOfRange("", "", "", "profile", "'reliable'"),
    OutOfRange(
        "selection.",
        "",
        "selection.",
        "reliability preserveMsgBoundaries perMsgReliability preserveOrder zeroRttMsg multistreaming fullChecksumSend fullChecksumRecv congestionControl keepAlive useTemporaryLocalAddress multipath direction softErrorNotify activeReadBeforeSend",
        "'maybe'",
    ),
    OutOfRange(
        "selection.pvd = [{ ",
        " }]",
        "selection.pvd[0].",
        "name preference",
        "'may be'",
    ),
    OutOfRange(
        "connection.",
        "",
        "connection.",
        "recvChecksumLen connTimeout keepAliveTimeout connScheduler connCapacityProfile multipathPolicy minSendRate minRecvRate maxSendRate maxRecvRate groupConnLimit",
        "'maybe'",
    ),
    OutOfRange(
        "connection.",
        "",
        "connection.",
        "recvChecksumLen connPriority",
        "-1",
    ),
    OutOfRange(
        "connection.",
        "",
        "connection.",
        "connTimeout keepAliveTimeout minSendRate minRecvRate maxSendRate maxRecvRate groupConnLimit",
        "0",
    ),
    OutOfRange(
        "connection.",
        "",
        "connection.",
        "recvChecksumLen connPriority connTimeout keepAliveTimeout minSendRate minRecvRate maxSendRate maxRecvRate groupConnLimit",
        "4294967296",
    ),
    OutOfRange("path = [{ ", " }]", "path[0].", "interface pvd", "''"),
    OutOfRange("local = [{ ", " }]", "local[0].", "interface", "'/'"),
    OutOfRange("remote = [{ ", " }]", "remote[0].", "host", "'é'"),
    OutOfRange("remote = [{ ", " }]", "remote[0].", "port", "0"),
    OutOfRange("remote = [{ ", " }]", "remote[0].", "port", "65536"),
    OutOfRange("race.", "", "race.", "mode", "'slow'"),
    OutOfRange("race.", "", "race.", "delay_ms", "9"),
    OutOfRange("race.", "", "race.", "delay_ms", "2001"),
    OutOfRange("race.", "", "race.", "timeout_ms", "0"),
    OutOfRange("race.", "", "race.", "cancel_ms", "-1"),
    OutOfRange("race.", "", "race.", "timeout_ms cancel_ms", "3600001"),
    OutOfRange(
        "message = [{ ",
        " }]",
        "message[0].",
        "msgLifetime msgChecksumLen msgCapacityProfile",
        "'maybe'",
    ),
    OutOfRange("message = [{ ", " }]", "message[0].", "msgLifetime", "0"),
    OutOfRange(
        "message = [{ ",
        " }]",
        "message[0].",
        "member msgPriority msgChecksumLen",
        "-1",
    ),
    OutOfRange(
        "message = [{ ",
        " }]",
        "message[0].",
        "member msgLifetime msgPriority msgChecksumLen",
        "4294967296",
    ),
    OutOfRange("message = [{ ", " }]", "message[0].", "member", "16"),
    OutOfRange("exchange.", "", "exchange.", "role", "'meet'"),
    OutOfRange("exchange.", "", "exchange.", "expect clones", "-1"),
    OutOfRange(
        "exchange.",
        "",
        "exchange.",
        "deadline_ms piece part connections",
        "0",
    ),
    OutOfRange("exchange.", "", "exchange.", "expect", "257"),
    OutOfRange("exchange.", "", "exchange.", "deadline_ms", "3600001"),
    OutOfRange("exchange.", "", "exchange.", "piece", "65537"),
    OutOfRange("exchange.", "", "exchange.", "part", "1048577"),
    OutOfRange("exchange.", "", "exchange.", "clones", "16"),
    OutOfRange("exchange.", "", "exchange.", "connections", "17"),
];

// Other files, and how each is answered.
static FILES: [(&str, Answer<'static>); 60] = [
    ("remote = 'no", Answer::NotToml),
    (
        "zeta = 1\nAlpha = 2\nalpha = 3",
        Answer::UnknownKey("Alpha"),
    ),
    (
        "connection.connState = 'closed'",
        Answer::UnknownKey("connection.connState"),
    ),
    // Counts come before items, and items in their order.
    (
        "framers = [1,2,3,4,5,6,7,8,9]",
        Answer::TooMany("framers", 9),
    ),
    (
        "framers = ['a', 'a b', 1]",
        Answer::OutOfRange("framers[1]"),
    ),
    (
        "selection.pvd = [1,2,3,4,5,6,7,8,9]",
        Answer::TooMany("selection.pvd", 9),
    ),
    (
        "selection.interface = [1,2,3,4,5,6,7,8,9]",
        Answer::TooMany("selection.interface", 9),
    ),
    (
        "selection.pvd = [1, {}]",
        Answer::WrongKind("selection.pvd[0]"),
    ),
    ("path = [1,2,3,4,5,6,7,8,9]", Answer::TooMany("path", 9)),
    (
        "path = [{ families = [1,2,3,4] }]",
        Answer::TooMany("path[0].families", 4),
    ),
    (
        "path = [{ families = ['unix', 'inet5', 1] }]",
        Answer::OutOfRange("path[0].families[1]"),
    ),
    ("local = [1,2,3,4,5,6,7,8,9]", Answer::TooMany("local", 9)),
    (
        "remote = [1,2,3,4,5,6,7,8,9,10,11,12,13,14,15,16,17]",
        Answer::TooMany("remote", 17),
    ),
    (
        "hosts.h = [1,2,3,4,5,6,7,8,9,10,11,12,13,14,15,16,17,18,19,20,21,22,23,24,25,26,27,28,29,30,31,32,33]",
        Answer::TooMany("hosts.h", 33),
    ),
    ("hosts.h = ['::', 1, '.']", Answer::WrongKind("hosts.h[1]")),
    (
        "hosts = { a = 1, b = 1, B = 1 }",
        Answer::WrongKind("hosts.B"),
    ),
    (
        "exchange.priorities = [1,2,3,4,5,6,7,8,9,10,11,12,13,14,15,16,17]",
        Answer::TooMany("exchange.priorities", 17),
    ),
    (
        "exchange.priorities = [-1, 'a']",
        Answer::OutOfRange("exchange.priorities[0]"),
    ),
    (
        "exchange.priorities = [4294967296]",
        Answer::OutOfRange("exchange.priorities[0]"),
    ),
    // Texts with a grammar of their own.
    (
        "local = [{ address = 'unix:' }]",
        Answer::BadAddress("local[0].address", 5),
    ),
    (
        "remote = [{ address = '1.2.3.4:' }]",
        Answer::BadAddress("remote[0].address", 8),
    ),
    (
        "hosts.h = ['1.2.3.4:5']",
        Answer::BadAddress("hosts.h[0]", 7),
    ),
    ("hosts.'a b' = 1", Answer::OutOfRange("hosts.a b")),
    (
        "message = [{ hex = '6g' }]",
        Answer::BadHex("message[0].hex"),
    ),
    (
        "message = [{ hex = '6' }]",
        Answer::BadHex("message[0].hex"),
    ),
    // A missing key comes after the faults of the others, and a rule of the table after that.
    ("path = [{}]", Answer::OutOfRange("path[0]")),
    ("path = [{ pvd = 1 }]", Answer::WrongKind("path[0].pvd")),
    (
        "selection.pvd = [{ name = 'a' }]",
        Answer::OutOfRange("selection.pvd[0]"),
    ),
    (
        "selection.pvd = [{ preference = 'avoid' }]",
        Answer::OutOfRange("selection.pvd[0]"),
    ),
    (
        "selection.pvd = [{ name = 'a', preference = 'avoid' }, { name = 'a', preference = 1 }]",
        Answer::OutOfRange("selection.pvd[1].name"),
    ),
    ("remote = [{}]", Answer::OutOfRange("remote[0]")),
    ("remote = [{ host = 'h' }]", Answer::OutOfRange("remote[0]")),
    ("remote = [{ port = 1 }]", Answer::OutOfRange("remote[0]")),
    (
        "remote = [{ address = '1.2.3.4:5', port = 1 }]",
        Answer::OutOfRange("remote[0]"),
    ),
    (
        "remote = [{ address = '1.2.3.4:5', host = 'h' }]",
        Answer::OutOfRange("remote[0]"),
    ),
    (
        "remote = [{ address = '1.2.3.4:5', host = 'h', port = 1 }]",
        Answer::OutOfRange("remote[0]"),
    ),
    ("message = [{}]", Answer::OutOfRange("message[0]")),
    (
        "message = [{ text = '', hex = '' }]",
        Answer::OutOfRange("message[0]"),
    ),
    (
        "exchange = { role = 'listen', clones = 1, priorities = [1, 2, 3] }",
        Answer::OutOfRange("exchange.clones"),
    ),
    (
        "exchange = { role = 'loop', clones = 1 }",
        Answer::OutOfRange("exchange.clones"),
    ),
    (
        "exchange = { clones = 1, priorities = [1, 2, 3] }",
        Answer::OutOfRange("exchange.priorities"),
    ),
    // After all tables: a remote, and the messages one after the other.
    ("", Answer::NoRemote),
    ("exchange.role = 'loop'", Answer::NoRemote),
    (
        "exchange.priorities = [1, 2]",
        Answer::OutOfRange("exchange.priorities"),
    ),
    ("message = [{ text = '', member = 1 }]", Answer::NoRemote),
    (
        "exchange.role = 'listen'\nmessage = [{ text = '', member = 1 }]",
        Answer::OutOfRange("message[0].member"),
    ),
    (
        "exchange.role = 'listen'\nmessage = [{ text = '', final = true }, { text = '' }]",
        Answer::OutOfRange("message[1]"),
    ),
    (
        "exchange.role = 'listen'\nmessage = [{ text = '', final = true }, { text = '', member = 1 }]",
        Answer::OutOfRange("message[1].member"),
    ),
    (
        "exchange.role = 'listen'\nmessage = [{ text = '', final = true }, { text = '' }, { text = '', member = 1 }]",
        Answer::OutOfRange("message[1]"),
    ),
    // Files that are read, at the bounds of each key.
    ("exchange.role = 'listen'", Answer::Read),
    (
        "exchange.role = 'listen'\nhosts = {}\npath = []",
        Answer::Read,
    ),
    ("remote = [{ address = '1.2.3.4:5' }]", Answer::Read),
    (
        "remote = [{ host = 'h', port = 1 }, { host = 'h', port = 65535 }]\nhosts.h = ['::1', '1.2.3.4']",
        Answer::Read,
    ),
    (
        "path = [{ interface = 'a', families = [] }, { interface = 'a', families = ['unix', 'unix'] }]\nexchange.role = 'listen'",
        Answer::Read,
    ),
    (
        "format = 1\nprofile = 'unreliable-datagram'\nframers = ['a', 'a']\nexchange.role = 'listen'",
        Answer::Read,
    ),
    (
        "exchange.role = 'listen'\nrace = { mode = 'failover', delay_ms = 10, timeout_ms = 1, cancel_ms = 0 }",
        Answer::Read,
    ),
    (
        "exchange.role = 'listen'\nrace = { delay_ms = 2000, timeout_ms = 3600000, cancel_ms = 3600000 }",
        Answer::Read,
    ),
    (
        "connection = { recvChecksumLen = 0, connPriority = 0, connTimeout = 1, keepAliveTimeout = 'disabled', maxSendRate = 4294967295, groupConnLimit = 'unlimited' }\nexchange.role = 'listen'",
        Answer::Read,
    ),
    (
        "exchange = { role = 'initiate', expect = 256, deadline_ms = 3600000, piece = 65536, part = 1048576, clones = 15, connections = 16, priorities = [0, 4294967295] }\nremote = [{ address = '[::1]:5' }]\nmessage = [{ text = '', member = 15, final = true }, { hex = '6A6b', member = 14, msgLifetime = 'infinite' }]",
        Answer::Read,
    ),
    (
        "selection = { interface = [{ name = 'a', preference = 'avoid' }], pvd = [{ name = 'a', preference = 'prefer' }], multipath = 'passive', direction = 'unidirectional-send' }\nlocal = [{}, { address = 'unix:/a' }]\nexchange.role = 'listen'",
        Answer::Read,
    ),
];

// What stands before and after the number of each item, how many items there are, and how the file
// is answered.
static COUNTS: [(&str, &str, u32, Answer<'static>); 4] = [
    ("hosts.h", " = []\n", 64, Answer::Read),
    ("hosts.h", " = []\n", 65, Answer::TooMany("hosts", 65)),
    ("[[message]]\ntext = '", "'\n", 256, Answer::Read),
    (
        "[[message]]\ntext = '",
        "'\n",
        257,
        Answer::TooMany("message", 257),
    ),
];

fn is_text(body: &Body, text: &str) -> bool {
    body.bytes() == text.as_bytes()
}

fn is_refusal(refused: &PreError, answer: Answer<'_>) -> bool {
    match answer {
        Answer::Read => false,
        Answer::NotToml => matches!(refused, PreError::NotToml),
        Answer::UnknownKey(key) =>
            matches!(refused, PreError::UnknownKey(got) if is_text(got, key)),
        Answer::WrongKind(key) => matches!(refused, PreError::WrongKind(got) if is_text(got, key)),
        Answer::OutOfRange(key) =>
            matches!(refused, PreError::OutOfRange(got) if is_text(got, key)),
        Answer::BadAddress(key, place) => {
            matches!(refused, PreError::BadAddress(got, at) if is_text(got, key) && *at == place)
        }
        Answer::BadHex(key) => matches!(refused, PreError::BadHex(got) if is_text(got, key)),
        Answer::TooMany(key, count) => {
            matches!(refused, PreError::TooMany(got, all) if is_text(got, key) && *all == count)
        }
        Answer::NoRemote => matches!(refused, PreError::NoRemote),
    }
}

fn is_answered(rt: &impl Abort, alloc: Global, file: &str, answer: Answer<'_>) {
    match read_preconnection(alloc, file.as_bytes()) {
        Ok(_) => assert!(rt; matches!(answer, Answer::Read), "{file}"),
        Err(refused) => assert!(rt; is_refusal(&refused, answer), "{file}"),
    }
}

#[test]
fn files_are_answered(rt: HostRuntime) -> Result<(), Fail> {
    for (file, answer) in &FILES {
        is_answered(&rt, rt.alloc(), file, *answer);
    }
    Ok(())
}

// The text of a key of a table.
fn key_path(alloc: Global, path: &str, key: &str) -> Result<String, Fail> {
    Ok(format!(in alloc; "{path}{key}")?)
}

// A key with a value of another kind is refused for it.
fn has_its_kind(rt: &impl Abort, alloc: Global, table: &KeyTable, key: &str) -> Result<(), Fail> {
    let KeyTable(open, _, close, path, _) = *table;
    let file = format!(in alloc; "{open}{key} = 1.5{close}")?;
    let at = key_path(alloc, path, key)?;
    is_answered(rt, alloc, file.as_str(), Answer::WrongKind(at.as_str()));
    Ok(())
}

// Of two keys with a value of another kind, the one that comes first in the table is refused.
fn comes_after(
    rt: &impl Abort,
    alloc: Global,
    table: &KeyTable,
    first: &str,
    key: &str,
) -> Result<(), Fail> {
    let KeyTable(open, part, close, path, _) = *table;
    let file = format!(in alloc; "{open}{key} = 1.5{part}{first} = 1.5{close}")?;
    let at = key_path(alloc, path, first)?;
    is_answered(rt, alloc, file.as_str(), Answer::WrongKind(at.as_str()));
    Ok(())
}

// An unknown key is refused before a value of another kind.
fn comes_after_unknown(
    rt: &impl Abort,
    alloc: Global,
    table: &KeyTable,
    key: &str,
) -> Result<(), Fail> {
    let KeyTable(open, part, close, path, _) = *table;
    let file = format!(in alloc; "{open}{key} = 1.5{part}zeta = 1.5{close}")?;
    let at = key_path(alloc, path, "zeta")?;
    is_answered(rt, alloc, file.as_str(), Answer::UnknownKey(at.as_str()));
    Ok(())
}

fn is_read_in_order(rt: &impl Abort, alloc: Global, table: &KeyTable) -> Result<(), Fail> {
    let mut before = None;
    for key in table.4.split(' ') {
        has_its_kind(rt, alloc, table, key)?;
        match before {
            None => comes_after_unknown(rt, alloc, table, key)?,
            Some(first) => comes_after(rt, alloc, table, first, key)?,
        }
        before = Some(key);
    }
    Ok(())
}

#[test]
fn keys_have_kinds_and_an_order(rt: HostRuntime) -> Result<(), Fail> {
    for table in &TABLES {
        is_read_in_order(&rt, rt.alloc(), table)?;
    }
    Ok(())
}

fn is_out_of_range(
    rt: &impl Abort,
    alloc: Global,
    row: &OutOfRange,
    key: &str,
) -> Result<(), Fail> {
    let OutOfRange(open, close, path, _, value) = *row;
    let file = format!(in alloc; "{open}{key} = {value}{close}")?;
    let at = key_path(alloc, path, key)?;
    is_answered(rt, alloc, file.as_str(), Answer::OutOfRange(at.as_str()));
    Ok(())
}

#[test]
fn keys_have_ranges(rt: HostRuntime) -> Result<(), Fail> {
    for row in &RANGES {
        for key in row.3.split(' ') {
            is_out_of_range(&rt, rt.alloc(), row, key)?;
        }
    }
    Ok(())
}

fn file_of(alloc: Global, before: &str, after: &str, count: u32) -> Result<String, Fail> {
    let mut file = String::from_str(alloc, "exchange.role = 'listen'\n")?;
    for number in 0..count {
        write!(file, "{before}{number}{after}")?;
    }
    Ok(file)
}

#[test]
fn items_are_counted(rt: HostRuntime) -> Result<(), Fail> {
    for (before, after, count, answer) in &COUNTS {
        let file = file_of(rt.alloc(), before, after, *count)?;
        is_answered(&rt, rt.alloc(), file.as_str(), *answer);
    }
    Ok(())
}

// A set that gives no property.
const NONE: MessageSet = MessageSet {
    msg_lifetime: None,
    msg_priority: None,
    msg_ordered: None,
    safely_replayable: None,
    is_final: None,
    msg_checksum_len: None,
    msg_reliable: None,
    msg_capacity_profile: None,
    no_fragmentation: None,
    no_segmentation: None,
};

// A set that gives each property.
const ALL: MessageSet = MessageSet {
    msg_lifetime: Some(Some(5)),
    msg_priority: Some(7),
    msg_ordered: Some(false),
    safely_replayable: Some(true),
    is_final: Some(true),
    msg_checksum_len: Some(None),
    msg_reliable: Some(false),
    msg_capacity_profile: Some(Capacity::Scavenger),
    no_fragmentation: Some(true),
    no_segmentation: Some(true),
};

fn defaults() -> MessageProps {
    MessageProps::defaults(true, true, Capacity::Default, false)
}

fn are_the_same(props: MessageProps, others: MessageProps) -> bool {
    props.msg_lifetime == others.msg_lifetime
        && props.msg_priority == others.msg_priority
        && props.msg_ordered == others.msg_ordered
        && props.safely_replayable == others.safely_replayable
        && props.is_final == others.is_final
        && props.msg_checksum_len == others.msg_checksum_len
        && props.msg_reliable == others.msg_reliable
        && props.msg_capacity_profile == others.msg_capacity_profile
        && props.no_fragmentation == others.no_fragmentation
        && props.no_segmentation == others.no_segmentation
}

#[test]
fn a_set_is_laid_over_the_defaults(rt: HostRuntime) -> Result<(), Fail> {
    assert!(rt; are_the_same(apply_set(defaults(), &NONE), defaults()));
    let given = MessageProps {
        msg_lifetime: Some(5),
        msg_priority: 7,
        msg_ordered: false,
        safely_replayable: true,
        is_final: true,
        msg_checksum_len: None,
        msg_reliable: false,
        msg_capacity_profile: Capacity::Scavenger,
        no_fragmentation: true,
        no_segmentation: true,
    };
    assert!(rt; are_the_same(apply_set(defaults(), &ALL), given));
    Ok(())
}
