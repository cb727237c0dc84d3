//! Measures the parser and the printer of addresses: `taps_endpoint_bench N WORK`, where WORK is
//! `generate`, `parse` or `print`, each with those before it. It prints counts alone.
#![tactic(auto)]

use std::alloc::{AllocError, Global};
use std::env;
use taps_endpoint::{Address, parse_address, write_address};

/// How much is done with each text.
#[derive(Clone, Copy, PartialEq, Eq)]
enum Work {
    Generate,
    Parse,
    Print,
}

/// What was done.
#[derive(Clone, Copy)]
struct Counts {
    texts: u64,
    read: u64,
    printed: u64,
}

fn main(rt: HostRuntime) -> anyhow::Result<()> {
    let mut words = env::args(&rt)?.skip(1);
    let texts = match words.next() {
        Some(word) => word.parse::<u64>().unwrap_or(0),
        None => 0,
    };
    let work = match words.next() {
        Some(word) => work_of(word.as_str()),
        None => Work::Print,
    };
    let counts = measure(rt.alloc(), texts, work)?;
    println!(rt;
        "texts {} read {} printed {}",
        counts.texts, counts.read, counts.printed
    )?;
    Ok(())
}

fn work_of(word: &str) -> Work {
    match word {
        "generate" => Work::Generate,
        "parse" => Work::Parse,
        _ => Work::Print,
    }
}

fn measure(alloc: Global, texts: u64, work: Work) -> anyhow::Result<Counts> {
    let mut counts = Counts {
        texts: 0,
        read: 0,
        printed: 0,
    };
    for number in 0..texts {
        let text = text_of(alloc, number)?;
        counts.texts = counts.texts.saturating_add(1);
        if work == Work::Generate {
            continue;
        }
        if let Ok(address) = parse_address(text.as_bytes()) {
            counts.read = counts.read.saturating_add(1);
            if work == Work::Print {
                counts.printed = counts.printed.saturating_add(length_of(alloc, &address));
            }
        }
    }
    Ok(counts)
}

// A text of each family in turn.
fn text_of(alloc: Global, number: u64) -> Result<String, AllocError> {
    let a = number % 256;
    let b = number / 256 % 256;
    match number % 3 {
        0 => format!(in alloc; "10.{b}.{a}.7:9000"),
        1 => format!(in alloc; "[2001:db8:{b:x}::{a:x}:1]:9000"),
        _ => format!(in alloc; "unix:/run/socket.{number}"),
    }
}

fn length_of(alloc: Global, address: &Address) -> u64 {
    match write_address(alloc, address) {
        Ok(body) => body.bytes().len() as u64,
        Err(_) => 0,
    }
}
