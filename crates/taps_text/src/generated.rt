// The file and the script that a number generates.
ghost use Rattle.std.specs.Prelude.{◌≡◌};
ghost use Rattle.taps_text.specs.Appends.{Appends};
ghost use Rattle.taps_text.specs.Generated as generated;
ghost use Rattle.taps_text.specs.Generated.{generated_file, generated_script, candidates_text, drawn, head_text, session_text, path_tables, address_line, address_lines, message_table, message_tables, exchange_text, leaf_line, leaf_lines, end_text};

use crate::part::Part::{Hex, Number, Words};
use crate::part::{append, append_parts};
use taps_base::NoMemory;

/// Appends the file that a number generates.
#[tactic(auto, unfolding(crate::specs::Generated::generated_file))]
pub fn put_generated_file(text: &mut Vec<u8>, number: u32) -> Result<(), NoMemory>
    ensures { Appends result text.old.items text.new.items (generated_file number) }
{
    put_candidates(text, number)?;
    put_session(text, number)
}

// What its plan comes from.
#[tactic(auto, unfolding(crate::specs::Generated::candidates_text, crate::specs::Generated::remote_text))]
fn put_candidates(text: &mut Vec<u8>, number: u32) -> Result<(), NoMemory>
    ensures { Appends result text.old.items text.new.items (candidates_text number) }
{
    put_head(text)?;
    put_paths(text, 8)?;
    append(
        text,
        b"\n[[remote]]\nhost = \"h\"\nport = 9000\n\n[hosts]\nh = [\n",
    )?;
    put_addresses(text, 32, number)
}

// The framers and the selection properties.
#[tactic(auto, unfolding(crate::specs::Generated::head_text))]
fn put_head(text: &mut Vec<u8>) -> Result<(), NoMemory>
    ensures { Appends result text.old.items text.new.items head_text }
{
    append(
        text,
        b"framers = [\"len32\", \"netstring\"]\n\n[selection]\nreliability = \"avoid\"\n",
    )?;
    append(
        text,
        b"preserveOrder = \"no-preference\"\ncongestionControl = \"no-preference\"\n",
    )
}

// What its session does.
fn put_session(text: &mut Vec<u8>, number: u32) -> Result<(), NoMemory>
    ensures { Appends result text.old.items text.new.items (session_text number) }
{
    append(text, b"]\n\n[race]\ndelay_ms = 10\n")?;
    put_bodies(text, number)?;
    put_exchange(text, number)
}

/// Appends the script that a number generates.
#[tactic(auto, unfolding(crate::specs::Generated::generated_script))]
pub fn put_generated_script(text: &mut Vec<u8>, number: u32) -> Result<(), NoMemory>
    ensures { Appends result text.old.items text.new.items (generated_script number) }
{
    put_leaves(text, 511, drawn(number, 288))?;
    put_end(text, drawn(number, 800))
}

// The number that follows a number.
#[tactic(auto, unfolding(crate::specs::Generated::next))]
fn next(x: u32) -> u32
    ensures { result ≡ generated.next x }
{
    ((x as u64 * 1664525 + 1013904223) % 4294967296) as u32
}

// The number at a place of those that begin with a number.
#[tactic(auto, using(crate::proofs::Steps::drawn_done, crate::proofs::Steps::drawn_on))]
fn drawn(number: u32, place: u32) -> u32
    ensures { result ≡ generated.drawn number place }
{
    let mut x = number;
    for _ in 0..place {
        x = next(x);
    }
    x
}

// The messages, whose bodies are numbers.
fn put_bodies(text: &mut Vec<u8>, number: u32) -> Result<(), NoMemory>
    ensures { Appends result text.old.items text.new.items (message_tables 256 (drawn number 32)) }
{
    put_messages(text, 256, drawn(number, 32))
}

#[tactic(auto, using(crate::proofs::Appended::continues_none, crate::proofs::Appended::continues_far))]
fn put_paths(text: &mut Vec<u8>, count: u32) -> Result<(), NoMemory>
    ensures { Appends result text.old.items text.new.items (path_tables count 0) }
{
    for place in 0..count {
        append_parts(
            text,
            &[
                Number(b"\n[[path]]\ninterface = \"p", place as u64),
                Words(b"\"\n"),
            ],
        )?;
    }
    Ok(())
}

#[tactic(auto, using(crate::proofs::Appended::continues_none, crate::proofs::Appended::continues_far))]
fn put_addresses(text: &mut Vec<u8>, count: u32, first: u32) -> Result<(), NoMemory>
    ensures { Appends result text.old.items text.new.items (address_lines count 0 first) }
{
    let mut x = first;
    for place in 0..count {
        put_address(text, place, x)?;
        x = next(x);
    }
    Ok(())
}

#[tactic(auto, unfolding(crate::specs::Generated::address_line))]
fn put_address(text: &mut Vec<u8>, place: u32, x: u32) -> Result<(), NoMemory>
    ensures { Appends result text.old.items text.new.items (address_line place x) }
{
    append_parts(
        text,
        &[
            Number(b"    \"10.0.", (x % 256) as u64),
            Number(b".", place as u64),
            Words(b"\",\n"),
        ],
    )
}

#[tactic(auto, using(crate::proofs::Appended::continues_none, crate::proofs::Appended::continues_far))]
fn put_messages(text: &mut Vec<u8>, count: u32, first: u32) -> Result<(), NoMemory>
    ensures { Appends result text.old.items text.new.items (message_tables count first) }
{
    let mut x = first;
    for _ in 0..count {
        put_message(text, x)?;
        x = next(x);
    }
    Ok(())
}

#[tactic(auto, unfolding(crate::specs::Generated::message_table))]
fn put_message(text: &mut Vec<u8>, x: u32) -> Result<(), NoMemory>
    ensures { Appends result text.old.items text.new.items (message_table x) }
{
    let body = [
        (x / 16777216 % 256) as u8,
        (x / 65536 % 256) as u8,
        (x / 256 % 256) as u8,
        (x % 256) as u8,
    ];
    append_parts(
        text,
        &[
            Words(b"\n[[message]]\nhex = \""),
            Hex(&body),
            Words(b"\"\n"),
        ],
    )
}

fn put_exchange(text: &mut Vec<u8>, number: u32) -> Result<(), NoMemory>
    ensures { Appends result text.old.items text.new.items (exchange_text (drawn number 799)) }
{
    put_sizes(text, drawn(number, 799))
}

#[tactic(auto, unfolding(crate::specs::Generated::exchange_text))]
fn put_sizes(text: &mut Vec<u8>, x: u32) -> Result<(), NoMemory>
    ensures { Appends result text.old.items text.new.items (exchange_text x) }
{
    append_parts(
        text,
        &[
            Number(
                b"\n[exchange]\nexpect = 256\npiece = ",
                1 + (x % 4096) as u64,
            ),
            Words(b"\n"),
        ],
    )
}

#[tactic(auto, using(crate::proofs::Appended::continues_none, crate::proofs::Appended::continues_far))]
fn put_leaves(text: &mut Vec<u8>, count: u32, first: u32) -> Result<(), NoMemory>
    ensures { Appends result text.old.items text.new.items (leaf_lines count 0 first) }
{
    let mut x = first;
    for leaf in 0..count {
        put_leaf(text, leaf, x)?;
        x = next(x);
    }
    Ok(())
}

// What becomes of a leaf, by a number.
#[tactic(auto, unfolding(crate::specs::Generated::leaf_line))]
fn put_leaf(text: &mut Vec<u8>, leaf: u32, y: u32) -> Result<(), NoMemory>
    ensures { Appends result text.old.items text.new.items (leaf_line leaf y) }
{
    match y % 3 {
        0 => append_parts(
            text,
            &[Number(b"leaf ", leaf as u64), Words(b" refuses refused\n")],
        ),
        1 => append_parts(
            text,
            &[
                Number(b"leaf ", leaf as u64),
                Number(b" breaks ", (y / 3 % 100) as u64),
                Words(b" reset\n"),
            ],
        ),
        _ => append_parts(text, &[Number(b"leaf ", leaf as u64), Words(b" silent\n")]),
    }
}

#[tactic(auto, unfolding(crate::specs::Generated::end_text))]
fn put_end(text: &mut Vec<u8>, x: u32) -> Result<(), NoMemory>
    ensures { Appends result text.old.items text.new.items (end_text x) }
{
    append_parts(
        text,
        &[
            Number(
                b"leaf 511 completes 0\npeer echo\ngive ",
                1 + (x % 64) as u64,
            ),
            Words(b"\n"),
        ],
    )
}
