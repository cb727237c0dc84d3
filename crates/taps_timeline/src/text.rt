// The timeline in characters.
use crate::race::{Bar, Mark, Note, Race};
use crate::scale::place_of;
use crate::words::{put_end_of, whole_end};
use itoa::Buffer;
use std::alloc::Global;
use taps_base::NoMemory;

const WIDTH: u64 = 56;

const COLUMNS: usize = 57;

// Where the cells of a row begin.
const NAME: usize = 10;

/// Draws the race with one line a leaf.
pub fn draw_text(alloc: Global, race: &Race) -> Result<String, NoMemory> {
    let mut text = String::new(alloc);
    put_drawing(&mut text, race)?;
    Ok(text)
}

fn put_drawing(text: &mut String, race: &Race) -> Result<(), NoMemory> {
    put_moments(text, race)?;
    for bar in &race.bars {
        put_bar(text, race, bar)?;
    }
    for note in &race.notes {
        put_note(text, note)?;
    }
    write!(text, "end: {}\n", whole_end(race))?;
    Ok(())
}

fn put_bar(text: &mut String, race: &Race, bar: &Bar) -> Result<(), NoMemory> {
    let mut row = String::new(*text.allocator());
    fill_bar(&mut row, race, bar)?;
    put_row(text, &row)
}

// A leaf's number, its attempt, and how it ended.
fn fill_bar(row: &mut String, race: &Race, bar: &Bar) -> Result<(), NoMemory> {
    write!(row, "leaf {}", bar.leaf)?;
    pad(row)?;
    put_attempt(row, race, bar)?;
    row.push_str("  ")?;
    put_end_of(row, race, bar)
}

// Spaces up to the place where the cells begin.
fn pad(row: &mut String) -> Result<(), NoMemory> {
    for _ in row.len()..NAME {
        row.push(' ')?;
    }
    Ok(())
}

fn put_attempt(row: &mut String, race: &Race, bar: &Bar) -> Result<(), NoMemory> {
    for cell in cells_of(race, bar) {
        row.push(char::from(cell))?;
    }
    Ok(())
}

fn put_note(text: &mut String, note: &Note) -> Result<(), NoMemory> {
    write!(text, "at {}: {}\n", note.at, note.text)?;
    Ok(())
}

// A row without the spaces at its end.
fn put_row(text: &mut String, row: &str) -> Result<(), NoMemory> {
    text.push_str(row.trim_end())?;
    text.push('\n')?;
    Ok(())
}

fn column(race: &Race, at: u64) -> usize {
    place_of(at, race.begin, race.last(), WIDTH) as usize
}

// A leaf's attempt from its start to its end, with a `+` where a wait ended meanwhile.
fn cells_of(race: &Race, bar: &Bar) -> [u8; COLUMNS] {
    let mut cells = [b' '; COLUMNS];
    match bar.mark {
        Mark::Unstarted => {}
        _ => draw_attempt(&mut cells, race, bar),
    }
    cells
}

fn draw_attempt(cells: &mut [u8], race: &Race, bar: &Bar) {
    let first = column(race, bar.start);
    let last = column(race, bar.end);
    draw_line(cells, first, last);
    draw_waits(cells, race, bar);
    put(cells, first, b'|');
    put(cells, last, sign_of(bar.mark));
}

fn draw_line(cells: &mut [u8], first: usize, last: usize) {
    for (place, cell) in cells.iter_mut().enumerate() {
        if first <= place && place <= last {
            *cell = b'-';
        }
    }
}

fn draw_waits(cells: &mut [u8], race: &Race, bar: &Bar) {
    for at in &race.waits {
        if bar.start < *at && *at < bar.end {
            put(cells, column(race, *at), b'+');
        }
    }
}

fn put(cells: &mut [u8], place: usize, sign: u8) {
    if let Some(cell) = cells.get_mut(place) {
        *cell = sign;
    }
}

fn sign_of(mark: Mark) -> u8 {
    match mark {
        Mark::Ready | Mark::Completed => b'*',
        Mark::Refused(_) | Mark::Broke(_) => b'!',
        Mark::Closed => b'x',
        Mark::Unstarted | Mark::Running => b'-',
    }
}

// The moments above the bars, as far as there is room for each.
fn put_moments(text: &mut String, race: &Race) -> Result<(), NoMemory> {
    let mut row = String::from_str(*text.allocator(), "ms        ")?;
    fill_moments(&mut row, race)?;
    put_row(text, &row)
}

fn fill_moments(row: &mut String, race: &Race) -> Result<(), NoMemory> {
    let moments = sorted_moments(*row.allocator(), race)?;
    for at in &moments {
        put_moment(row, *at, column(race, *at).saturating_add(NAME))?;
    }
    Ok(())
}

// A moment's digits at a place, if it is the first or the place is past the one before.
fn put_moment(row: &mut String, at: u64, place: usize) -> Result<(), NoMemory> {
    if NAME < row.len() && place <= row.len() {
        return Ok(());
    }
    for _ in row.len()..place {
        row.push(' ')?;
    }
    let mut buffer = Buffer::new();
    row.push_str(buffer.format(at))?;
    Ok(())
}

/// The moments that are told, each once, in order.
pub fn sorted_moments(alloc: Global, race: &Race) -> Result<Vec<u64>, NoMemory> {
    let mut moments = Vec::new(alloc);
    gather(&mut moments, race)?;
    moments.sort()?;
    moments.dedup();
    Ok(moments)
}

fn gather(moments: &mut Vec<u64>, race: &Race) -> Result<(), NoMemory> {
    moments.extend_from_slice(&[race.begin, race.last(), race.now])?;
    moments.extend_from_slice(&race.waits)?;
    for bar in &race.bars {
        match bar.mark {
            Mark::Unstarted => {}
            _ => moments.extend_from_slice(&[bar.start, bar.end])?,
        }
    }
    Ok(())
}
