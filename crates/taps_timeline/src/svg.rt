// The timeline as a picture.
use crate::race::{Bar, Mark, Note, Race};
use crate::scale::place_of;
use crate::text::sorted_moments;
use crate::words::{put_end_of, whole_end};
use itoa::Buffer;
use std::alloc::Global;
use taps_base::NoMemory;

const LEFT: u64 = 280;

const WIDTH: u64 = 560;

const ALL: u64 = 1080;

const ROW: u64 = 34;

const TOP: u64 = 48;

const STYLE: &str = "<style>\n\
.page{fill:#ffffff}.ink{fill:#1b1f24}.faint{fill:#59636e}.line{stroke:#d1d9e0}.wait{stroke:#59636e;stroke-dasharray:3 3}\n\
.lost{fill:#6e7781}.bad{fill:#cf222e}.good{fill:#1a7f37}.open{fill:#0969da}\n\
@media (prefers-color-scheme:dark){.page{fill:#0d1117}.ink{fill:#f0f6fc}.faint{fill:#9198a1}.line{stroke:#3d444d}\
.wait{stroke:#9198a1}.lost{fill:#8b949e}.bad{fill:#f85149}.good{fill:#3fb950}.open{fill:#58a6ff}}\n\
text{font-family:ui-monospace,Menlo,Consolas,monospace;font-size:13px}\n\
.faint{font-size:11px}\n</style>\n";

/// Draws the race with one bar a leaf.
pub fn draw_svg(alloc: Global, race: &Race) -> Result<String, NoMemory> {
    let mut svg = String::new(alloc);
    put_picture(&mut svg, race)?;
    Ok(svg)
}

fn put_picture(svg: &mut String, race: &Race) -> Result<(), NoMemory> {
    put_page(svg, row_top(rows_of(race)).saturating_add(ROW))?;
    put_moments(svg, race)?;
    put_bars(svg, race)?;
    put_notes(svg, race)?;
    put_end(svg, race)
}

fn rows_of(race: &Race) -> usize {
    race.bars.len().saturating_add(race.notes.len())
}

// Where a row begins, counted from 0.
fn row_top(row: usize) -> u64 {
    (row as u64).saturating_mul(ROW).saturating_add(TOP)
}

fn put_page(svg: &mut String, height: u64) -> Result<(), NoMemory> {
    write!(
        svg,
        "<svg xmlns=\"http://www.w3.org/2000/svg\" width=\"{ALL}\" height=\"{height}\" viewBox=\"0 0 {ALL} {height}\">\n"
    )?;
    svg.push_str("<title>A race of connection attempts</title>\n")?;
    svg.push_str(STYLE)?;
    put_background(svg, height)
}

fn put_background(svg: &mut String, height: u64) -> Result<(), NoMemory> {
    write!(
        svg,
        "<rect class=\"page\" width=\"{ALL}\" height=\"{height}\"/>\n"
    )?;
    Ok(())
}

fn put_bars(svg: &mut String, race: &Race) -> Result<(), NoMemory> {
    for (row, bar) in race.bars.iter().enumerate() {
        put_bar(svg, race, bar, row_top(row))?;
    }
    Ok(())
}

fn put_notes(svg: &mut String, race: &Race) -> Result<(), NoMemory> {
    for (row, note) in race.notes.iter().enumerate() {
        put_note(svg, note, row_top(race.bars.len().saturating_add(row)))?;
    }
    Ok(())
}

fn put_note(svg: &mut String, note: &Note, y: u64) -> Result<(), NoMemory> {
    open_text(svg, "ink", 16, y.saturating_add(16))?;
    write!(svg, "at {}: ", note.at)?;
    put_escaped(svg, note.text.as_str())?;
    close_text(svg)
}

fn put_end(svg: &mut String, race: &Race) -> Result<(), NoMemory> {
    let y = row_top(rows_of(race));
    open_text(svg, "faint", 16, y.saturating_add(12))?;
    svg.push_str("end: ")?;
    svg.push_str(whole_end(race))?;
    svg.push_str("</text>\n</svg>\n")?;
    Ok(())
}

fn x_of(race: &Race, at: u64) -> u64 {
    place_of(at, race.begin, race.last(), WIDTH).saturating_add(LEFT)
}

// The moments above, each with a line through the bars.
fn put_moments(svg: &mut String, race: &Race) -> Result<(), NoMemory> {
    put_text(svg, "faint", 16, 24, "milliseconds")?;
    let moments = sorted_moments(*svg.allocator(), race)?;
    let foot = row_top(race.bars.len());
    let mut free = 0;
    for at in &moments {
        put_line(svg, line_class(race, *at), x_of(race, *at), foot)?;
        free = put_moment(svg, *at, x_of(race, *at), free)?;
    }
    Ok(())
}

// A moment's digits, if there is room for them, and from where on there is room behind them.
fn put_moment(svg: &mut String, at: u64, x: u64, free: u64) -> Result<u64, NoMemory> {
    if x < free {
        return Ok(free);
    }
    let mut buffer = Buffer::new();
    let digits = buffer.format(at);
    put_text(svg, "ink", x, 24, digits)?;
    Ok(x.saturating_add((digits.len() as u64 + 1) * 8))
}

// A moment at which a wait ended with nothing told has a dashed line.
fn line_class(race: &Race, at: u64) -> &'static str {
    if race.waits.contains(&at) {
        "wait"
    } else {
        "line"
    }
}

fn put_line(svg: &mut String, class: &str, x: u64, foot: u64) -> Result<(), NoMemory> {
    write!(
        svg,
        "<line class=\"{class}\" x1=\"{x}\" x2=\"{x}\" y1=\"32\" y2=\"{foot}\"/>\n"
    )?;
    Ok(())
}

// A leaf's name and place, its attempt, and how it ended.
fn put_bar(svg: &mut String, race: &Race, bar: &Bar, y: u64) -> Result<(), NoMemory> {
    put_name(svg, bar.leaf, y.saturating_add(10))?;
    put_text(svg, "faint", 16, y.saturating_add(24), bar.place.as_str())?;
    put_attempt(svg, race, bar, y.saturating_add(4))?;
    open_text(
        svg,
        end_class(bar.mark),
        LEFT + WIDTH + 16,
        y.saturating_add(15),
    )?;
    put_end_of(svg, race, bar)?;
    close_text(svg)
}

fn put_name(svg: &mut String, leaf: u64, y: u64) -> Result<(), NoMemory> {
    open_text(svg, "ink", 16, y)?;
    write!(svg, "leaf {leaf}")?;
    close_text(svg)
}

fn put_attempt(svg: &mut String, race: &Race, bar: &Bar, y: u64) -> Result<(), NoMemory> {
    if let Mark::Unstarted = bar.mark {
        return Ok(());
    }
    let x = x_of(race, bar.start);
    let width = x_of(race, bar.end).saturating_sub(x).max(4);
    put_rect(svg, class_of(bar.mark), x, y, width)
}

fn put_rect(svg: &mut String, class: &str, x: u64, y: u64, width: u64) -> Result<(), NoMemory> {
    write!(
        svg,
        "<rect class=\"{class}\" x=\"{x}\" y=\"{y}\" width=\"{width}\" height=\"14\" rx=\"2\"/>\n"
    )?;
    Ok(())
}

fn class_of(mark: Mark) -> &'static str {
    match mark {
        Mark::Ready | Mark::Completed => "good",
        Mark::Refused(_) | Mark::Broke(_) => "bad",
        Mark::Closed | Mark::Unstarted => "lost",
        Mark::Running => "open",
    }
}

// How the end of a leaf is shown.
fn end_class(mark: Mark) -> &'static str {
    match mark {
        Mark::Unstarted => "faint",
        _ => class_of(mark),
    }
}

fn put_text(svg: &mut String, class: &str, x: u64, y: u64, text: &str) -> Result<(), NoMemory> {
    open_text(svg, class, x, y)?;
    put_escaped(svg, text)?;
    close_text(svg)
}

fn open_text(svg: &mut String, class: &str, x: u64, y: u64) -> Result<(), NoMemory> {
    write!(svg, "<text class=\"{class}\" x=\"{x}\" y=\"{y}\">")?;
    Ok(())
}

fn close_text(svg: &mut String) -> Result<(), NoMemory> {
    svg.push_str("</text>\n")?;
    Ok(())
}

fn put_escaped(svg: &mut String, text: &str) -> Result<(), NoMemory> {
    for c in text.chars() {
        put_char(svg, c)?;
    }
    Ok(())
}

fn put_char(svg: &mut String, c: char) -> Result<(), NoMemory> {
    match entity_of(c) {
        Some(entity) => svg.push_str(entity)?,
        None => svg.push(c)?,
    }
    Ok(())
}

// How a character is written that has a meaning of its own.
fn entity_of(c: char) -> Option<&'static str> {
    match c {
        '&' => Some("&amp;"),
        '<' => Some("&lt;"),
        '>' => Some("&gt;"),
        _ => None,
    }
}
