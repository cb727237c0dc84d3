ghost use Rattle.std.specs.Prelude.{◌≡◌, ◌<◌, ◌≤◌, ◌^◌, ◌+◌, ◌++◌, ◌||◌, ◌∷◌, [], ℕ, length, IfErr, OnOk, OnErr};
ghost use Rattle.std.specs.Ordering.{nat_cmp};
ghost use Rattle.std.specs.Option.{option_or};
ghost use Rattle.std.specs.BTreeSet.{contains};
ghost use Rattle.taps_script.specs.ScriptTexts.{LineFits, LinesFit};
ghost use Rattle.taps_script.specs.ScriptLines.{begin_in, begin_of, late_in, late_of, says_fault, is_to_fault, fate_under};
ghost use Rattle.taps_script.specs.Scripts.{texts_of, is_passed_over, delay_of, is_holds, is_echo, is_below, peer_bars, bars, are_barring, with_line, with_text, script_of, IsRefusal, IsMeaning};

use crate::line_text::{read_line, split_at_byte};
use crate::room::add;
use crate::{Fate, Line, PeerLine, ScriptError};
use std::alloc::Global;
use std::collections::BTreeSet;
use std::marker::Model;
use taps_base::NoMemory;

const MOST_LINES: u64 = 4096;

/// The lines of a script, which contracts see, and tables that spare a search of them.
#[derive(Drop)]
pub(crate) struct Script {
    lines: Vec<Line>,
    begin: Option<u64>,
    late: Option<u32>,
    faults: BTreeSet<u64>,
}

impl Model for Script {
    ghost use Rattle.std.specs.Prelude.{List};
    ghost use Rattle.taps_script.specs.declared.line.Line.{Line};

    ghost Value = { List Line };

    ghost use Rattle.taps_script.specs.ScriptTables.{AreTables};

    ghost view = { λ s. s.lines.items };

    ghost invariant = { λ s. AreTables s.lines.items s.begin s.late s.faults };
}

impl PeerLine {
    fn delay(&self) -> Option<u32>
        ensures { result ≡ delay_of self.now }
    {
        match self {
            PeerLine::Sends { delay, .. } => Some(*delay),
            PeerLine::Ends(delay) => Some(*delay),
            PeerLine::Fails(delay, _) => Some(*delay),
            PeerLine::Holds(_) => None,
            PeerLine::Echo => None,
        }
    }

    fn is_holds(&self) -> bool
        ensures { result ≡ is_holds self.now }
    {
        matches!(self, PeerLine::Holds(_))
    }

    fn is_echo(&self) -> bool
        ensures { result ≡ is_echo self.now }
    {
        matches!(self, PeerLine::Echo)
    }

    // Whether another may not follow it.
    fn bars(&self, later: &PeerLine) -> bool
        ensures { result ≡ peer_bars self.now later.now }
    {
        match self {
            PeerLine::Holds(_) => later.is_holds(),
            PeerLine::Echo => !later.is_holds(),
            PeerLine::Sends { delay, .. } => later.is_echo() || is_below(*delay, later.delay()),
            PeerLine::Ends(_) => !later.is_holds(),
            PeerLine::Fails(_, _) => !later.is_holds(),
        }
    }
}

fn is_below(delay: u32, other: Option<u32>) -> bool
    ensures { result ≡ is_below delay other }
{
    match other {
        Some(other) => other < delay,
        None => false,
    }
}

impl Line {
    // Whether another may not follow it.
    fn bars(&self, later: &Line) -> bool
        ensures { result ≡ bars self.now later.now }
    {
        match (self, later) {
            (Line::Begin(_), Line::Begin(_)) => true,
            (Line::Late(_), Line::Late(_)) => true,
            (Line::Fault(wait), Line::Fault(other)) => *wait == *other,
            (Line::Leaf { leaf, .. }, Line::Leaf { leaf: other, .. }) => *leaf == *other,
            (Line::Take(_), Line::Take(_)) => true,
            (Line::Give(_), Line::Give(_)) => true,
            (Line::Peer(line), Line::Peer(later)) => line.bars(later),
            _ => false,
        }
    }
}

fn begin_after(begin: Option<u64>, line: &Line) -> Option<u64>
    ensures { result ≡ option_or begin (begin_in (line.now ∷ [])) }
{
    match line {
        Line::Begin(moment) => begin.or(Some(*moment)),
        _ => begin,
    }
}

fn late_after(late: Option<u32>, line: &Line) -> Option<u32>
    ensures { result ≡ option_or late (late_in (line.now ∷ [])) }
{
    match line {
        Line::Late(delay) => late.or(Some(*delay)),
        _ => late,
    }
}

fn note_fault(faults: &mut BTreeSet<u64>, line: &Line) -> Result<(), NoMemory>
    ensures ok { OnOk result ((wait : ℕ)
        → contains nat_cmp faults.new wait ≡ (contains nat_cmp faults.old wait || says_fault wait line.now)) }
    ensures err { OnErr result ((wait : ℕ) → contains nat_cmp faults.new wait ≡ contains nat_cmp faults.old wait) }
{
    if let Line::Fault(wait) = line {
        faults.insert(u64::from(*wait))?;
    }
    Ok(())
}

// The text of the first line, and what follows its end.
fn split_line(bytes: &[u8]) -> (&[u8], &[u8])
    requires { 0 < length bytes.now }
    ensures texts { texts_of bytes.now ≡ result.0.now ∷ texts_of result.1.now }
    ensures shorter { length result.1.now < length bytes.now }
{
    match split_at_byte(b'\n', bytes) {
        Some(parts) => parts,
        None => (bytes, &[]),
    }
}

fn is_passed_over(text: &[u8]) -> bool
    ensures { result ≡ is_passed_over text.now }
{
    match text {
        [] => true,
        [first, ..] => *first == b'#',
    }
}

impl Script {
    /// The script of some bytes.
    pub(crate) fn read(alloc: Global, bytes: &[u8]) -> Result<Script, ScriptError>
        ensures { IsMeaning (λ lines. lines) (script_of bytes.now) result }
    {
        let mut script = Script::new(alloc);
        let mut number = 0;
        let mut rest = bytes;
        'lines: while !rest.is_empty() {
            let (text, after) = split_line(rest);
            number += 1;
            script.add_text(alloc, number, text)?;
            rest = after;
        }
        Ok(script)
    }

    // Adds the line of a text that stands at this number, counted from 1.
    fn add_text(&mut self, alloc: Global, number: u64, text: &[u8]) -> Result<(), ScriptError>
        requires { length self.old < number }
        ensures ok { OnOk result (with_text number self.old text.now ≡ Ok self.new) }
        ensures err { IfErr result (IsRefusal (with_text number self.old text.now)) }
        ensures few { OnOk result (number ≤ 4096) }
        ensures more { OnOk result (length self.new ≤ number) }
    {
        if number > MOST_LINES {
            return Err(ScriptError::Line(number));
        }
        if is_passed_over(text) {
            return Ok(());
        }
        let line = read_line(alloc, text)?;
        match line {
            Some(line) => self.add_line(number, line),
            None => Err(ScriptError::Line(number)),
        }
    }

    fn add_line(&mut self, number: u64, line: Line) -> Result<(), ScriptError>
        requires fits { LineFits line }
        requires few { length self.old < 4096 }
        ensures ok { OnOk result (with_line number self.old (Some line) ≡ Ok self.new) }
        ensures err { IfErr result (IsRefusal (with_line number self.old (Some line))) }
        ensures more { OnOk result (length self.new ≤ length self.old + 1) }
    {
        if self.is_barring(&line) {
            return Err(ScriptError::Line(number));
        }
        self.add(line)?;
        Ok(())
    }

    fn new(alloc: Global) -> Script
        ensures { result ≡ [] }
    {
        Script {
            lines: Vec::new(alloc),
            begin: None,
            late: None,
            faults: BTreeSet::new(alloc),
        }
    }

    fn is_barring(&self, line: &Line) -> bool
        ensures { result ≡ are_barring self.now line.now }
    {
        self.lines.iter().any(|l| l.bars(line))
    }

    // Adds a line. Without memory nothing is changed.
    fn add(&mut self, line: Line) -> Result<(), NoMemory>
        requires fits { LineFits line }
        requires few { length self.old < 4096 }
        ensures { OnOk result (self.new ≡ self.old ++ line ∷ []) }
    {
        self.lines.reserve(1)?;
        note_fault(&mut self.faults, &line)?;
        self.begin = begin_after(self.begin, &line);
        self.late = late_after(self.late, &line);
        add(&mut self.lines, line);
        Ok(())
    }

    /// The lines, in order.
    pub(crate) fn lines(&self) -> &[Line]
        ensures lines { result.now ≡ self.now }
        ensures fit { LinesFit self.now }
        ensures few { length self.now ≤ 4096 }
    {
        &self.lines
    }

    /// The first moment of the clock.
    pub(crate) fn begin(&self) -> u64
        ensures begin { result ≡ begin_of self.now }
        ensures fits { result < 2 ^ 63 }
    {
        match self.begin {
            Some(moment) => moment,
            None => 0,
        }
    }

    /// How much later each wait that is reached ends.
    pub(crate) fn late(&self) -> u32
        ensures { result ≡ late_of self.now }
    {
        match self.late {
            Some(delay) => delay,
            None => 0,
        }
    }

    /// Whether the wait of this number, counted from 0, is to fault.
    pub(crate) fn is_to_fault(&self, wait: u64) -> bool
        ensures { result ≡ is_to_fault self.now wait }
    {
        self.faults.contains(&wait)
    }

    /// What becomes of the start under this number.
    pub(crate) fn fate(&self, leaf: u32) -> Fate
        ensures { result ≡ fate_under leaf self.now }
    {
        fate_in(&self.lines, leaf)
    }
}

fn fate_in(lines: &[Line], leaf: u32) -> Fate
    ensures { result ≡ fate_under leaf lines.now }
{
    for line in lines {
        if let Line::Leaf { leaf: its, fate } = line
            && *its == leaf
        {
            return *fate;
        }
    }
    Fate::Silent
}
