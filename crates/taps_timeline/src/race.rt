// What a log tells of each leaf and of the race as a whole.
use std::alloc::Global;
use taps_base::NoMemory;
use taps_log::{Cause, Ending, How, Line, Start};

/// How a leaf's attempt ended.
#[derive(Clone, Copy)]
pub enum Mark {
    /// It was never started.
    Unstarted,
    /// It has not ended.
    Running,
    /// Its start failed at once.
    Refused(Cause),
    /// Its socket failed.
    Broke(Cause),
    /// Its socket is established.
    Completed,
    /// Its socket won.
    Ready,
    /// Its socket was closed.
    Closed,
}

/// A leaf: from its attempt to its end. Moments are in milliseconds.
#[derive(Drop)]
pub struct Bar {
    pub leaf: u64,
    /// Its path, its stack and its address.
    pub place: String,
    pub gap: u64,
    pub start: u64,
    pub end: u64,
    pub mark: Mark,
    socket: Option<u64>,
}

/// What followed the race, or came beside it.
#[derive(Drop)]
pub struct Note {
    pub at: u64,
    pub text: String,
}

/// A race as its log tells it.
#[derive(Drop)]
pub struct Race {
    alloc: Global,
    pub bars: Vec<Bar>,
    pub notes: Vec<Note>,
    /// The moments at which a wait ended with nothing told.
    pub waits: Vec<u64>,
    pub begin: u64,
    /// The last moment told.
    pub now: u64,
    /// Why the race or the session ended.
    pub ending: Option<Ending>,
    /// A leaf won.
    pub won: bool,
    newest: u64,
}

impl Race {
    /// A race of which nothing is told.
    pub fn new(alloc: Global) -> Race {
        Race {
            alloc,
            bars: Vec::new(alloc),
            notes: Vec::new(alloc),
            waits: Vec::new(alloc),
            begin: 0,
            now: 0,
            ending: None,
            won: false,
            newest: 0,
        }
    }

    /// Takes one line of its log.
    pub fn take(&mut self, line: &Line<'_>, text: &[u8]) -> Result<(), NoMemory> {
        match line {
            Line::Leaf { leaf, place, gap } => self.take_leaf(*leaf, place, gap.unwrap_or(0)),
            Line::Began(at) => {
                self.begin = *at;
                self.now = *at;
                self.newest = *at;
                Ok(())
            }
            Line::Started { leaf, start, at } => {
                self.take_start(*leaf, *start, *at);
                Ok(())
            }
            Line::Waited { how, at, .. } => self.take_wait(*how, *at),
            Line::Closed(socket) => {
                self.end_socket(*socket, Mark::Closed);
                Ok(())
            }
            Line::Ready(leaf) => {
                self.take_winner(*leaf);
                Ok(())
            }
            Line::Ends(ending) => {
                self.ending = Some(*ending);
                Ok(())
            }
            _ => self.take_other(line, text),
        }
    }

    fn take_leaf(&mut self, leaf: u64, place: &[u8], gap: u64) -> Result<(), NoMemory> {
        let place = shown(self.alloc, place)?;
        self.bars.push(Bar {
            leaf,
            place,
            gap,
            start: 0,
            end: 0,
            mark: Mark::Unstarted,
            socket: None,
        })?;
        Ok(())
    }

    fn take_start(&mut self, leaf: u64, start: Start, at: u64) {
        self.now = at;
        self.newest = at;
        for bar in &mut self.bars {
            if bar.leaf == leaf {
                bar.start = at;
                bar.end = at;
                match start {
                    Start::Socket(socket) => {
                        bar.socket = Some(socket);
                        bar.mark = Mark::Running;
                    }
                    Start::Refused(cause) => bar.mark = Mark::Refused(cause),
                }
            }
        }
    }

    fn take_wait(&mut self, how: How, at: u64) -> Result<(), NoMemory> {
        self.now = at;
        match how {
            How::Reached => self.waits.push(at)?,
            How::Completed(socket) => self.end_socket(socket, Mark::Completed),
            How::Broke(socket, cause) => self.end_socket(socket, Mark::Broke(cause)),
            How::Faulted => {}
        }
        Ok(())
    }

    // The socket's bar ends now, unless it has ended.
    fn end_socket(&mut self, socket: u64, mark: Mark) {
        for bar in &mut self.bars {
            if bar.socket == Some(socket) {
                match bar.mark {
                    Mark::Running => {
                        bar.end = self.now;
                        bar.mark = mark;
                    }
                    _ => {}
                }
            }
        }
    }

    fn take_winner(&mut self, leaf: u64) {
        self.won = true;
        for bar in &mut self.bars {
            if bar.leaf == leaf {
                bar.mark = Mark::Ready;
            }
        }
    }

    // What is no part of the race stands below it, as it was written.
    fn take_other(&mut self, line: &Line<'_>, text: &[u8]) -> Result<(), NoMemory> {
        match line {
            Line::Leaves(_) => return Ok(()),
            Line::Sent { count: 0, .. } => return Ok(()),
            Line::Listening { at, .. } => self.now = *at,
            Line::NotListening { at, .. } => self.now = *at,
            Line::Accepted { at, .. } => self.now = *at,
            Line::Faulted(at) => self.now = *at,
            _ => {}
        }
        let text = shown(self.alloc, text)?;
        self.notes.push(Note { at: self.now, text })?;
        Ok(())
    }

    /// When the next leaf would have been tried: the end of its gap.
    pub fn due(&self) -> Option<(u64, u64)> {
        for bar in &self.bars {
            if let Mark::Unstarted = bar.mark {
                return Some((bar.leaf, self.newest.saturating_add(bar.gap)));
            }
        }
        None
    }

    /// When this leaf would have been tried, if it is the next one.
    pub fn due_of(&self, bar: &Bar) -> Option<u64> {
        match self.due() {
            Some((leaf, due)) if leaf == bar.leaf && is_unstarted(bar.mark) => Some(due),
            _ => None,
        }
    }

    /// The last moment that is drawn.
    pub fn last(&self) -> u64 {
        match self.due() {
            Some((_, due)) if self.won => self.now.max(due),
            _ => self.now,
        }
    }
}

fn is_unstarted(mark: Mark) -> bool {
    matches!(mark, Mark::Unstarted)
}

/// How many bytes of a text are shown.
const MOST_SHOWN: usize = 72;

// The text with a `?` for each byte that is no visible character, cut where it is long.
fn shown(alloc: Global, bytes: &[u8]) -> Result<String, NoMemory> {
    let mut text = String::new(alloc);
    for byte in bytes.iter().take(MOST_SHOWN) {
        if 32 <= *byte && *byte <= 126 {
            text.push(char::from(*byte))?;
        } else {
            text.push('?')?;
        }
    }
    if bytes.len() > MOST_SHOWN {
        text.push_str("..")?;
    }
    Ok(text)
}
