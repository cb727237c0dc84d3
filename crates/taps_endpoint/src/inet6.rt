ghost use Rattle.std.specs.Prelude.{◌≡◌, ◌≤◌, ◌<◌, ◌+◌, ◌++◌, ◌∷◌, length, [], Some, None, option_and_then, option_map, IfSome, IsTrue};
ghost use Rattle.taps_endpoint.specs.Inet6Texts.{hex_digit};
ghost use Rattle.taps_endpoint.specs.Inet6Machine.{room, quad_fits, reading, after_field, quad_of, at_end_inet6, start_inet6, begin, open_gap, next, step_inet6, fields_of, IsSmall};
ghost use Rattle.taps_endpoint.specs.Inet4Machine.{step_inet4, AreOctets};
ghost use Rattle.taps_endpoint.specs.Machines.{Advances};

use crate::fields::{Fields, spread_fields};
use crate::inet4::{self, Inet4State};
use crate::machine::Machine;

/// What is read now.
#[derive(Clone, Copy, Debug)]
pub enum Token {
    /// Nothing was read.
    Start,
    /// A `:` at the start, which another must follow.
    FirstColon,
    /// The `::`.
    Gap,
    /// A `:` behind a field.
    Colon,
    /// A field, which may also be the first number of an IPv4 text.
    Digits {
        value: u16,
        count: u8,
        quad: Option<Inet4State>,
    },
    /// An IPv4 text behind its first `.`.
    Quad(Inet4State),
}

/// How far an address was read: the fields before the `::`, if it was read, the fields since, and what is read now.
#[derive(Drop)]
pub struct Inet6State {
    front: Option<Fields>,
    fields: Fields,
    token: Token,
}

fn hex_digit_of(byte: u8) -> Option<u16>
    ensures value { result ≡ hex_digit byte }
    ensures small { IfSome result (λ d. d < 16) }
{
    match byte {
        b'0'..=b'9' => Some(u16::from(byte - b'0')),
        b'A'..=b'F' => Some(u16::from(byte - b'A') + 10),
        b'a'..=b'f' => Some(u16::from(byte - b'a') + 10),
        _ => None,
    }
}

fn room_for(front: &Option<Fields>) -> usize
    ensures { result ≡ room front.now }
{
    match front {
        None => 8,
        Some(front) => 7usize.saturating_sub(front.count()),
    }
}

fn quad_may_begin(front: &Option<Fields>, fields: &Fields) -> bool
    ensures { result ≡ quad_fits front.now fields.now }
{
    match front {
        None => fields.count() == 6,
        Some(_) => fields.count() + 2 <= room_for(front),
    }
}

fn advance_quad(quad: Option<Inet4State>, byte: u8) -> Option<Inet4State>
    requires { IfSome quad AreOctets }
    ensures steps { result ≡ option_and_then (λ s. step_inet4 s byte) quad }
    ensures small { IfSome result AreOctets }
{
    inet4::step(quad?, byte)
}

impl Inet6State {
    fn read_now(&mut self, token: Token)
        ensures { self.new ≡ reading self.old.front self.old.fields token }
    {
        self.token = token;
    }

    fn begin_field(&mut self, byte: u8) -> bool
        requires front { IfSome self.old.front (λ f. length f ≤ 7) }
        requires room { length self.old.fields < room self.old.front }
        ensures steps { Advances (begin self.old.front self.old.fields byte) result self.new }
        ensures small { IsTrue result → IsSmall self.new }
    {
        let quad = if quad_may_begin(&self.front, &self.fields) {
            inet4::step(inet4::start(), byte)
        } else {
            None
        };
        match hex_digit_of(byte) {
            Some(value) => {
                self.read_now(Token::Digits {
                    value,
                    count: 1,
                    quad,
                });
                true
            }
            None => false,
        }
    }

    fn begin_gap(&mut self) -> bool
        requires { length self.old.fields ≤ 7 }
        ensures steps { Advances (open_gap self.old.front self.old.fields) result self.new }
        ensures small { IsTrue result → IsSmall self.new }
    {
        match self.front {
            None => {
                self.front = Some(self.fields.take());
                self.token = Token::Gap;
                true
            }
            Some(_) => false,
        }
    }

    fn end_field(&mut self, value: u16) -> bool
        requires front { IfSome self.old.front (λ f. length f ≤ 7) }
        requires room { length self.old.fields < room self.old.front }
        ensures steps { Advances (after_field self.old.front self.old.fields value) result self.new }
        ensures small { IsTrue result → IsSmall self.new }
    {
        if self.fields.count() + 1 < room_for(&self.front) {
            self.fields.push(value);
            self.token = Token::Colon;
            return true;
        }
        false
    }

    fn more_digits(&mut self, value: u16, count: u8, quad: Option<Inet4State>, byte: u8) -> bool
        requires { IsSmall (reading self.old.front self.old.fields (Token.Digits value count quad)) }
        ensures steps { Advances
            (next self.old.front self.old.fields (Token.Digits value count quad) byte) result self.new }
        ensures small { IsTrue result → IsSmall self.new }
    {
        if byte == b':' {
            return self.end_field(value);
        }
        let quad = advance_quad(quad, byte);
        if byte == b'.' {
            return self.begin_quad(quad);
        }
        if count >= 4 {
            return false;
        }
        match hex_digit_of(byte) {
            Some(digit) => {
                self.read_now(Token::Digits {
                    value: 16 * value + digit,
                    count: count + 1,
                    quad,
                });
                true
            }
            None => false,
        }
    }

    fn begin_quad(&mut self, quad: Option<Inet4State>) -> bool
        requires front { IfSome self.old.front (λ f. length f ≤ 7) }
        requires room { IfSome quad (λ _. length self.old.fields + 2 ≤ room self.old.front) }
        requires small { IfSome quad AreOctets }
        ensures steps { Advances
            (option_map (λ s. reading self.old.front self.old.fields (Token.Quad s)) quad) result self.new }
        ensures small { IsTrue result → IsSmall self.new }
    {
        match quad {
            Some(quad) => {
                self.read_now(Token::Quad(quad));
                true
            }
            None => false,
        }
    }

    fn more_of_quad(&mut self, quad: Inet4State, byte: u8) -> bool
        requires { IsSmall (reading self.old.front self.old.fields (Token.Quad quad)) }
        ensures steps { Advances (next self.old.front self.old.fields (Token.Quad quad) byte) result self.new }
        ensures small { IsTrue result → IsSmall self.new }
    {
        match inet4::step(quad, byte) {
            Some(quad) => {
                self.read_now(Token::Quad(quad));
                true
            }
            None => false,
        }
    }

    fn step(&mut self, token: Token, byte: u8) -> bool
        requires { IsSmall (reading self.old.front self.old.fields token) }
        ensures steps { Advances (next self.old.front self.old.fields token byte) result self.new }
        ensures small { IsTrue result → IsSmall self.new }
    {
        match token {
            Token::Start => {
                if byte == b':' {
                    self.read_now(Token::FirstColon);
                    return true;
                }
                self.begin_field(byte)
            }
            Token::FirstColon => {
                if byte == b':' {
                    return self.begin_gap();
                }
                false
            }
            Token::Gap => {
                if self.fields.count() < room_for(&self.front) {
                    return self.begin_field(byte);
                }
                false
            }
            Token::Colon => {
                if byte == b':' {
                    return self.begin_gap();
                }
                self.begin_field(byte)
            }
            Token::Digits { value, count, quad } => self.more_digits(value, count, quad, byte),
            Token::Quad(quad) => self.more_of_quad(quad, byte),
        }
    }
}

impl Machine for Inet6State {
    type Value = [u16; 8];

    ghost step = { step_inet6 };

    ghost at_end = { at_end_inet6 };

    ghost is_small = { IsSmall };

    ghost start = { start_inet6 };

    fn begin() -> Self {
        start()
    }

    #[tactic(auto, unfolding(crate::specs::Inet6Machine::step_inet6))]
    fn advance(&mut self, byte: u8) -> bool {
        self.step(self.token, byte)
    }

    #[tactic(auto, unfolding(crate::specs::Inet6Machine::at_end_inet6))]
    fn finish(&self) -> Option<Self::Value> {
        match self.token {
            Token::Start => None,
            Token::FirstColon => None,
            Token::Gap => all_fields(&self.front, &self.fields),
            Token::Colon => None,
            Token::Digits {
                value,
                count: _,
                quad: _,
            } => with_last(&self.front, &self.fields, value),
            Token::Quad(quad) => with_quad(&self.front, &self.fields, quad),
        }
    }
}

fn all_fields(front: &Option<Fields>, fields: &Fields) -> Option<[u16; 8]>
    requires { IfSome front.now (λ f. length f + length fields.now ≤ 8) }
    ensures { result ≡ fields_of front.now fields.now }
{
    match front {
        None => {
            if fields.count() == 8 {
                Some(spread_fields(&Fields::new(), fields))
            } else {
                None
            }
        }
        Some(front) => Some(spread_fields(front, fields)),
    }
}

fn with_last(front: &Option<Fields>, fields: &Fields, value: u16) -> Option<[u16; 8]>
    requires front { IfSome front.now (λ f. length f ≤ 7) }
    requires room { length fields.now < room front.now }
    ensures { result ≡ fields_of front.now (fields.now ++ value ∷ []) }
{
    let mut all = fields.copy();
    all.push(value);
    all_fields(front, &all)
}

fn with_quad(front: &Option<Fields>, fields: &Fields, quad: Inet4State) -> Option<[u16; 8]>
    requires front { IfSome front.now (λ f. length f ≤ 7) }
    requires room { length fields.now + 2 ≤ room front.now }
    requires quad { AreOctets quad }
    ensures { result ≡ option_and_then (λ two. fields_of front.now (fields.now ++ two)) (quad_of quad) }
{
    let [high, low] = inet4::two_fields(quad)?;
    let mut all = fields.copy();
    all.push(high);
    all.push(low);
    all_fields(front, &all)
}

pub fn start() -> Inet6State
    ensures start { result ≡ start_inet6 }
    ensures small { IsSmall result }
{
    Inet6State {
        front: None,
        fields: Fields::new(),
        token: Token::Start,
    }
}
