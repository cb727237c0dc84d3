ghost use Rattle.std.specs.Prelude.{◌≡◌, ℕ, ◌+◌, ◌<◌, ◌≤◌, List, [], ◌∷◌, ◌++◌, length, take, slice_index};
ghost use Rattle.taps_endpoint.specs.Inet6Texts.{spread};

use std::marker::Model;

/// The fields that were read, in order.
#[derive(Drop)]
pub struct Fields {
    fields: [u16; 8],
    count: usize,
}

impl Model for Fields {
    ghost Value = { List ℕ };

    ghost view = { λ f. take f.count f.fields };

    ghost invariant = { λ f. f.count ≤ 8 };
}

impl Fields {
    pub fn new() -> Self
        ensures { result ≡ [] }
    {
        Fields {
            fields: [0; 8],
            count: 0,
        }
    }

    pub fn count(&self) -> usize
        ensures count { result ≡ length self.now }
        ensures most { result ≤ 8 }
    {
        self.count
    }

    pub fn push(&mut self, field: u16)
        requires { length self.old < 8 }
        ensures { self.new ≡ self.old ++ field ∷ [] }
    {
        self.fields[self.count] = field;
        self.count += 1;
    }

    /// The same fields once more.
    pub fn copy(&self) -> Fields
        ensures { result ≡ self.now }
    {
        Fields {
            fields: self.fields,
            count: self.count,
        }
    }

    /// Takes all fields, which leaves none.
    pub fn take(&mut self) -> Fields
        ensures taken { result ≡ self.old }
        ensures left { self.new ≡ [] }
    {
        let taken = self.copy();
        self.count = 0;
        taken
    }

    fn get(&self, index: usize) -> u16
        requires fits { index < 8 }
        requires within { index < length self.now }
        ensures { result ≡ slice_index self.now index }
    {
        self.fields[index]
    }
}

fn field_at(front: &Fields, back: &Fields, index: usize) -> u16
    requires index { index < 8 }
    requires fits { length front.now + length back.now ≤ 8 }
    ensures { result ≡ slice_index (spread front.now back.now) index }
{
    let zeros_end = 8 - back.count();
    if index < front.count() {
        front.get(index)
    } else if index < zeros_end {
        0
    } else {
        back.get(index - zeros_end)
    }
}

/// The eight fields, with zeros between the front and the back.
pub fn spread_fields(front: &Fields, back: &Fields) -> [u16; 8]
    requires { length front.now + length back.now ≤ 8 }
    ensures { result ≡ spread front.now back.now }
{
    [
        field_at(front, back, 0),
        field_at(front, back, 1),
        field_at(front, back, 2),
        field_at(front, back, 3),
        field_at(front, back, 4),
        field_at(front, back, 5),
        field_at(front, back, 6),
        field_at(front, back, 7),
    ]
}
