ghost use Rattle.std.specs.Prelude.{◌≡◌, ◌<◌, ◌+◌, ◌^◌, []};
ghost use Rattle.taps_rank.specs.Turns.{round_in, turn_in, turns_after, turns_with};

use taps_endpoint::Family;

/// The turn of an address: how many of its family came before, and whether it is of the family of
/// the first address, 0, or not, 1.
#[derive(Clone, Copy, Debug, PartialEq, Eq)]
pub struct Turn {
    pub round: u64,
    pub side: u64,
}

/// What the turns of later addresses depend on: how many there were of each family, and which
/// family was first.
#[derive(Clone, Copy, Debug)]
pub struct Turns {
    pub rounds: [u64; 3],
    pub first: Option<Family>,
}

impl Turns {
    /// No address yet.
    pub fn new() -> Turns
        ensures { result ≡ turns_after [] }
    {
        Turns {
            rounds: [0; 3],
            first: None,
        }
    }

    /// The turn of the next address, which is of this family.
    pub fn take(&mut self, family: Family) -> Turn
        requires { round_in self.old family + 1 < 2 ^ 64 }
        ensures turn { result ≡ turn_in self.old family }
        ensures taken { self.new ≡ turns_with family self.old }
    {
        let place = family as usize;
        let round = self.rounds[place];
        let first = self.first.unwrap_or(family);
        self.rounds[place] = round + 1;
        self.first = Some(first);
        Turn {
            round,
            side: (first != family) as u64,
        }
    }
}
