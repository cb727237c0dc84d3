// Searches over a race's attempts, and changes of them.
ghost use Rattle.std.specs.Prelude.{◌≡◌, ◌<◌, ◌≤◌, ◌+◌, ◌++◌, [], ◌∷◌, length, map, slice_index_or, slice_set, vec_len, vec_capacity};
ghost use Rattle.taps_socket.specs.Winner.{place_of, is_socket};
ghost use Rattle.taps_racer.specs.Attempts.{socket_of, marked};

use crate::{Attempt, State};

fn is_at(attempt: &Attempt, socket: u32) -> bool
    ensures { result ≡ is_socket socket (socket_of attempt.now) }
{
    match attempt.socket() {
        Some(its) => its == socket,
        None => false,
    }
}

/// The place of the attempt with this socket, or the number of attempts.
pub(crate) fn place_in(attempts: &[Attempt], socket: u32) -> usize
    ensures place { result ≡ place_of socket (map socket_of attempts.now) }
    ensures within { result ≤ length attempts.now }
{
    let mut rest = attempts;
    let mut place = 0;
    while let [first, after @ ..] = rest {
        if is_at(first, socket) {
            return place;
        }
        place += 1;
        rest = after;
    }
    place
}

/// Notes what became of the socket of the attempt at a place.
pub(crate) fn mark_at(attempts: &mut [Attempt], place: usize, socket: u32, state: State)
    requires { place < length attempts.old }
    ensures { (d : _) → attempts.new ≡
        slice_set attempts.old place (marked socket state (slice_index_or attempts.old place d)) }
{
    attempts[place] = attempts[place].marked(socket, state);
}

/// Adds an attempt where there is room.
pub(crate) fn add(attempts: &mut Vec<Attempt>, attempt: Attempt)
    requires { vec_len attempts.old < vec_capacity attempts.old }
    ensures items { attempts.new.items ≡ attempts.old.items ++ attempt ∷ [] }
    ensures len { vec_len attempts.new ≡ vec_len attempts.old + 1 }
    ensures room { vec_capacity attempts.old ≤ vec_capacity attempts.new }
{
    match attempts.push(attempt) {
        Ok(()) => {}
        Err(_) => unreachable!(),
    }
}
