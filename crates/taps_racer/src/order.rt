// The sockets of a race in the order of their numbers.
ghost use Rattle.std.specs.Prelude.{◌≡◌, ◌<◌, ◌≤◌, true, not, min, length, map, filter, vec_len, vec_capacity, slice_index_or};
ghost use Rattle.std.specs.List.{insert, reduce, filter_map};
ghost use Rattle.taps_racer.specs.Attempts.{socket_of, open_socket, pending_socket, marked};
ghost use Rattle.taps_racer.specs.Order as numbers;
ghost use Rattle.taps_socket.specs.RaceSockets.{has};
ghost use Rattle.taps_socket.specs.Winner.{is_winner};

use crate::attempts::mark_at;
use crate::{Attempt, State};
use taps_socket::RaceAnswer;

/// A socket, with the place of its attempt.
#[derive(Clone, Copy)]
pub(crate) struct Numbered {
    pub socket: u32,
    pub place: u32,
}

/// Whether some attempt had this socket.
pub(crate) fn had_socket(attempts: &[Attempt], order: &[Numbered], socket: u32) -> bool
    requires { numbers.AreNumbered attempts.now order.now }
    ensures { result ≡ has (filter_map socket_of attempts.now) socket }
{
    match find(order, socket) {
        Some(_) => true,
        None => false,
    }
}

/// Whether this socket is pending.
pub(crate) fn is_pending(attempts: &[Attempt], order: &[Numbered], socket: u32) -> bool
    requires { numbers.AreNumbered attempts.now order.now }
    ensures { result ≡ has (filter_map pending_socket attempts.now) socket }
{
    match find(order, socket) {
        Some(place) => is_pending_at(attempts, place),
        None => false,
    }
}

fn is_pending_at(attempts: &[Attempt], place: usize) -> bool
    requires { place < length attempts.now }
    ensures { (d : _) → result ≡ numbers.is_pending (slice_index_or attempts.now place d) }
{
    attempts[place].is_pending()
}

/// Notes what became of a socket.
pub(crate) fn mark(attempts: &mut [Attempt], order: &[Numbered], socket: u32, state: State)
    requires { numbers.AreNumbered attempts.old order.now }
    ensures { attempts.new ≡ map (marked socket state) attempts.old }
{
    match find(order, socket) {
        Some(place) => mark_at(attempts, place, socket, state),
        None => {}
    }
}

/// The smallest open socket other than the winner's, where the first ones are no losers.
pub(crate) fn least_loser(
    attempts: &[Attempt],
    ready: Option<RaceAnswer>,
    order: &[Numbered],
    passed: usize,
) -> Option<u32>
    requires numbered { numbers.AreNumbered attempts.now order.now }
    requires passed { numbers.ArePassed attempts.now ready order.now passed }
    ensures { result ≡ reduce min (filter (λ s. not (is_winner ready s)) (filter_map open_socket attempts.now)) }
{
    let place = first_loser(attempts, ready, order, passed);
    if place < order.len() {
        Some(number_at(order, place).socket)
    } else {
        None
    }
}

/// How many sockets have a smaller number.
pub(crate) fn place_for(order: &[Numbered], socket: u32) -> usize
    requires { numbers.Rise order.now }
    ensures within { result ≤ length order.now }
    ensures below { (k : _) (d : _) → k < result → (slice_index_or order.now k d).socket < socket }
    ensures above { (k : _) (d : _) → result ≤ k → k < length order.now →
        socket ≤ (slice_index_or order.now k d).socket }
{
    order.partition_point(|n| n.socket < socket)
}

/// The place of the attempt with this socket.
pub(crate) fn find(order: &[Numbered], socket: u32) -> Option<usize>
    requires { numbers.Rise order.now }
    ensures { (attempts : _) → numbers.AreNumbered attempts order.now → numbers.FindsIn attempts socket result }
{
    let place = place_for(order, socket);
    if place < order.len() {
        place_of(number_at(order, place), socket)
    } else {
        None
    }
}

fn number_at(order: &[Numbered], place: usize) -> Numbered
    requires { place < length order.now }
    ensures { (d : _) → result ≡ slice_index_or order.now place d }
{
    order[place]
}

// The place of its attempt, if it is this socket.
fn place_of(number: Numbered, socket: u32) -> Option<usize>
    ensures { result ≡ numbers.place_if number socket }
{
    if number.socket == socket {
        Some(number.place as usize)
    } else {
        None
    }
}

fn has_won(ready: Option<RaceAnswer>, socket: u32) -> bool
    ensures { result ≡ is_winner ready socket }
{
    match ready {
        Some(RaceAnswer::Ready { socket: won, .. }) => won == socket,
        _ => false,
    }
}

fn is_loser(attempts: &[Attempt], ready: Option<RaceAnswer>, n: Numbered) -> bool
    ensures { result ≡ numbers.is_loser attempts.now ready n }
{
    match attempts.get(n.place as usize) {
        Some(attempt) => attempt.is_open() && !has_won(ready, n.socket),
        None => false,
    }
}

// The place of the first loser from a place on, if the first ones are none.
pub(crate) fn first_loser(
    attempts: &[Attempt],
    ready: Option<RaceAnswer>,
    order: &[Numbered],
    passed: usize,
) -> usize
    requires { numbers.ArePassed attempts.now ready order.now passed }
    ensures passed { numbers.ArePassed attempts.now ready order.now result }
    ensures loser { (d : _) → result < length order.now →
        numbers.is_loser attempts.now ready (slice_index_or order.now result d) ≡ true }
{
    let mut place = passed;
    while place < order.len() && !is_loser(attempts, ready, number_at(order, place)) {
        place += 1;
    }
    place
}

/// Adds a socket at its place.
pub(crate) fn insert(order: &mut Vec<Numbered>, place: usize, n: Numbered)
    requires within { place ≤ vec_len order.old }
    requires room { vec_len order.old < vec_capacity order.old }
    ensures items { order.new.items ≡ insert order.old.items place n }
    ensures room { vec_capacity order.old ≤ vec_capacity order.new }
{
    match order.insert(place, n) {
        Ok(()) => {}
        Err(_) => unreachable!(),
    }
}
