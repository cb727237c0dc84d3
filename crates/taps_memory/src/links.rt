// The connections that were started, the earliest first.
ghost use Rattle.std.specs.Prelude.{◌≡◌, ◌≤◌, ◌<◌, ◌++◌, true, length, take, drop, min, Some, None, slice_get, option_map, OnOk, OnErr, IfSome, vec_len, vec_capacity};
ghost use Rattle.taps_memory.specs.declared.link.Link.{Link};
ghost use Rattle.taps_memory.specs.Pairs.{first_of, change_first, place_first, under_way, free_at, own_end, other_end};
ghost use Rattle.taps_memory.specs.Links.{pair_of, link_has, link_waits, own_side, accepted_link, closed_link, shut_link, roomy_link, sent_link, read_link, IsChanged, IsAsRoomy, has_link};

use crate::link::Link;
use taps_base::NoMemory;

/// The connection of which a socket is an end.
pub(crate) fn link_of(links: &Vec<Link>, socket: u32) -> Option<&Link>
    ensures { option_map (λ l. l.now) result ≡ first_of (link_has socket) links.now.items }
{
    for link in links {
        if link.has_end(socket) {
            return Some(link);
        }
    }
    None
}

/// The place of the connection of which a socket is an end.
pub(crate) fn place_of(links: &Vec<Link>, socket: u32) -> Option<usize>
    ensures { result ≡ place_first (link_has socket) links.now.items }
{
    let mut place = 0;
    for link in links {
        if link.has_end(socket) {
            return Some(place);
        }
        place += 1;
    }
    None
}

/// The place of the earliest connection that waits to be accepted from a listening socket.
pub(crate) fn place_waiting(links: &Vec<Link>, listener: u32) -> Option<usize>
    ensures { result ≡ place_first (link_waits listener) links.now.items }
{
    let mut place = 0;
    for link in links {
        if link.waits_for(listener) {
            return Some(place);
        }
        place += 1;
    }
    None
}

fn accept_at(links: &mut Vec<Link>, place: usize, socket: u32)
    requires { place < vec_len links.old }
    ensures set { IsChanged (accepted_link socket) place links.old.items links.new.items }
    ensures same { IsAsRoomy (vec_len links.old) (vec_capacity links.old) (vec_len links.new) (vec_capacity links.new) }
{
    links[place].accept(socket);
}

fn close_at(links: &mut Vec<Link>, place: usize, socket: u32)
    requires { place < vec_len links.old }
    ensures set { IsChanged (closed_link socket) place links.old.items links.new.items }
    ensures same { IsAsRoomy (vec_len links.old) (vec_capacity links.old) (vec_len links.new) (vec_capacity links.new) }
{
    links[place].close(socket);
}

fn shut_at(links: &mut Vec<Link>, place: usize, socket: u32)
    requires { place < vec_len links.old }
    ensures set { IsChanged (shut_link socket) place links.old.items links.new.items }
    ensures same { IsAsRoomy (vec_len links.old) (vec_capacity links.old) (vec_len links.new) (vec_capacity links.new) }
{
    links[place].shut(socket);
}

fn room_at(links: &mut Vec<Link>, place: usize, socket: u32, bytes: usize) -> Result<(), NoMemory>
    requires { place < vec_len links.old }
    ensures ok { OnOk result (IsChanged (roomy_link socket bytes) place links.old.items links.new.items) }
    ensures err { OnErr result (links.new.items ≡ links.old.items) }
    ensures same { IsAsRoomy (vec_len links.old) (vec_capacity links.old) (vec_len links.new) (vec_capacity links.new) }
{
    links[place].make_room(socket, bytes)
}

fn write_at(links: &mut Vec<Link>, place: usize, socket: u32, bytes: &[u8], at: u64)
    requires place { place < vec_len links.old }
    requires room { IfSome (slice_get links.old.items place) (λ l. length bytes.now ≤ (own_side l socket).room) }
    requires free { IfSome (slice_get links.old.items place)
        (λ l. length bytes.now ≤ free_at (own_end (pair_of l) socket)) }
    ensures set { IsChanged (sent_link socket bytes.now at) place links.old.items links.new.items }
    ensures same { IsAsRoomy (vec_len links.old) (vec_capacity links.old) (vec_len links.new) (vec_capacity links.new) }
{
    links[place].write(socket, bytes, at);
}

fn read_at(links: &mut Vec<Link>, place: usize, socket: u32, out: &mut [u8]) -> usize
    requires { place < vec_len links.old }
    ensures count { IfSome (slice_get links.old.items place)
        (λ l. result ≡ min (length out.old) (length (under_way (other_end (pair_of l) socket)))) }
    ensures out { IfSome (slice_get links.old.items place)
        (λ l. out.new ≡ take result (under_way (other_end (pair_of l) socket)) ++ drop result out.old) }
    ensures set { IsChanged (read_link socket result) place links.old.items links.new.items }
    ensures same { IsAsRoomy (vec_len links.old) (vec_capacity links.old) (vec_len links.new) (vec_capacity links.new) }
{
    links[place].read_into(socket, out)
}

/// The earliest connection that waits to be accepted from a listening socket is accepted, if one waits.
pub(crate) fn accept_first(links: &mut Vec<Link>, listener: u32, socket: u32)
    ensures links { links.new.items ≡ change_first (link_waits listener) (accepted_link socket) links.old.items }
    ensures same { IsAsRoomy (vec_len links.old) (vec_capacity links.old) (vec_len links.new) (vec_capacity links.new) }
{
    if let Some(place) = place_waiting(links, listener) {
        accept_at(links, place, socket);
    }
}

/// The end of a socket is closed, if it is one.
pub(crate) fn close_in(links: &mut Vec<Link>, socket: u32)
    ensures links { links.new.items ≡ change_first (link_has socket) (closed_link socket) links.old.items }
    ensures same { IsAsRoomy (vec_len links.old) (vec_capacity links.old) (vec_len links.new) (vec_capacity links.new) }
{
    if let Some(place) = place_of(links, socket) {
        close_at(links, place, socket);
    }
}

/// The sending side of a socket is ended, if it is an end.
pub(crate) fn shut_in(links: &mut Vec<Link>, socket: u32)
    ensures links { links.new.items ≡ change_first (link_has socket) (shut_link socket) links.old.items }
    ensures same { IsAsRoomy (vec_len links.old) (vec_capacity links.old) (vec_len links.new) (vec_capacity links.new) }
{
    if let Some(place) = place_of(links, socket) {
        shut_at(links, place, socket);
    }
}

/// Makes room for bytes to be sent on a socket. Without memory nothing is changed.
pub(crate) fn room_in(links: &mut Vec<Link>, socket: u32, bytes: usize) -> Result<(), NoMemory>
    requires { has_link links.old.items socket ≡ true }
    ensures ok { OnOk result
        (links.new.items ≡ change_first (link_has socket) (roomy_link socket bytes) links.old.items) }
    ensures err { OnErr result (links.new.items ≡ links.old.items) }
    ensures same { IsAsRoomy (vec_len links.old) (vec_capacity links.old) (vec_len links.new) (vec_capacity links.new) }
{
    match place_of(links, socket) {
        Some(place) => room_at(links, place, socket, bytes),
        None => unreachable!(),
    }
}

/// Takes bytes that are sent on a socket at a time.
pub(crate) fn write_in(links: &mut Vec<Link>, socket: u32, bytes: &[u8], at: u64)
    requires found { has_link links.old.items socket ≡ true }
    requires room { IfSome (first_of (link_has socket) links.old.items)
        (λ l. length bytes.now ≤ (own_side l socket).room) }
    requires free { IfSome (first_of (link_has socket) links.old.items)
        (λ l. length bytes.now ≤ free_at (own_end (pair_of l) socket)) }
    ensures links { links.new.items ≡ change_first (link_has socket) (sent_link socket bytes.now at) links.old.items }
    ensures same { IsAsRoomy (vec_len links.old) (vec_capacity links.old) (vec_len links.new) (vec_capacity links.new) }
{
    match place_of(links, socket) {
        Some(place) => write_at(links, place, socket, bytes, at),
        None => unreachable!(),
    }
}

/// Hands out the oldest bytes that are under way to a socket, so many as there are and fit.
pub(crate) fn read_in(links: &mut Vec<Link>, socket: u32, out: &mut [u8]) -> usize
    requires { has_link links.old.items socket ≡ true }
    ensures count { IfSome (first_of (link_has socket) links.old.items)
        (λ l. result ≡ min (length out.old) (length (under_way (other_end (pair_of l) socket)))) }
    ensures out { IfSome (first_of (link_has socket) links.old.items)
        (λ l. out.new ≡ take result (under_way (other_end (pair_of l) socket)) ++ drop result out.old) }
    ensures links { links.new.items ≡ change_first (link_has socket) (read_link socket result) links.old.items }
    ensures same { IsAsRoomy (vec_len links.old) (vec_capacity links.old) (vec_len links.new) (vec_capacity links.new) }
{
    match place_of(links, socket) {
        Some(place) => read_at(links, place, socket, out),
        None => unreachable!(),
    }
}
