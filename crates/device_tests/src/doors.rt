//! The real door and the real link.
ghost use Rattle.std.specs.Prelude.{◌≡◌, ◌<◌, ◌-◌, ◌^◌, true, false, IfOk};
ghost use Rattle.outside_real.specs.Door.{state_of, unused};

use client_framing::{Framing, Wanted};
use outside::{Door, Link};
use outside_real::{RealDoor, RealLink};
use std::alloc::{AllocError, Global};
use std::fs;
use std::os::unix::fs::MetadataExt;
use std::process::Abort;
use std::test::Fail;
use std::time::{Clock, Instant};
use test_support::{new_folder, remove_folder};

// A request is whole once it ends in a full stop. One that ends in an exclamation mark is heard before it is whole.
#[derive(Drop)]
struct Sentences;

impl Framing for Sentences {
    fn wanted(&self, bytes: &[u8]) -> Wanted {
        if bytes.ends_with(b".") {
            Wanted::Whole
        } else if bytes.ends_with(b"!") {
            Wanted::Early
        } else {
            Wanted::More(bytes.len().saturating_add(1))
        }
    }
}

// A door at the socket in this folder.
fn door_at(rt: &HostRuntime, root: &str) -> Result<RealDoor<HostRuntime, Sentences>, AllocError>
    ensures { IfOk result (λ door. state_of door.clients ≡ unused) }
{
    RealDoor::new(rt.clone()?, root, Sentences)
}

// A link to the socket in this folder.
fn link_at(rt: &HostRuntime, root: &str) -> Result<RealLink<HostRuntime>, AllocError> {
    RealLink::new(rt.clone()?, root)
}

// A client connects to the socket in this folder, and vanishes.
fn vanish(rt: &HostRuntime, root: &str) -> Result<(), Fail> {
    let mut link = link_at(rt, root)?;
    Ok(link.connect()?)
}

// The link connects and asks, and the door takes its connection and ends it.
fn take_client<N: Door, L: Link>(rt: &impl Abort, door: &mut N, link: &mut L) -> Result<(), Fail>
    requires idle { (N.state door.old).busy ≡ false }
    requires room { (N.state door.old).accepted < 2 ^ 32 - 1 }
{
    link.connect()?;
    assert!(rt; link.write(b"now.") == Ok(4));
    assert!(rt; door.accept()?);
    door.finish();
    Ok(())
}

#[test]
fn a_door_outlives_a_client_that_vanished(rt: HostRuntime) -> Result<(), Fail> {
    let folder = new_folder(&rt, "vanished")?;
    let mut next = link_at(&rt, folder.as_str())?;
    let mut door = door_at(&rt, folder.as_str())?;
    assert!(rt; door.listen().is_ok());
    vanish(&rt, folder.as_str())?;
    take_client(&rt, &mut door, &mut next)?;
    remove_folder(&rt, folder.as_str())
}

// The mode of the socket in this folder.
fn mode_of(rt: &HostRuntime, root: &str) -> Result<u32, Fail> {
    let socket = format!(in rt.alloc(); "{root}/api.sock")?;
    Ok(fs::metadata(rt, socket.as_str())?.mode() & 0o777)
}

#[test]
fn a_second_door_leaves_the_socket_to_the_first(rt: HostRuntime) -> Result<(), Fail> {
    let folder = new_folder(&rt, "doors")?;
    let mut link = link_at(&rt, folder.as_str())?;
    let mut second = door_at(&rt, folder.as_str())?;
    let mut door = door_at(&rt, folder.as_str())?;
    assert!(rt; door.listen().is_ok());
    assert!(rt; second.listen().is_err());
    assert_eq!(rt; mode_of(&rt, folder.as_str())?, 0o660);
    take_client(&rt, &mut door, &mut link)?;
    remove_folder(&rt, folder.as_str())
}

// The door reads the first bytes of a client, and the link the whole answer.
fn answer<N: Door, L: Link>(rt: &impl Abort, door: &mut N, link: &mut L) -> Result<(), Fail>
    requires { N.state door.old ≡ unused }
{
    link.connect()?;
    assert!(rt; link.write(b"hi and more.") == Ok(12));
    let mut room = [0u8; 2];
    assert!(rt; door.accept()?);
    assert!(rt; door.read(&mut room) == Ok(2) && room == *b"hi");
    assert!(rt; door.write(b"ok") == Ok(2));
    door.finish();
    assert!(rt; link.read(&mut room) == Ok(2) && room == *b"ok");
    assert!(rt; link.read(&mut room) == Ok(0));
    Ok(())
}

// A client whose bytes weren't all read finds its answer and the end of it.
#[test]
fn a_client_gets_its_whole_answer(rt: HostRuntime) -> Result<(), Fail> {
    let folder = new_folder(&rt, "answer")?;
    let mut link = link_at(&rt, folder.as_str())?;
    let mut door = door_at(&rt, folder.as_str())?;
    assert!(rt; door.listen().is_ok());
    answer(&rt, &mut door, &mut link)?;
    remove_folder(&rt, folder.as_str())
}

// The client gets a short answer and the end of it.
fn take_answer<L: Link>(rt: &impl Abort, link: &mut L) -> Result<(), Fail>
    requires { L.connected link.old ≡ true }
{
    let mut room = [0u8; 4];
    assert!(rt; link.read(&mut room) == Ok(2) && room.starts_with(b"ok"));
    assert!(rt; link.read(&mut room) == Ok(0));
    Ok(())
}

// The client says its text and, once it is heard, more. Once it is answered it can't say more exactly where the connection was closed. It gets the
// answer and the end of it both times.
fn answer_then_hear<N: Door, L: Link>(
    rt: &impl Abort,
    door: &mut N,
    link: &mut L,
    text: &[u8],
    more: &[u8],
    closed: bool,
) -> Result<(), Fail>
    requires { N.state door.old ≡ unused }
{
    link.connect()?;
    assert!(rt; link.write(text) == Ok(text.len()));
    assert!(rt; door.accept()?);
    assert!(rt; more.is_empty() || link.write(more) == Ok(more.len()));
    assert!(rt; door.write(b"ok") == Ok(2));
    door.finish();
    assert!(rt; link.write(b"and this").is_err() == closed);
    take_answer(rt, link)
}

// A door at a socket of its own answers a client that says this, and closes the connection at once or not.
fn try_close(
    rt: &HostRuntime,
    judge: &impl Abort,
    name: &str,
    text: &[u8],
    more: &[u8],
    closed: bool,
) -> Result<(), Fail> {
    let folder = new_folder(rt, name)?;
    let mut link = link_at(rt, folder.as_str())?;
    let mut door = door_at(rt, folder.as_str())?;
    door.listen()?;
    answer_then_hear(judge, &mut door, &mut link, text, more, closed)?;
    remove_folder(rt, folder.as_str())
}

// It has nothing more to send.
#[test]
fn a_client_whose_request_is_whole_is_closed_at_once(rt: HostRuntime) -> Result<(), Fail> {
    try_close(&rt, &rt, "whole", b"now.", b"", true)
}

// It may still send the rest of its request.
#[test]
fn a_client_that_is_answered_early_is_read_on(rt: HostRuntime) -> Result<(), Fail> {
    try_close(&rt, &rt, "early", b"no!", b"", false)
}

// Else its answer would end in an error.
#[test]
fn a_client_that_sent_more_is_read_on(rt: HostRuntime) -> Result<(), Fail> {
    try_close(&rt, &rt, "more", b"now.", b"and more", false)
}

// A client is awaited from when its request is whole until it is accepted.
fn await_client<N: Door, L: Link>(rt: &impl Abort, door: &mut N, link: &mut L) -> Result<(), Fail>
    requires { N.state door.old ≡ unused }
{
    assert!(rt; !door.is_awaited());
    link.connect()?;
    assert!(rt; link.write(b"not yet") == Ok(7));
    assert!(rt; !door.is_awaited());
    assert!(rt; link.write(b" now.") == Ok(5));
    assert!(rt; door.is_awaited() && door.is_awaited());
    assert!(rt; door.accept()?);
    door.finish();
    assert!(rt; !door.is_awaited());
    Ok(())
}

#[test]
fn a_door_is_awaited_once_a_request_is_whole(rt: HostRuntime) -> Result<(), Fail> {
    let folder = new_folder(&rt, "awaited")?;
    let mut link = link_at(&rt, folder.as_str())?;
    let mut door = door_at(&rt, folder.as_str())?;
    assert!(rt; door.listen().is_ok());
    await_client(&rt, &mut door, &mut link)?;
    remove_folder(&rt, folder.as_str())
}

// More bytes than a socket takes while its client reads nothing.
fn many_bytes(alloc: Global) -> Result<Vec<u8>, Fail> {
    let count = "300000".parse::<usize>()?;
    Ok(vec![in alloc; 0u8; count]?)
}

// Seconds since then.
fn seconds(rt: &impl Clock, began: Instant) -> Result<u64, Fail> {
    Ok(began.elapsed(rt)?.as_secs())
}

// The next client is answered at once, though one before it is silent, and one reads nothing of a long answer.
fn answer_past<N: Door, L: Link>(
    rt: &(impl Abort + Clock),
    door: &mut N,
    silent: &mut L,
    deaf: &mut L,
    next: &mut L,
    piece: &[u8],
) -> Result<(), Fail>
    requires { N.state door.old ≡ unused }
{
    let began = Instant::now(rt)?;
    silent.connect()?;
    deaf.connect()?;
    assert!(rt; deaf.write(b"all.") == Ok(4));
    assert!(rt; door.accept()?);
    let taken = door.write(piece)?;
    assert!(rt; door.write(&piece[taken..]) == Ok(piece.len() - taken));
    door.finish();
    next.connect()?;
    assert!(rt; next.write(b"now.") == Ok(4));
    assert!(rt; door.accept()?);
    assert!(rt; door.write(b"yes") == Ok(3));
    door.finish();
    assert!(rt; next.read(&mut [0u8; 4]) == Ok(3));
    assert!(rt; seconds(rt, began)? < 5);
    Ok(())
}

#[test]
fn no_client_holds_another(rt: HostRuntime) -> Result<(), Fail> {
    let folder = new_folder(&rt, "idle")?;
    let piece = many_bytes(rt.alloc())?;
    let root = folder.as_str();
    let mut silent = link_at(&rt, root)?;
    let mut deaf = link_at(&rt, root)?;
    let mut next = link_at(&rt, root)?;
    let mut door = door_at(&rt, root)?;
    assert!(rt; door.listen().is_ok());
    let piece = piece.as_slice();
    answer_past(&rt, &mut door, &mut silent, &mut deaf, &mut next, piece)?;
    let began = Instant::now(&rt)?;
    door.drain();
    assert!(rt; (9..30).contains(&seconds(&rt, began)?));
    remove_folder(&rt, root)
}

// The client reads what the socket took of a long answer, and then the rest.
fn read_late<N: Door, L: Link>(
    rt: &impl Abort,
    door: &mut N,
    link: &mut L,
    piece: &[u8],
    room: &mut [u8],
) -> Result<(), Fail>
    requires { N.state door.old ≡ unused }
{
    link.connect()?;
    assert!(rt; link.write(b"all.") == Ok(4));
    assert!(rt; door.accept()?);
    let taken = door.write(piece)?;
    assert!(rt; door.write(&piece[taken..]) == Ok(piece.len() - taken));
    door.finish();
    assert!(rt; !room.is_empty());
    let first = link.read(room)?;
    assert!(rt; first < piece.len() && !door.is_awaited() && !room.is_empty());
    assert!(rt; link.read(room) == Ok(piece.len() - first));
    Ok(())
}

#[test]
fn a_client_that_reads_late_gets_its_whole_answer(rt: HostRuntime) -> Result<(), Fail> {
    let folder = new_folder(&rt, "late")?;
    let piece = many_bytes(rt.alloc())?;
    let mut room = many_bytes(rt.alloc())?;
    let mut link = link_at(&rt, folder.as_str())?;
    let mut door = door_at(&rt, folder.as_str())?;
    assert!(rt; door.listen().is_ok());
    let room = room.as_mut_slice();
    read_late(&rt, &mut door, &mut link, piece.as_slice(), room)?;
    remove_folder(&rt, folder.as_str())
}

// The link gives up a server that is silent.
fn give_up_server<L: Link>(rt: &(impl Abort + Clock), link: &mut L) -> Result<(), Fail> {
    link.connect()?;
    let began = Instant::now(rt)?;
    assert!(rt; link.read(&mut [0u8; 2]).is_err());
    let seconds = began.elapsed(rt)?.as_secs();
    assert!(rt; (30..60).contains(&seconds), "{seconds}");
    Ok(())
}

// It listens and answers nothing: that is borne for thirty seconds.
#[test]
fn no_server_holds_a_link(rt: HostRuntime) -> Result<(), Fail> {
    let folder = new_folder(&rt, "silent")?;
    let mut link = link_at(&rt, folder.as_str())?;
    let mut door = door_at(&rt, folder.as_str())?;
    assert!(rt; door.listen().is_ok());
    give_up_server(&rt, &mut link)?;
    remove_folder(&rt, folder.as_str())
}
