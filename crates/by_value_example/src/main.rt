// The stores as a Rattle program uses them: by value, every call a method that hands the store back with its reply.
// Each reply is a line of standard output in the run sheet's words, in the order of the calls;
// of a table's 32 WRITEs the last alone. The file stdout has what is expected, worked out by hand from document 01.
#![tactic(auto)]

ghost use Rattle.std.specs.Prelude.{◌≡◌};

use calls::{FEATHERED, Pitch, Reply, TABLE, WalkReply};
use grace_version::GraceVersion;
use qsbr::Qsbr;
use schemes::Scheme;
use std::fmt;
use stores::{Stepped, Store};
use two_phase::TwoPhase;

const LAST_ENTRY: u16 = 31;

// A reply in the run sheet's words.
#[derive(Drop)]
struct Line(Reply);

impl fmt::Display for Line {
    fn fmt<W: fmt::Write>(&self, f: &mut fmt::Formatter<W>) -> fmt::Result {
        match self.0 {
            Reply::Made => f.write_str("made"),
            Reply::At(place) => write!(f, "at {place}"),
            Reply::Pitch(v) => write!(f, "pitch {v}"),
            Reply::Left => f.write_str("left"),
            Reply::Claimed(slot) => write!(f, "claimed {slot}"),
            Reply::Written(n) => write!(f, "written {n}"),
            Reply::Swapped(slot) => write!(f, "swapped {slot}"),
            Reply::Synced(mark) => write!(f, "synced {mark}"),
            Reply::Raised => f.write_str("raised"),
            Reply::Shared => f.write_str("shared"),
            Reply::Walked(WalkReply::Waiting(awaited)) => write!(f, "waiting {awaited}"),
            Reply::Walked(WalkReply::Spent) => f.write_str("spent"),
            Reply::Walked(WalkReply::Quiet) => f.write_str("quiet"),
            Reply::Walked(WalkReply::Returned(looks, waits)) => write!(
                f,
                "returned {looks} {waits}"
            ),
            Reply::Freed(slot, releases) => write!(f, "freed {slot} {releases}"),
            Reply::Refused(n) => write!(f, "refused {n}"),
            Reply::Picked(slot) => write!(f, "picked {slot}"),
        }
    }
}

// A store handed back, its reply shown. Where that cannot be written the program goes on.
fn show<S>(rt: &impl Print, stepped: Stepped<S>) -> Store<S>
    ensures { result ≡ stepped.store }
{
    let Stepped { store, reply } = stepped;
    let _ = rt.println(Line(reply));
    store
}

// A call made several times, each reply shown.
fn repeat<S, F: Fn(Store<S>) -> Stepped<S> + Drop>(
    rt: &impl Print,
    mut store: Store<S>,
    times: u16,
    call: F,
) -> Store<S>
    requires { F.IsAlwaysCallable call }
{
    for _ in 0..times {
        store = show(rt, call(store));
    }
    store
}

// The table that is published: -5 degrees in its first entry, 25 in the others.
fn new_pitch(k: u16) -> Pitch {
    if k == 0 { -5000 } else { 25000 }
}

// The 32 WRITEs of that table, in order. Only the last reply is shown.
fn write_table<S: Scheme>(
    rt: &impl Print,
    mut store: Store<S>,
    entries: &mut [Pitch],
    p: u16,
) -> Store<S> {
    for k in 0..LAST_ENTRY {
        store = store.write(entries, p, new_pitch(k)).store;
    }
    show(rt, store.write(entries, p, new_pitch(LAST_ENTRY)))
}

// CLAIM, the WRITEs, SWAP.
fn swap_in<S: Scheme>(
    rt: &impl Print,
    store: Store<S>,
    entries: &mut [Pitch],
    p: u16,
    slot: u16,
) -> Store<S> {
    let store = show(rt, store.claim(entries, p, slot));
    let store = write_table(rt, store, entries, p);
    show(rt, store.swap(entries, p))
}

// ENTER up to the pick: places 1 to 5 of the new store, and 1, 4, 5 of the old.
fn pick_new(rt: &impl Print, store: GraceVersion, entries: &[Pitch], r: u16) -> GraceVersion {
    repeat(rt, store, 5, |store| store.enter(entries, r))
}

fn pick_old(rt: &impl Print, store: TwoPhase, entries: &[Pitch], r: u16) -> TwoPhase {
    repeat(rt, store, 3, |store| store.enter(entries, r))
}

// A whole CHECKPOINT of one of 2 participants: 4 steps.
fn rest_at(rt: &impl Print, store: Qsbr, entries: &[Pitch], r: u16) -> Qsbr {
    repeat(rt, store, 4, |store| store.checkpoint(entries, r))
}

// The new store, 2 readers. Reader 1 has picked the old table when the new one is swapped in.
fn publish_new(rt: &impl Print, entries: &mut [Pitch], table: &[Pitch]) {
    let store = show(rt, GraceVersion::make(entries, table, 2, 1, 2, 0));
    let store = pick_new(rt, store, entries, 1);
    let store = show(rt, store.look(entries, 1, 0));
    let store = swap_in(rt, store, entries, 0, 1);
    wait_new(rt, store, entries);
}

// The walk passes reader 0, and waits for reader 1, which keeps its table until it leaves and then picks the new one.
fn wait_new(rt: &impl Print, store: GraceVersion, entries: &[Pitch]) {
    let store = show(rt, store.sync(entries, 0));
    let store = show(rt, store.raise(entries, 0));
    let store = show(rt, store.walk(entries, 0, 1));
    let store = show(rt, store.walk(entries, 0, 10));
    let store = show(rt, store.look(entries, 1, 0));
    let store = show(rt, store.leave(entries, 1));
    let store = show(rt, store.walk(entries, 0, 10));
    let store = show(rt, store.release(entries, 0));
    let store = pick_new(rt, store, entries, 1);
    let store = show(rt, store.look(entries, 1, 0));
    show(rt, store.look(entries, 1, LAST_ENTRY));
}

// The new store, 2 publishers. Both swap a table in while the reader is at the first.
fn publish_side_by_side(rt: &impl Print, entries: &mut [Pitch], table: &[Pitch]) {
    let store = show(rt, GraceVersion::make(entries, table, 1, 2, 3, 0));
    let store = pick_new(rt, store, entries, 0);
    let store = swap_in(rt, store, entries, 0, 1);
    let store = swap_in(rt, store, entries, 1, 2);
    share_wait(rt, store, entries);
}

// Both synchronise at version 0, with the same mark: one raises the version, and both wait for the reader and return.
fn share_wait(rt: &impl Print, store: GraceVersion, entries: &[Pitch]) {
    let store = show(rt, store.sync(entries, 0));
    let store = show(rt, store.sync(entries, 1));
    let store = show(rt, store.raise(entries, 0));
    let store = show(rt, store.raise(entries, 1));
    let store = show(rt, store.walk(entries, 0, 10));
    let store = show(rt, store.walk(entries, 1, 10));
    let store = show(rt, store.leave(entries, 0));
    let store = show(rt, store.walk(entries, 0, 10));
    let store = show(rt, store.walk(entries, 1, 10));
    let store = show(rt, store.release(entries, 0));
    show(rt, store.release(entries, 1));
}

// The old store, 2 publishers.
// The reader has picked the old table, and added to indicator 0, when the new table is swapped in.
fn publish_old(rt: &impl Print, entries: &mut [Pitch], table: &[Pitch]) {
    let store = show(rt, TwoPhase::make(entries, table, 1, 2, 3, 0));
    let store = pick_old(rt, store, entries, 0);
    let store = show(rt, store.look(entries, 0, 0));
    let store = swap_in(rt, store, entries, 0, 1);
    wait_old(rt, store, entries);
}

// Indicator 1 is quiet, the version is raised, and the walk waits for indicator 0.
// Publisher 1 is refused until the RELEASE.
fn wait_old(rt: &impl Print, store: TwoPhase, entries: &[Pitch]) {
    let store = show(rt, store.sync(entries, 0));
    let store = show(rt, store.walk(entries, 0, 10));
    let store = show(rt, store.raise(entries, 0));
    let store = show(rt, store.walk(entries, 0, 10));
    let store = show(rt, store.claim(entries, 1, 2));
    let store = show(rt, store.look(entries, 0, 0));
    let store = show(rt, store.leave(entries, 0));
    let store = show(rt, store.walk(entries, 0, 0));
    let store = show(rt, store.walk(entries, 0, 10));
    let store = show(rt, store.release(entries, 0));
    let store = show(rt, store.claim(entries, 1, 2));
    let store = pick_old(rt, store, entries, 0);
    let store = show(rt, store.look(entries, 0, 0));
    show(rt, store.look(entries, 0, LAST_ENTRY));
}

// The rest store, 2 participants. Participant 1 has picked the old table when participant 0 swaps the new one in.
fn publish_rest(rt: &impl Print, entries: &mut [Pitch], table: &[Pitch]) {
    let store = show(rt, Qsbr::make(entries, table, 2, 2, 3, 0));
    let store = show(rt, store.pick(entries, 1));
    let store = show(rt, store.look(entries, 1, 0));
    let store = swap_in(rt, store, entries, 0, 1);
    free_deferred(rt, store, entries);
}

// The old table's slot is deferred. The next checkpoint of participant 0 frees nothing, since participant 1 has not yet come to its own; the one after that frees the slot.
fn free_deferred(rt: &impl Print, store: Qsbr, entries: &[Pitch]) {
    let store = show(rt, store.defer(entries, 0));
    let store = show(rt, store.defer(entries, 0));
    let store = rest_at(rt, store, entries, 0);
    let store = show(rt, store.claim(entries, 1, 0));
    let store = show(rt, store.look(entries, 1, 0));
    let store = rest_at(rt, store, entries, 1);
    let store = rest_at(rt, store, entries, 0);
    let store = show(rt, store.claim(entries, 1, 0));
    let store = show(rt, store.pick(entries, 1));
    let store = show(rt, store.look(entries, 1, 0));
    show(rt, store.look(entries, 1, LAST_ENTRY));
}

fn main(rt: HostRuntime) {
    let rt = &rt;
    let mut two_slots = [0; 2 * TABLE];
    let mut three_slots = [0; 3 * TABLE];
    let feathered = [FEATHERED; TABLE];
    let last = GraceVersion::LAST;
    let _ = println!(rt; "new store: the last version is {last}");
    let _ = println!(rt; "new store: a publication, and a reader of the old table");
    publish_new(rt, &mut two_slots, &feathered);
    let _ = println!(rt; "new store: two publishers share a wait");
    publish_side_by_side(rt, &mut three_slots, &feathered);
    let _ = println!(rt; "old store: versions run modulo 2^64, so that none is the last");
    let _ = println!(rt; "old store: a publication, a reader of the old table, a second publisher");
    publish_old(rt, &mut three_slots, &feathered);
    let last = Qsbr::LAST;
    let _ = println!(rt; "rest store: the last version is {last}");
    let _ = println!(rt;
        "rest store: a publication, and a loop that keeps the old table until its checkpoint"
    );
    publish_rest(rt, &mut three_slots, &feathered);
}
