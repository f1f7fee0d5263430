// Where each number of a store stands among its words,
// and the records that are read out of them and written back by value.
// specs/: the views of the words, and their laws, by which the crates above reason about records;
// only worked examples compute through the views.
#![tactic(auto)]

ghost use Rattle.std.specs.Prelude.{◌≡◌, ◌<◌, replicate};
ghost use Rattle.calls.specs.Numbers.{readers_max, publishers_max, deferred_max};
ghost use Rattle.layout.specs.Layout.{words_length, indicator_count, kind_word, readers, publishers, slots, current, version, releases, indicator, with_current, with_version, with_releases, with_indicator, reader_at, publisher_at, retirement_at, retired_at, with_reader, with_publisher, with_retirement, with_retired, with_readers, blank_reader, fresh_words};

use calls::{READERS_MAX, WalkReply};

// The length of a store's words.
pub const WORDS: usize = 713;

// A store's words.
pub type Words = [u64; WORDS];

// The head.
const KIND_AT: usize = 0;

const READERS_AT: usize = 1;

const PUBLISHERS_AT: usize = 2;

const SLOTS_AT: usize = 3;

const CURRENT_AT: usize = 4;

const VERSION_AT: usize = 5;

const RELEASES_AT: usize = 6;

const INDICATORS_AT: usize = 7;

// The records: where the first one stands, and how many words each has.
const FIRST_READER: usize = 9;

const READER_WORDS: usize = 5;

const FIRST_PUBLISHER: usize = 329;

const PUBLISHER_WORDS: usize = 6;

// Behind the publishers' records, for each publisher: its retirement, and room for eight retired slots.
const FIRST_RETIREMENT: usize = 425;

const RETIREMENT_WORDS: usize = 2;

const FIRST_RETIRED: usize = 457;

const RETIRED_WORDS: usize = 2;

const RETIRED_ROOM: usize = 16;

// A reader's words.
const PLACE: usize = 0;

const FIRST: usize = 1;

const SECOND: usize = 2;

const PUBLISHED: usize = 3;

const PICKED: usize = 4;

// A publisher's words; its place is the first of them too.
const HELD: usize = 1;

const MARK: usize = 2;

const NEXT: usize = 3;

const LOOKS: usize = 4;

const WAITS: usize = 5;

// A retirement's words.
const STEP: usize = 0;

const COUNT: usize = 1;

// A retired slot's words.
const SLOT: usize = 0;

const AWAITED: usize = 1;

// What making writes of the head: its other numbers are 0 in a fresh store.
#[derive(Clone, Copy)]
pub struct Head {
    pub kind: u64,
    pub readers: u64,
    pub publishers: u64,
    pub slots: u64,
    pub version: u64,
}

#[derive(Clone, Copy)]
pub struct Reader {
    pub place: u64,
    pub first: u64,
    pub second: u64,
    pub published: u64,
    pub picked: u64,
}

// A publisher's walk is four numbers.
#[derive(Clone, Copy)]
pub struct WalkRecord {
    pub mark: u64,
    pub next: u64,
    pub looks: u64,
    pub waits: u64,
}

#[derive(Clone, Copy)]
pub struct Publisher {
    pub place: u64,
    pub held: u64,
    pub walk: WalkRecord,
}

// Beside a publisher's record: the step of its checkpoint, and how many slots it has retired that are not yet free.
#[derive(Clone, Copy)]
pub struct Retirement {
    pub step: u64,
    pub count: u64,
}

// A retired slot, and the mark that it waits for.
#[derive(Clone, Copy)]
pub struct Retired {
    pub slot: u64,
    pub mark: u64,
}

// A walk's numbers after its looks, and its reply.
#[derive(Clone, Copy)]
pub struct WalkResult {
    pub walk: WalkRecord,
    pub reply: WalkReply,
}

pub fn kind_of(words: &Words) -> u64
    ensures { result ≡ kind_word words.now }
{
    words[KIND_AT]
}

// The kind word of words of any length: 0, which no kind has, where there are none.
pub fn kind_word(words: &[u64]) -> u64
    ensures { result ≡ kind_word words.now }
{
    words.get(KIND_AT).copied().unwrap_or(0)
}

pub fn readers_of(words: &Words) -> u64
    ensures { result ≡ readers words.now }
{
    words[READERS_AT]
}

pub fn publishers_of(words: &Words) -> u64
    ensures { result ≡ publishers words.now }
{
    words[PUBLISHERS_AT]
}

pub fn slots_of(words: &Words) -> u64
    ensures { result ≡ slots words.now }
{
    words[SLOTS_AT]
}

pub fn current_of(words: &Words) -> u64
    ensures { result ≡ current words.now }
{
    words[CURRENT_AT]
}

pub fn version_of(words: &Words) -> u64
    ensures { result ≡ version words.now }
{
    words[VERSION_AT]
}

pub fn releases_of(words: &Words) -> u64
    ensures { result ≡ releases words.now }
{
    words[RELEASES_AT]
}

#[tactic(auto, unfolding(crate::specs::Layout::indicator))]
pub fn indicator_of(words: &Words, i: usize) -> u64
    requires { i < indicator_count }
    ensures { result ≡ indicator words.now i }
{
    words[INDICATORS_AT + i]
}

pub fn put_current(words: &mut Words, n: u64)
    ensures { words.new ≡ with_current words.old n }
{
    words[CURRENT_AT] = n;
}

pub fn put_version(words: &mut Words, n: u64)
    ensures { words.new ≡ with_version words.old n }
{
    words[VERSION_AT] = n;
}

pub fn put_releases(words: &mut Words, n: u64)
    ensures { words.new ≡ with_releases words.old n }
{
    words[RELEASES_AT] = n;
}

pub fn put_indicator(words: &mut Words, i: usize, n: u64)
    requires { i < indicator_count }
    ensures { words.new ≡ with_indicator words.old i n }
{
    words[INDICATORS_AT + i] = n;
}

#[tactic(auto, unfolding(crate::specs::Layout::reader_at))]
pub fn reader_at(words: &Words, r: usize) -> Reader
    requires { r < readers_max }
    ensures { result ≡ reader_at words.now r }
{
    let b = FIRST_READER + READER_WORDS * r;
    Reader {
        place: words[b + PLACE],
        first: words[b + FIRST],
        second: words[b + SECOND],
        published: words[b + PUBLISHED],
        picked: words[b + PICKED],
    }
}

// The place of a reader alone: most tests need no more.
#[tactic(auto, unfolding(crate::specs::Layout::reader_at))]
pub fn reader_place(words: &Words, r: usize) -> u64
    requires { r < readers_max }
    ensures { result ≡ (reader_at words.now r).place }
{
    words[FIRST_READER + READER_WORDS * r + PLACE]
}

#[tactic(auto, unfolding(crate::specs::Layout::with_reader))]
pub fn put_reader(words: &mut Words, r: usize, x: Reader)
    requires { r < readers_max }
    ensures { words.new ≡ with_reader words.old r x }
{
    let b = FIRST_READER + READER_WORDS * r;
    words[b + PLACE] = x.place;
    words[b + FIRST] = x.first;
    words[b + SECOND] = x.second;
    words[b + PUBLISHED] = x.published;
    words[b + PICKED] = x.picked;
}

#[tactic(auto, unfolding(crate::specs::Layout::publisher_at))]
pub fn publisher_at(words: &Words, p: usize) -> Publisher
    requires { p < publishers_max }
    ensures { result ≡ publisher_at words.now p }
{
    let b = FIRST_PUBLISHER + PUBLISHER_WORDS * p;
    let walk = WalkRecord {
        mark: words[b + MARK],
        next: words[b + NEXT],
        looks: words[b + LOOKS],
        waits: words[b + WAITS],
    };
    Publisher {
        place: words[b + PLACE],
        held: words[b + HELD],
        walk,
    }
}

// The place of a publisher alone.
#[tactic(auto, unfolding(crate::specs::Layout::publisher_at))]
pub fn publisher_place(words: &Words, p: usize) -> u64
    requires { p < publishers_max }
    ensures { result ≡ (publisher_at words.now p).place }
{
    words[FIRST_PUBLISHER + PUBLISHER_WORDS * p + PLACE]
}

#[tactic(auto, unfolding(crate::specs::Layout::with_publisher))]
pub fn put_publisher(words: &mut Words, p: usize, y: Publisher)
    requires { p < publishers_max }
    ensures { words.new ≡ with_publisher words.old p y }
{
    let b = FIRST_PUBLISHER + PUBLISHER_WORDS * p;
    words[b + PLACE] = y.place;
    words[b + HELD] = y.held;
    words[b + MARK] = y.walk.mark;
    words[b + NEXT] = y.walk.next;
    words[b + LOOKS] = y.walk.looks;
    words[b + WAITS] = y.walk.waits;
}

#[tactic(auto, unfolding(crate::specs::Layout::retirement_at))]
pub fn retirement_at(words: &Words, p: usize) -> Retirement
    requires { p < publishers_max }
    ensures { result ≡ retirement_at words.now p }
{
    let b = FIRST_RETIREMENT + RETIREMENT_WORDS * p;
    Retirement {
        step: words[b + STEP],
        count: words[b + COUNT],
    }
}

#[tactic(auto, unfolding(crate::specs::Layout::with_retirement))]
pub fn put_retirement(words: &mut Words, p: usize, t: Retirement)
    requires { p < publishers_max }
    ensures { words.new ≡ with_retirement words.old p t }
{
    let b = FIRST_RETIREMENT + RETIREMENT_WORDS * p;
    words[b + STEP] = t.step;
    words[b + COUNT] = t.count;
}

// Retired slot i of publisher p.
#[tactic(auto, unfolding(crate::specs::Layout::retired_at))]
pub fn retired_at(words: &Words, p: usize, i: usize) -> Retired
    requires { (p < publishers_max) × (i < deferred_max) }
    ensures { result ≡ retired_at words.now p i }
{
    let b = FIRST_RETIRED + RETIRED_ROOM * p + RETIRED_WORDS * i;
    Retired {
        slot: words[b + SLOT],
        mark: words[b + AWAITED],
    }
}

#[tactic(auto, unfolding(crate::specs::Layout::with_retired))]
pub fn put_retired(words: &mut Words, p: usize, i: usize, d: Retired)
    requires { (p < publishers_max) × (i < deferred_max) }
    ensures { words.new ≡ with_retired words.old p i d }
{
    let b = FIRST_RETIRED + RETIRED_ROOM * p + RETIRED_WORDS * i;
    words[b + SLOT] = d.slot;
    words[b + AWAITED] = d.mark;
}

// In words that are all 0: stores what each of the 64 readers has published.
fn publish_all(words: &mut Words, published: u64)
    requires { words.old ≡ replicate words_length 0 }
    ensures { words.new ≡ with_readers readers_max (replicate words_length 0) (blank_reader published) }
{
    for r in 0..READERS_MAX as usize {
        words[FIRST_READER + READER_WORDS * r + PUBLISHED] = published;
    }
}

// Fresh words: all 0, but for a head and what each reader has published.
#[tactic(auto, unfolding(crate::specs::Layout::fresh_words))]
pub fn put_fresh(words: &mut Words, head: Head, published: u64)
    ensures { words.new ≡ fresh_words head.kind head.readers head.publishers head.slots head.version (blank_reader published) }
{
    words.fill(0);
    publish_all(words, published);
    words[KIND_AT] = head.kind;
    words[READERS_AT] = head.readers;
    words[PUBLISHERS_AT] = head.publishers;
    words[SLOTS_AT] = head.slots;
    words[VERSION_AT] = head.version;
}
