// The vocabulary of the store: calls, replies, limits, places, refusal numbers and codes, as document 01 names them.
// specs/: what the calls alone tell, document 01's plain shelf, a reply's numbers for C.
#![tactic(auto)]

ghost use Rattle.std.specs.Prelude.{◌≡◌};
ghost use Rattle.calls.specs.Refusals.{refused};

// A pitch, in thousandths of a degree.
pub type Pitch = i32;

// The bytes of one, and 2^31, the size of the least number of the type.
pub const PITCH_BYTES: u64 = 4;

pub const PITCH_HALF: u64 = 2147483648;

// Its range.
pub const PITCH_LOW: Pitch = -5000;

pub const PITCH_HIGH: Pitch = 95000;
// Two neighbours of a first table may differ by up to so much.
pub const STEP_MAX: Pitch = 15000;
// A feathered blade: an entry of many a first table.
pub const FEATHERED: Pitch = 90000;

pub const READERS_MAX: u16 = 64;

pub const PUBLISHERS_MAX: u16 = 16;

pub const SLOTS_MIN: u16 = 2;

pub const SLOTS_MAX: u16 = 32;
// Entries of one table.
pub const TABLE: usize = 32;
// A participant may have so many slots deferred.
pub const DEFERRED_MAX: u64 = 8;
// The greatest number of 64 bits.
pub const NUMBER_MAX: u64 = 18446744073709551615;
// What a fresh reader of new and old has published, and what LEAVE of the new store publishes.
pub const NOT_READING: u64 = 18446744073709551615;

// The format of words and entries. A release that changes them and not the number of words raises it by one.
pub const FORMAT: u64 = 1;

// The kind word of a store's words: 16 times the format, and 1 for new, 2 for old, 3 for rest. So a store or a caller of another format is refused.
pub const KIND_NEW: u64 = 17;

pub const KIND_OLD: u64 = 18;

pub const KIND_REST: u64 = 19;

// The places of a reader. The section is open at 4 and 5; the old store has no 2 and 3, and rest only 0 and 5, without a section.
pub const PLACE_OUT: u64 = 0;

pub const PLACE_LOADED: u64 = 1;

pub const PLACE_PUBLISHED: u64 = 2;

pub const PLACE_LOADED_AGAIN: u64 = 3;

pub const PLACE_OPEN: u64 = 4;

pub const PLACE_PICKED: u64 = 5;

// The places of a publisher. At 1 to 32 place - 1 entries are written; the new store has no 36, and rest none above 35.
pub const PLACE_IDLE: u64 = 0;

pub const PLACE_CLAIMED: u64 = 1;

pub const PLACE_WRITTEN: u64 = 33;

pub const PLACE_SWAPPED: u64 = 34;

pub const PLACE_SYNCHRONISING: u64 = 35;

pub const PLACE_QUIET: u64 = 36;

pub const PLACE_RAISED: u64 = 37;

pub const PLACE_RETURNED: u64 = 38;

// In a kind whose loops never enter a section a publisher at 35 has raised the epoch, and its former slot is not yet queued.
pub const PLACE_DEFERRING: u64 = 35;

// The codes of accepted replies for C: those of document 01 in its order, then that of request 3.
pub const CODE_MADE: u64 = 100;

pub const CODE_AT: u64 = 101;

pub const CODE_PITCH: u64 = 102;

pub const CODE_LEFT: u64 = 103;

pub const CODE_CLAIMED: u64 = 104;

pub const CODE_WRITTEN: u64 = 105;

pub const CODE_SWAPPED: u64 = 106;

pub const CODE_SYNCED: u64 = 107;

pub const CODE_RAISED: u64 = 108;

pub const CODE_SHARED: u64 = 109;

pub const CODE_WAITING: u64 = 110;

pub const CODE_SPENT: u64 = 111;

pub const CODE_QUIET: u64 = 112;

pub const CODE_RETURNED: u64 = 113;

pub const CODE_FREED: u64 = 114;

pub const CODE_PICKED: u64 = 115;

// Reader calls name a reader r, publisher calls a publisher p.
#[derive(Clone, Copy)]
pub enum Call {
    Enter(u16),
    // r, and the entry k
    Look(u16, u16),
    Leave(u16),
    // p, and the slot
    Claim(u16, u16),
    // p, and the pitch v
    Write(u16, Pitch),
    Swap(u16),
    Sync(u16),
    Raise(u16),
    // p, and how many looks it may make
    Walk(u16, u16),
    Release(u16),
    // Of kinds whose loops never enter a section.
    Pick(u16),
    Checkpoint(u16),
    Defer(u16),
}

// What a walk replies.
#[derive(Clone, Copy)]
pub enum WalkReply {
    // the reader (new) or the indicator (old) that it waits for
    Waiting(u64),
    Spent,
    Quiet,
    // looks and waits
    Returned(u64, u64),
}

#[derive(Clone, Copy)]
pub enum Reply {
    Made,
    // the place, or a checkpoint's step
    At(u64),
    Pitch(Pitch),
    Left,
    // the slot
    Claimed(u64),
    // how many entries are written
    Written(u64),
    // the slot that was current
    Swapped(u64),
    // the mark
    Synced(u64),
    Raised,
    Shared,
    Walked(WalkReply),
    // the slot, and the releases
    Freed(u64, u64),
    // the refusal's number
    Refused(u64),
    // the slot
    Picked(u64),
}

// A reply as C gets it, three numbers of 64 bits; `numbers_of` in specs/ says which.
#[repr(C)]
#[derive(Clone, Copy)]
pub struct ReplyNumbers {
    pub code: u64,
    pub first: u64,
    pub second: u64,
}

// Why a call or a making is refused. The number is that of the papers, which C and the run sheet give.
#[derive(Clone, Copy, PartialEq, Eq)]
pub enum Refusal {
    Damaged = 1,
    BadReaders = 2,
    BadPublishers = 3,
    BadSlots = 4,
    BadEntries = 5,
    BadVersion = 6,
    NoSuchReader = 10,
    NoSuchPublisher = 11,
    NoSuchSlot = 12,
    NoSuchEntry = 13,
    BadPitch = 14,
    ReaderTurn = 20,
    PublisherTurn = 21,
    SlotInUse = 30,
    Busy = 31,
    VersionIsLast = 32,
    TooManyLooks = 33,
    BadTableLength = 40,
    BadTablePitch = 41,
    BadTableStep = 42,
    EpochIsLast = 43,
    TooManyDeferred = 44,
}

impl From<Refusal> for Reply {
    ghost from_gives = { λ refusal reply. reply ≡ refused refusal };

    #[inline]
    fn from(refusal: Refusal) -> Reply {
        Reply::Refused(refusal as u64)
    }
}
