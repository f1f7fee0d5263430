// The stores by value, of any kind: making and the calls as methods that take the store and hand it back with the reply, entries lent beside it.
// Each is a thin shell over the call in place, with the same equation.
#![tactic(auto)]

ghost use Rattle.std.specs.Prelude.{◌≡◌, replicate};
ghost use Rattle.calls.specs.declared.Call.TheVariants.{Enter, Look, Leave, Claim, Write, Swap, Sync, Raise, Walk, Release, Pick, Checkpoint, Defer};
ghost use Rattle.layout.specs.Layout.{words_length};
ghost use Rattle.statement.specs.Machine.{state, outcome, given};
ghost use Rattle.publication_law.specs.Steps.{up_to};
ghost use Rattle.publication_law.specs.Table.{step, making};
ghost use Rattle.grace_version_law.specs.Steps as new-store;
ghost use Rattle.qsbr_law.specs.Steps as rest-store;

use calls::{Pitch, Reply};
use grace_version_damage::GraceVersionScheme;
use layout::{WORDS, Words};
use qsbr_checkpoint::checkpoint;
use qsbr_damage::QsbrScheme;
use qsbr_deferral::defer;
use qsbr_readers::pick;
use schemes::{MakingScheme, Scheme, SectionScheme};
use shared_calls::{claim, look, make, raise, release, swap, sync, write};
use std::marker::PhantomData;
use two_phase_damage::TwoPhaseScheme;

// A store's control state.
#[derive(Drop)]
pub struct Store<S> {
    pub words: Words,
    scheme: PhantomData<S>,
}

// A store handed back, and the reply.
#[derive(Drop)]
pub struct Stepped<S> {
    pub store: Store<S>,
    pub reply: Reply,
}

// ENTER, LEAVE and WALK, which each kind with sections does by itself.
pub trait SectionCalls: SectionScheme {
    fn enter(words: &mut [u64], entries: &[Pitch], r: u16) -> Reply
        ensures { outcome result (state words.new entries.now)
            ≡ step Self.rules (state words.old entries.now) (Enter r) };

    fn leave(words: &mut [u64], entries: &[Pitch], r: u16) -> Reply
        ensures { outcome result (state words.new entries.now)
            ≡ step Self.rules (state words.old entries.now) (Leave r) };

    fn walk(words: &mut [u64], entries: &[Pitch], p: u16, b: u16) -> Reply
        ensures { outcome result (state words.new entries.now)
            ≡ step Self.rules (state words.old entries.now) (Walk p b) };
}

impl SectionCalls for GraceVersionScheme {
    fn enter(words: &mut [u64], entries: &[Pitch], r: u16) -> Reply {
        grace_version_readers::enter(words, entries, r)
    }

    fn leave(words: &mut [u64], entries: &[Pitch], r: u16) -> Reply {
        grace_version_readers::leave(words, entries, r)
    }

    fn walk(words: &mut [u64], entries: &[Pitch], p: u16, b: u16) -> Reply {
        grace_version_walk::walk(words, entries, p, b)
    }
}

impl SectionCalls for TwoPhaseScheme {
    fn enter(words: &mut [u64], entries: &[Pitch], r: u16) -> Reply {
        two_phase_readers::enter(words, entries, r)
    }

    fn leave(words: &mut [u64], entries: &[Pitch], r: u16) -> Reply {
        two_phase_readers::leave(words, entries, r)
    }

    fn walk(words: &mut [u64], entries: &[Pitch], p: u16, b: u16) -> Reply {
        two_phase_walk::walk(words, entries, p, b)
    }
}

impl<S: MakingScheme> Store<S> {
    // Every slot starts with the table. A refused making hands back a store with every number 0.
    pub fn make(
        entries: &mut [Pitch],
        table: &[Pitch],
        readers: u16,
        publishers: u16,
        slots: u16,
        version: u64,
    ) -> Stepped<S>
        ensures { outcome result.reply (state result.store.words entries.new)
            ≡ making S.rules (given readers publishers slots version table.now)
            (state (replicate words_length 0) entries.old) }
    {
        let mut words = [0u64; WORDS];
        let reply = make::<S>(
            &mut words, entries, table, readers, publishers, slots, version,
        );
        let scheme = PhantomData;
        Stepped {
            store: Store { words, scheme },
            reply,
        }
    }
}

impl<S> Store<S> {
    // The store whose control state this is.
    pub fn from_words(words: Words) -> Store<S>
        ensures { result.words ≡ words }
    {
        let scheme = PhantomData;
        Store { words, scheme }
    }
}

// The calls of every kind.
impl<S: Scheme> Store<S> {
    pub fn look(self, entries: &[Pitch], r: u16, k: u16) -> Stepped<S>
        ensures { outcome result.reply (state result.store.words entries.now)
            ≡ step S.rules (state self.words entries.now) (Look r k) }
    {
        let reply = look::<S>(&self.words, entries, r, k);
        Stepped { store: self, reply }
    }

    pub fn claim(mut self, entries: &[Pitch], p: u16, slot: u16) -> Stepped<S>
        ensures { outcome result.reply (state result.store.words entries.now)
            ≡ step S.rules (state self.words entries.now) (Claim p slot) }
    {
        let reply = claim::<S>(&mut self.words, entries, p, slot);
        Stepped { store: self, reply }
    }

    pub fn write(mut self, entries: &mut [Pitch], p: u16, v: Pitch) -> Stepped<S>
        ensures { outcome result.reply (state result.store.words entries.new)
            ≡ step S.rules (state self.words entries.old) (Write p v) }
    {
        let reply = write::<S>(&mut self.words, entries, p, v);
        Stepped { store: self, reply }
    }

    pub fn swap(mut self, entries: &[Pitch], p: u16) -> Stepped<S>
        ensures { outcome result.reply (state result.store.words entries.now)
            ≡ step S.rules (state self.words entries.now) (Swap p) }
    {
        let reply = swap::<S>(&mut self.words, entries, p);
        Stepped { store: self, reply }
    }
}

// The calls of a kind whose readers enter sections.
impl<S: SectionCalls> Store<S> {
    pub fn enter(mut self, entries: &[Pitch], r: u16) -> Stepped<S>
        ensures { outcome result.reply (state result.store.words entries.now)
            ≡ step S.rules (state self.words entries.now) (Enter r) }
    {
        let reply = S::enter(&mut self.words, entries, r);
        Stepped { store: self, reply }
    }

    pub fn leave(mut self, entries: &[Pitch], r: u16) -> Stepped<S>
        ensures { outcome result.reply (state result.store.words entries.now)
            ≡ step S.rules (state self.words entries.now) (Leave r) }
    {
        let reply = S::leave(&mut self.words, entries, r);
        Stepped { store: self, reply }
    }

    pub fn sync(mut self, entries: &[Pitch], p: u16) -> Stepped<S>
        ensures { outcome result.reply (state result.store.words entries.now)
            ≡ step S.rules (state self.words entries.now) (Sync p) }
    {
        let reply = sync::<S>(&mut self.words, entries, p);
        Stepped { store: self, reply }
    }

    pub fn raise(mut self, entries: &[Pitch], p: u16) -> Stepped<S>
        ensures { outcome result.reply (state result.store.words entries.now)
            ≡ step S.rules (state self.words entries.now) (Raise p) }
    {
        let reply = raise::<S>(&mut self.words, entries, p);
        Stepped { store: self, reply }
    }

    pub fn walk(mut self, entries: &[Pitch], p: u16, b: u16) -> Stepped<S>
        ensures { outcome result.reply (state result.store.words entries.now)
            ≡ step S.rules (state self.words entries.now) (Walk p b) }
    {
        let reply = S::walk(&mut self.words, entries, p, b);
        Stepped { store: self, reply }
    }

    pub fn release(mut self, entries: &[Pitch], p: u16) -> Stepped<S>
        ensures { outcome result.reply (state result.store.words entries.now)
            ≡ step S.rules (state self.words entries.now) (Release p) }
    {
        let reply = release::<S>(&mut self.words, entries, p);
        Stepped { store: self, reply }
    }
}

impl Store<GraceVersionScheme> {
    // The last version: 2^64 - 2.
    pub const LAST: u64 = grace_version_law::LAST;

    // LAST is the number of the rules:
    // the versions of making, of SYNC and of the damage test are those up to it.
    pub fn last_version() -> u64
        ensures { new-store.rules.damage.versions ≡ up_to result }
    {
        Self::LAST
    }
}

impl Store<TwoPhaseScheme> {
    // 2^63 - 1, the last version before versions ran modulo 2^64. Nothing tests it: any version may be given, and the next one follows.
    pub const LAST: u64 = 9223372036854775807;
}

impl Store<QsbrScheme> {
    // The last version: 2^64 - 1.
    pub const LAST: u64 = qsbr_law::LAST;

    // LAST is the number of the rules:
    // the versions of making and of the damage test are those up to it.
    pub fn last_version() -> u64
        ensures { rest-store.rules.damage.versions ≡ up_to result }
    {
        Self::LAST
    }

    pub fn pick(mut self, entries: &[Pitch], r: u16) -> Stepped<QsbrScheme>
        ensures { outcome result.reply (state result.store.words entries.now)
            ≡ step rest-store.rules (state self.words entries.now) (Pick r) }
    {
        let reply = pick(&mut self.words, entries, r);
        Stepped { store: self, reply }
    }

    pub fn checkpoint(mut self, entries: &[Pitch], r: u16) -> Stepped<QsbrScheme>
        ensures { outcome result.reply (state result.store.words entries.now)
            ≡ step rest-store.rules (state self.words entries.now) (Checkpoint r) }
    {
        let reply = checkpoint(&mut self.words, entries, r);
        Stepped { store: self, reply }
    }

    pub fn defer(mut self, entries: &[Pitch], p: u16) -> Stepped<QsbrScheme>
        ensures { outcome result.reply (state result.store.words entries.now)
            ≡ step rest-store.rules (state self.words entries.now) (Defer p) }
    {
        let reply = defer(&mut self.words, entries, p);
        Stepped { store: self, reply }
    }
}
