// CHECKPOINT of the rest store, in place on the lent words.
// It is total, and its contract is the step of qsbr_law.
#![tactic(auto)]

ghost use Rattle.std.specs.Prelude.{◌≡◌, List, ◌+◌, ◌-◌, ◌<◌, ◌≤◌, ℤ, eqb};
ghost use Rattle.base.specs.Base.{choose};
ghost use Rattle.calls.specs.declared.Call.TheVariants.{Checkpoint};
ghost use Rattle.calls.specs.declared.Reply.TheVariants.{At};
ghost use Rattle.calls.specs.Numbers.{publishers_max, deferred_max};
ghost use Rattle.layout.specs.Layout.{reader_at, retirement_at};
ghost use Rattle.layout.specs.Records.{◌second≔◌};
ghost use Rattle.statement.specs.Machine.{state, outcome};
ghost use Rattle.publication_law.specs.Table.{step};
ghost use Rattle.qsbr_law.specs.Steps.{load, observe, least_of, read, stay, staying, read_last, rules};
ghost use Rattle.qsbr_law.specs.Calls.{freed};

use calls::{PLACE_DEFERRING, PLACE_OUT, Pitch, Refusal, Reply};
use layout::{
    Reader, Retirement, WORDS, Words, publisher_place, put_reader, put_retired, put_retirement,
    reader_at, readers_of, retired_at, retirement_at, version_of,
};
use qsbr_damage::QsbrScheme;
use schemes::Scheme;

// Step 1: drops the pick and loads the epoch. Each step answers its number.
fn load_epoch(words: &mut Words, r: usize) -> u64
    requires { r < publishers_max }
    ensures { (es : List ℤ) → outcome (At result) (state words.new es) ≡ load (state words.old es) r }
{
    let mut x = reader_at(words, r);
    x.place = PLACE_OUT;
    x.first = version_of(words);
    put_reader(words, r, x);
    let mut t = retirement_at(words, r);
    t.step = 1;
    put_retirement(words, r, t);
    1
}

// Step 2: stores it as observed.
fn observe_epoch(words: &mut Words, r: usize) -> u64
    requires { r < publishers_max }
    ensures { (es : List ℤ) → outcome (At result) (state words.new es) ≡ observe (state words.old es) r }
{
    let mut x = reader_at(words, r);
    x.published = x.first;
    put_reader(words, r, x);
    let mut t = retirement_at(words, r);
    t.step = 2;
    put_retirement(words, r, t);
    2
}

// The least of what was read before and this; the first read starts it.
fn least_of(step: u64, read: u64, least: u64) -> u64
    ensures { result ≡ least_of step read least }
{
    if step == 2 {
        return read;
    }
    if read < least {
        return read;
    }
    least
}

// Reader r, once its checkpoint has read the next participant.
fn reader_after(words: &Words, r: usize, step: u64) -> Reader
    requires { (r < publishers_max) × (2 ≤ step) × (step ≤ publishers_max + 1) }
    ensures { let w = words.now in
        result ≡ (reader_at w r second≔ least_of step (reader_at w (step - 2)).published (reader_at w r).second) }
{
    let mut x = reader_at(words, r);
    let next = (step - 2) as usize;
    let y = reader_at(words, next);
    x.second = least_of(step, y.published, x.second);
    x
}

// Of the first n retired slots of p those whose mark is at most the least are freed; the others move down. Answers how many stay. By number: a retired slot is two words of the store, and no slice holds them as records.
fn free_due(words: &mut Words, p: usize, n: u64, least: u64) -> u64
    requires { (p < publishers_max) × (n ≤ deferred_max) }
    ensures { stay words.new result ≡ staying p least n 0 0 words.old }
{
    let mut kept: u64 = 0;
    for i in 0..n {
        let d = retired_at(words, p, i as usize);
        if d.mark > least {
            put_retired(words, p, kept as usize, d);
            kept += 1;
        }
    }
    kept
}

// After the last read: what is due is freed, and r is outside again. Most checkpoints have nothing deferred.
fn end_checkpoint(words: &mut Words, r: usize, count: u64, least: u64)
    requires { (r < publishers_max) × (count ≤ deferred_max) }
    ensures { words.new ≡ freed words.old r count least }
{
    if count == 0 {
        put_retirement(words, r, Retirement { step: 0, count: 0 });
        return;
    }
    let kept = free_due(words, r, count, least);
    put_retirement(
        words,
        r,
        Retirement {
            step: 0,
            count: kept,
        },
    );
}

// A later step, of n participants: it reads the next one; the last step also frees.
fn read_epoch(words: &mut Words, r: usize, step: u64, n: u64) -> u64
    requires { (r < publishers_max) × (n ≤ publishers_max)
        × (step ≡ (retirement_at words.old r).step) × (2 ≤ step) × (step ≤ publishers_max + 1)
        × ((retirement_at words.old r).count ≤ deferred_max) }
    ensures { (es : List ℤ) → let s = state words.old es in
        outcome (At result) (state words.new es) ≡ choose (eqb step (n + 1)) (read_last s r) (read s r) }
{
    let x = reader_after(words, r, step);
    put_reader(words, r, x);
    let mut t = retirement_at(words, r);
    if step == n + 1 {
        end_checkpoint(words, r, t.count, x.second);
        return step + 1;
    }
    t.step = step + 1;
    put_retirement(words, r, t);
    step + 1
}

// CHECKPOINT r: one step, with which it replies. 20 at 35.
pub fn checkpoint(words: &mut [u64], entries: &[Pitch], r: u16) -> Reply
    ensures { outcome result (state words.new entries.now)
        ≡ step rules (state words.old entries.now) (Checkpoint r) }
{
    let Some(words) = words.as_mut_array::<WORDS>() else {
        return Refusal::Damaged.into();
    };
    if QsbrScheme::is_damaged(words, entries.len()) {
        return Refusal::Damaged.into();
    }
    let n = readers_of(words);
    if r as u64 >= n {
        return Refusal::NoSuchReader.into();
    }
    let at = r as usize;
    if publisher_place(words, at) == PLACE_DEFERRING {
        return Refusal::ReaderTurn.into();
    }
    let t = retirement_at(words, at);
    let step = t.step;
    match step {
        0 => Reply::At(load_epoch(words, at)),
        1 => Reply::At(observe_epoch(words, at)),
        _ => Reply::At(read_epoch(words, at, step, n)),
    }
}
