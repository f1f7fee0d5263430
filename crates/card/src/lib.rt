// A card's bytes to its entries, by the definition of card_law.
// Every function is total.
#![tactic(auto)]

ghost use Rattle.std.specs.Prelude.{◌+◌, ◌<◌, ◌≤◌, ◌≡◌, ◌∷◌, List, [], length, set, take, IfOk, IfErr};
ghost use Rattle.lines_law.specs.Lines.{lines_of};
ghost use Rattle.card_law.specs.Card.{bad_line, card_of};

use calls::Pitch;
use sheet_fields::{angle, split_at_byte};

const NEWLINE: u8 = b'\n';

// The first line of a text, and the text after it.
fn split_line(text: &[u8]) -> (&[u8], &[u8])
    ensures lines { 0 < length text.now → lines_of text.now ≡ result.0.now ∷ lines_of result.1.now }
    ensures shorter { 0 < length text.now → length result.1.now < length text.now }
{
    split_at_byte(text, NEWLINE)
}

// Puts an entry behind those that are there, if there is room for it; says how many there are then.
// (by index: of an entry that `get_mut` lends a proof knows nothing afterwards)
fn put_entry(room: &mut [Pitch], count: usize, v: Pitch) -> usize
    ensures { (count < length room.old → (result ≡ count + 1) × (room.new ≡ set room.old count v))
        × (length room.old ≤ count → (result ≡ count) × (room.new ≡ room.old)) }
{
    if count < room.len() {
        room[count] = v;
        return count + 1;
    }
    count
}

// Puts the entries of a card, as many as there is room for, and says how many.
// Left open is what the room holds beyond them. An error is the number of the first line that is no pitch.
pub fn read_card(bytes: &[u8], room: &mut [Pitch]) -> Result<usize, usize>
    ensures ok { IfOk result (λ count. (bad_line 0 (lines_of bytes.now) ≡ None)
        × (take count room.new ≡ take (length room.old) (card_of bytes.now))
        × (count ≤ length room.old)) }
    ensures err { IfErr result (λ line. (bad_line 0 (lines_of bytes.now) ≡ Some line)
        × (card_of bytes.now ≡ [])) }
{
    let mut rest = bytes;
    let mut line: usize = 0;
    let mut count: usize = 0;
    // (a loop over `split` would have one line more after the last newline)
    while !rest.is_empty() {
        let (first, after) = split_line(rest);
        line += 1;
        let Some(v) = angle(first) else {
            return Err(line);
        };
        count = put_entry(room, count, v);
        rest = after;
    }
    Ok(count)
}
