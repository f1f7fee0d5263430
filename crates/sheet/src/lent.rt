// `feed` and `finish` for whoever keeps the line that was begun in lent bytes.

ghost use Rattle.std.specs.Prelude.{length, take};
ghost use Rattle.statement.specs.Machine.{state};
ghost use Rattle.lines_law.specs.Lines.{ending};
ghost use Rattle.sheet_law.specs.Sheet.{sheet_state};
ghost use Rattle.sheet.specs.Feeds.{FeedsIn};

use super::{KEPT, Kept, Sheet};
use calls::Pitch;

// How far a sheet was fed whose line is kept in lent bytes, and what is kept of it then.
#[derive(Drop)]
pub struct LentFed {
    // how many lines were read
    pub lines: u64,
    // how many bytes of the next line are kept
    pub count: usize,
    // how many bytes of the input were taken
    pub used: usize,
    // how many bytes of the output were printed
    pub made: usize,
}

// `Sheet::feed`, with the line that was begun in lent bytes. With other than 81 bytes to keep a line in nothing is done.
pub fn feed(
    words: &mut [u64],
    room: &mut [Pitch],
    table: &[Pitch],
    kept: &mut [u8],
    lines: u64,
    count: usize,
    input: &[u8],
    out: &mut [u8],
) -> LentFed
    ensures { FeedsIn table.now (length kept.old)
        (sheet_state lines (take count kept.old) (state words.old room.old))
        input.now result.used
        (sheet_state result.lines (take result.count kept.new) (state words.new room.new))
        out.old out.new result.made }
{
    let Some(bytes) = kept.as_mut_array::<KEPT>() else {
        return LentFed {
            lines,
            count,
            used: 0,
            made: 0,
        };
    };
    let mut sheet = Sheet {
        words,
        room,
        table,
        kept: Kept::from_bytes(lines, *bytes, count),
    };
    let fed = sheet.feed(input, out);
    let (lines, count) = sheet.kept.put(bytes);
    LentFed {
        lines,
        count,
        used: fed.used,
        made: fed.made,
    }
}

// `Sheet::finish`, with the line that was begun in lent bytes. With other than 81 bytes to keep a line in nothing is done.
pub fn finish(
    words: &mut [u64],
    room: &mut [Pitch],
    table: &[Pitch],
    kept: &mut [u8],
    lines: u64,
    count: usize,
    out: &mut [u8],
) -> LentFed
    ensures { FeedsIn table.now (length kept.old)
        (sheet_state lines (take count kept.old) (state words.old room.old))
        (ending (take count kept.old)) result.used
        (sheet_state result.lines (take result.count kept.new) (state words.new room.new))
        out.old out.new result.made }
{
    let Some(line) = kept.as_mut_array::<KEPT>() else {
        return LentFed {
            lines,
            count,
            used: 0,
            made: 0,
        };
    };
    let mut sheet = Sheet {
        words,
        room,
        table,
        kept: Kept::from_bytes(lines, *line, count),
    };
    let fed = sheet.finish(out);
    let (lines, count) = sheet.kept.put(line);
    LentFed {
        lines,
        count,
        used: fed.used,
        made: fed.made,
    }
}
