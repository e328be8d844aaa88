//! The lines of a book, read one by one from the part of the book that begins with them.
ghost use Rattle.std.specs.Prelude.{◌≡◌};
ghost use Rattle.members.specs.Lines.{line_at, death_at, line_count, handed};
ghost use Rattle.members.specs.Written.{LineReadsBack, LineIsItsBytes, LinesReadBack, LinesAreTheirBytes};

const DEATH: u8 = 1;

const NEW_YEAR: u8 = 2;

const WOUND_UP: u8 = 3;

#[derive(Clone, Copy, PartialEq, Eq, Debug)]
pub enum Line {
    Death { member: u8, word: u32 },
    NewYear,
    WoundUp,
}

/// The first line of a part of the book, with the part after it; none where no line can be read.
#[tactic(auto, unfolding(crate::specs::Lines::death_at))]
pub fn read_line(part: &[u8]) -> Option<(Line, &[u8])>
    ensures { handed result ≡ line_at part.now }
{
    // Read before the match: patterns on the whole part would first test of every line whether the part is as long as a death.
    let (kind, rest) = part.split_first()?;
    match (*kind, rest) {
        (DEATH, [member, a, b, c, d, rest @ ..]) => {
            let death = Line::Death {
                member: *member,
                word: u32::from_le_bytes([*a, *b, *c, *d]),
            };
            Some((death, rest))
        }
        (NEW_YEAR, rest) => Some((Line::NewYear, rest)),
        (WOUND_UP, rest) => Some((Line::WoundUp, rest)),
        _ => None,
    }
}

/// How many lines a part of the book has. One that cannot be read is the last.
#[tactic(auto, using(crate::proofs::Written::line_reads_back, crate::proofs::Written::lines_read_back, crate::proofs::Written::lines_are_their_bytes))]
pub fn count_lines(part: &[u8]) -> usize
    ensures value { result ≡ line_count part.now }
    ensures line_back { LineReadsBack }
    ensures line_bytes { LineIsItsBytes }
    ensures back { LinesReadBack }
    ensures bytes { LinesAreTheirBytes }
{
    let mut count = 0;
    let mut left = part;
    while let Some((_, rest)) = read_line(left) {
        count += 1;
        left = rest;
    }
    if left.is_empty() { count } else { count + 1 }
}
