//! A reader of words.
ghost use Rattle.std.specs.Prelude.{◌≡◌, ◌*◌, ◌≤◌, length, ◌==◌};
ghost use Rattle.std.specs.Result.{result_map_both};
ghost use Rattle.words.specs.declared.writing.TheConstants.{WORD};

use crate::fault::{WordFault, place_as_u32};
use crate::kind::{Kind, WORDS_OF_A_KIND};
use crate::writing::WORD;
use lattice::{Direction, Point};

/// A reader over the caller's bytes, from the first word of a part on. It knows its place: how
/// many words of the part it has read. A word that is refused stays due.
#[derive(Clone, Copy, Drop)]
pub struct Reader<'a> {
    bytes: &'a [u8],
    at: usize,
    ghost at_in_bytes: { WORD * at ≤ length bytes.now },
}

// What may still be refused once it is read is read by a copy of the reader.
impl<'a> Reader<'a> {
    ghost use Rattle.words.specs.Kinds.{kind_number};
    ghost use Rattle.words.specs.Reading.{answer_with, kind_and_rest, word_at, kind_at, rest_at};
    ghost use Rattle.words.specs.Reading.{bare_at, number_at, number_in, row_at, point_at};
    ghost use Rattle.words.specs.Encoding.{NumbersReadBack};
    ghost use Rattle.words.specs.Cursor.{text, place, bytes_left, Moved};

    /// A reader at the first of the bytes.
    pub fn new(bytes: &'a [u8]) -> Reader<'a>
        ensures text { text result ≡ bytes.now }
        ensures place { place result ≡ 0 }
    {
        Reader { bytes, at: 0 }
    }

    /// Begins the next part at the word that is due.
    pub fn next_part(&mut self)
        ensures text { text self.new ≡ bytes_left self.old }
        ensures place { place self.new ≡ 0 }
    {
        self.bytes = &self.bytes[WORD * self.at..];
        self.at = 0;
    }

    /// How many words of the part are read.
    pub fn place(&self) -> usize
        ensures { result ≡ place self.now }
    {
        self.at
    }

    /// Is no byte left?
    pub fn at_end(&self) -> bool
        ensures { result ≡ (length (bytes_left self.now) == 0) }
    {
        self.bytes.len() == WORD * self.at
    }

    /// The word that is due, which stays due.
    #[tactic(auto, unfolding(crate::specs::Reading::word_at))]
    fn peek(&self) -> Result<u32, WordFault>
        ensures { result ≡ word_at (text self.now) (place self.now) }
    {
        let Some(bytes) = self.bytes[WORD * self.at..].first_chunk() else {
            return Err(WordFault::Short { place: self.at });
        };
        Ok(u32::from_le_bytes(*bytes))
    }

    /// The word that is due, whose kind is from least to most.
    #[tactic(auto, unfolding(crate::specs::Reading::kind_at, crate::specs::Reading::word_at))]
    fn of_kinds(&mut self, least: u32, most: u32) -> Result<u32, WordFault>
        ensures value { result_map_both kind_and_rest (λ e. e) result
            ≡ kind_at (text self.old) (place self.old) least most }
        ensures moved { Moved result 1 self.old self.new }
    {
        let w = self.peek()?;
        if !(least..=most).contains(&(w / WORDS_OF_A_KIND)) {
            return Err(WordFault::Kind { place: self.at });
        }
        self.at += 1;
        Ok(w)
    }

    /// The word that is due, of a kind from least to most: its kind, and its other 28 bits. Any two
    /// numbers may be asked for, also those of no kind, so that they are no `Kind`s.
    pub fn word(&mut self, least: u32, most: u32) -> Result<(u32, u32), WordFault>
        ensures value { result ≡ kind_at (text self.old) (place self.old) least most }
        ensures moved { Moved result 1 self.old self.new }
    {
        let w = self.of_kinds(least, most)?;
        Ok((w / WORDS_OF_A_KIND, w % WORDS_OF_A_KIND))
    }

    /// The word that is due, of this kind: its other 28 bits.
    // Who reads many numbers is faster where they are not taken out of a pair.
    pub fn rest_of(&mut self, kind: Kind) -> Result<u32, WordFault>
        ensures value { result ≡ rest_at (text self.old) (place self.old) (kind_number kind) }
        ensures moved { Moved result 1 self.old self.new }
    {
        let own = kind.number();
        Ok(self.of_kinds(own, own)? % WORDS_OF_A_KIND)
    }

    /// The word that is due, of a kind from least to most, whose other bits all are unnamed: its
    /// kind. Any two numbers may be asked for here too, so that they are no `Kind`s.
    #[tactic(auto, unfolding(crate::specs::Reading::bare_at))]
    pub fn bare(&mut self, least: u32, most: u32) -> Result<u32, WordFault>
        ensures value { result ≡ bare_at (text self.old) (place self.old) least most }
        ensures moved { Moved result 1 self.old self.new }
    {
        let mut ahead = *self;
        let (kind, rest) = ahead.word(least, most)?;
        if rest != 0 {
            return Err(WordFault::Unnamed { place: self.at });
        }
        *self = ahead;
        Ok(kind)
    }

    /// The word that is due, of this kind, whose other bits all are unnamed.
    pub fn bare_of(&mut self, kind: Kind) -> Result<(), WordFault>
        ensures value { result ≡ answer_with
            (bare_at (text self.old) (place self.old) (kind_number kind) (kind_number kind)) tt }
        ensures moved { Moved result 1 self.old self.new }
    {
        let own = kind.number();
        self.bare(own, own)?;
        Ok(())
    }

    /// The number that is due. What is written as a number is read as that number.
    #[tactic(auto, unfolding(crate::specs::Reading::number_at))]
    pub fn number(&mut self) -> Result<i16, WordFault>
        ensures value { result ≡ number_at (text self.old) (place self.old) }
        ensures moved { Moved result 1 self.old self.new }
        ensures back { NumbersReadBack }
    {
        let mut ahead = *self;
        let rest = ahead.rest_of(Kind::Number)?;
        let Ok(bits) = u16::try_from(rest) else {
            return Err(WordFault::Unnamed { place: self.at });
        };
        *self = ahead;
        Ok(bits.cast_signed())
    }

    /// The number that is due, from lo to hi.
    #[tactic(auto, unfolding(crate::specs::Reading::number_in))]
    pub fn number_in(&mut self, lo: i32, hi: i32) -> Result<i32, WordFault>
        ensures value { result ≡ number_in (text self.old) (place self.old) lo hi }
        ensures moved { Moved result 1 self.old self.new }
    {
        let mut ahead = *self;
        let n = i32::from(ahead.number()?);
        if !(lo..=hi).contains(&n) {
            return Err(WordFault::Range { place: self.at });
        }
        *self = ahead;
        Ok(n)
    }

    /// The number that is due, a row of the table of directions that moves.
    #[tactic(auto, unfolding(crate::specs::Reading::row_at))]
    pub fn row(&mut self) -> Result<i32, WordFault>
        ensures value { result ≡ row_at (text self.old) (place self.old) }
        ensures moved { Moved result 1 self.old self.new }
    {
        let mut ahead = *self;
        let n = i32::from(ahead.number()?);
        if Direction::of_row(n, place_as_u32(self.at)).is_err() {
            return Err(WordFault::Row { place: self.at });
        }
        *self = ahead;
        Ok(n)
    }

    /// The point that is due: three numbers, each from lo to hi.
    #[tactic(auto, unfolding(crate::specs::Reading::point_at))]
    pub fn point(&mut self, lo: i32, hi: i32) -> Result<Point, WordFault>
        ensures value { result ≡ point_at (text self.old) (place self.old) lo hi }
        ensures moved { Moved result 3 self.old self.new }
    {
        let mut ahead = *self;
        let x = ahead.number_in(lo, hi)?;
        let y = ahead.number_in(lo, hi)?;
        let z = ahead.number_in(lo, hi)?;
        *self = ahead;
        Ok(Point { x, y, z })
    }
}
