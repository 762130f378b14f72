//! Words as they are written.
ghost use Rattle.std.specs.Prelude.{◌≡◌, Some};
ghost use Rattle.refusal.specs.Texts.{refusal_text};
ghost use Rattle.words.specs.Codes.{put_code};
ghost use Rattle.words.specs.Writing.{word_put};

use refusal::{Refusal, RefusalCode, Rule};
use std::fmt;

/// How many bytes a word has.
pub const WORD: usize = 4;

/// Why a word is not written.
#[derive(Clone, Copy, PartialEq, Eq, Debug)]
pub enum PutFault {
    /// 21: the bytes have no word of that number.
    NoRoom,
}

impl Refusal for PutFault {
    ghost code = { put_code };

    fn number(&self) -> u32 {
        match self {
            PutFault::NoRoom => Rule::NoRoom.number(),
        }
    }

    fn place(&self) -> u32 {
        0
    }
}

impl fmt::Display for PutFault {
    ghost output = { λ fault. Some (refusal_text (put_code fault)) };

    fn fmt<W: fmt::Write>(&self, f: &mut fmt::Formatter<W>) -> fmt::Result {
        RefusalCode::of(self).fmt(f)
    }
}

/// Writes word k of the bytes, the least significant byte first. Refused, with 21, where they have
/// no word k, and then nothing is written.
pub fn put(out: &mut [u8], k: usize, word: u32) -> Result<(), PutFault>
    ensures { (result, out.new) ≡ word_put k word out.old }
{
    if out.len() / WORD <= k {
        return Err(PutFault::NoRoom);
    }
    let at = WORD * k;
    out[at..at + WORD].copy_from_slice(&word.to_le_bytes());
    Ok(())
}
