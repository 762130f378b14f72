//! Files made of words, and what a reading of them answers.
use refusal::Refusal;
use std::alloc::{AllocError, Global};

/// What is read, or the number and the place of its refusal, as a pair that is short to write.
pub(crate) type Answer<T> = Result<T, (u32, u32)>;

/// That, of what a reading or a call answered.
pub(crate) fn answer<T, F: Refusal + Drop>(answered: Result<T, F>) -> Answer<T> {
    answered.map_err(|fault| (fault.number(), fault.place()))
}

/// A number word: its kind stands in bits 31..28.
pub(crate) fn number(n: i16) -> u32 {
    0x2000_0000 | u32::from(n.cast_unsigned())
}

/// The words as a file, the one at `place` in place of its own.
pub(crate) fn with<const N: usize>(
    heap: Global,
    words: [u32; N],
    place: u32,
    word: u32,
) -> Result<Vec<u8>, AllocError> {
    let mut changed = words;
    if let Some(own) = changed.get_mut(place as usize) {
        *own = word;
    }
    file_of(heap, &changed)
}

/// The words as a file.
pub(crate) fn file_of(heap: Global, words: &[u32]) -> Result<Vec<u8>, AllocError> {
    let mut file = Vec::new(heap);
    for word in words {
        file.extend_from_slice(&word.to_le_bytes())?;
    }
    Ok(file)
}

/// The first `n` bytes, or all where there are fewer.
pub(crate) fn cut(bytes: &[u8], n: u32) -> &[u8] {
    bytes.get(..n as usize).unwrap_or(bytes)
}
