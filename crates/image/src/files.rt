// Image files: every word is four bytes, lowest first.
ghost use Rattle.std.specs.Prelude.{◌≡◌, IfOk};
ghost use Rattle.image.specs.Bytes.{bytes_of, words_of};

use std::alloc::{AllocError, Global};

// The bytes of the words, which are read back as these words.
pub fn to_bytes(heap: Global, words: &[u32]) -> Result<Vec<u8>, AllocError>
    ensures value { IfOk result (λ v. v.items ≡ bytes_of words.now) }
    ensures back { IfOk result (λ v. words_of v.items ≡ words.now) }
{
    let mut out = Vec::new(heap);
    for w in words {
        out.extend_from_slice(&w.to_le_bytes())?;
    }
    Ok(out)
}

// The words of the bytes; what is left of less than four is no word.
pub fn to_words(heap: Global, bytes: &[u8]) -> Result<Vec<u32>, AllocError>
    ensures { IfOk result (λ v. v.items ≡ words_of bytes.now) }
{
    let (words, _) = bytes.as_chunks::<4>();
    words.iter().map(|w| u32::from_le_bytes(*w)).collect(heap)
}
