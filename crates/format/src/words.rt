// Single words of a thing, and a thing that is a header and zeros.
ghost use Rattle.std.specs.Prelude.{◌≡◌, slice_index, slice_set};
ghost use Rattle.format.specs.Words.{stamped};

// The word at k, and 0 past the end.
pub(crate) fn word_at(words: &[u32], k: usize) -> u32
    ensures { result ≡ slice_index words.now k }
{
    words.get(k).copied().unwrap_or(0)
}

// Writes the word at k; past the end nothing.
pub(crate) fn put_word(own: &mut [u32], k: usize, word: u32)
    ensures { own.new ≡ slice_set own.old k word }
{
    // Not by `get_mut`: a proof does not know the words once that borrow is over.
    if k < own.len() {
        own[k] = word;
    }
}

// Writes the header, and 0 to every other word.
pub(crate) fn stamp(own: &mut [u32], header: u32)
    ensures { own.new ≡ stamped header own.old }
{
    own.fill(0);
    put_word(own, 0, header);
}
