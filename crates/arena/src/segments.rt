// Segments of 256 words. Segment 0 is never used, so that address 0 can be null.
ghost use Rattle.std.specs.Prelude.{◌≡◌, ◌-◌, ◌<◌, ◌≤◌, IfSome, length};
ghost use Rattle.arena.specs.Segments.{all_free, owner_of, owned, segments_in, free_among, lowest_free, lowest_free_from, Inside, InsideFrom, freed, freed_words};

use crate::boards::clear_all;

// Whose a segment is: a pool's, or nobody's.
pub type Owner = Option<u8>;

// The owners of an arena's segments, of which there are at most 256.
#[derive(Clone, Copy, PartialEq, Eq, Debug)]
pub struct Segments {
    owners: [Owner; 256],
}

// How many segments an arena of so many words has.
pub fn segments_in(words: usize) -> usize
    ensures { result ≡ segments_in words }
{
    (words / 256).min(256)
}

impl Segments {
    // No segment is anybody's.
    pub fn new() -> Segments
        ensures { result ≡ all_free }
    {
        Segments {
            owners: [None; 256],
        }
    }

    // Whose a segment is.
    pub fn owner(&self, segment: u8) -> Owner
        ensures { result ≡ owner_of self.now segment }
    {
        self.owners[segment as usize]
    }

    // Gives a segment to a pool.
    pub fn give(&mut self, segment: u8, pool: u8)
        ensures { self.new ≡ owned self.old segment pool }
    {
        self.owners[segment as usize] = Some(pool);
    }

    // The first free one from a segment up to an end. By the owners' own index: a segment made a `u8` first
    // takes a third more time.
    fn first_free(&self, from: usize, end: usize) -> Option<usize>
        requires { end ≤ 256 }
        ensures which { result ≡ free_among (end - from) self.now from }
        ensures within { IfSome result (λ s. (from ≤ s) × (s < end)) }
    {
        (from..end).find(|segment| self.owners[*segment].is_none())
    }

    // The lowest free segment of an arena of so many words, but for segment 0.
    pub fn lowest_free(&self, words: usize) -> Option<u8>
        ensures answer { result ≡ lowest_free self.now words }
        ensures inside { Inside words result }
    {
        self.lowest_free_from(1, words)
    }

    // The lowest free one from a given segment on.
    pub fn lowest_free_from(&self, from: usize, words: usize) -> Option<u8>
        ensures answer { result ≡ lowest_free_from self.now words from }
        ensures inside { InsideFrom from words result }
    {
        self.first_free(from, segments_in(words))
            .map(|segment| segment as u8)
    }

    // Frees a segment that lies in the arena: all its words are 0, and it is nobody's.
    #[tactic(auto, using(crate::proofs::Parts::part_freed))]
    pub fn free(&mut self, words: &mut [u32], segment: u8)
        ensures state { self.new ≡ freed self.old (length words.old) segment }
        ensures words { words.new ≡ freed_words words.old segment }
    {
        let base = segment as usize * 256;
        // Not by `get_mut`: a proof does not know the words once that borrow is over.
        if base + 256 <= words.len() {
            clear_all(&mut words[base..base + 256]);
            self.owners[segment as usize] = None;
        }
    }
}
