// Buffers of allocation points, and the step from one thing of a segment's row to the next.
ghost use Rattle.std.specs.Prelude.{◌≡◌, ◌+◌, ◌^◌, ◌<◌};
ghost use Rattle.format.specs.Meaning.{extent};
ghost use Rattle.arena.specs.Buffers.{no_buffer, begins, buffer_at, step_over, step_at, padded_part};

use format::{Format, Head, look, pad};

// The words from `init` up to `limit`, in which an allocation point makes objects. One without words is
// none: it begins nowhere, so that nothing has to ask whether there is one.
#[derive(Clone, Copy, PartialEq, Eq, Default, Debug)]
pub struct Buffer {
    pub init: usize,
    pub limit: usize,
}

impl Buffer {
    // Whether the buffer begins at a place.
    fn begins_at(&self, place: usize) -> bool
        ensures { result ≡ begins self.now place }
    {
        self.init == place && place < self.limit
    }

    // Closes the buffer: what is left of it becomes one padding, and there is none.
    pub fn close<F: Format>(&mut self, format: &F, words: &mut [u32])
        ensures words { words.new ≡ padded_part (F.Format.meaning format.now) self.old.init self.old.limit words.old }
        ensures buffer { self.new ≡ no_buffer }
    {
        pad_part(format, words, self.init, self.limit);
        *self = Buffer::default();
    }
}

// What a step along a row goes over, and where the next place is.
#[derive(Clone, Copy, PartialEq, Eq, Debug)]
pub enum Step {
    Thing(usize),
    Padding(usize),
    Buffer(usize),
}

// An arena's words, read in a format, with the buffers that a walk passes over.
#[derive_where(Clone, Copy)]
pub struct Rows<'a, F> {
    pub format: &'a F,
    pub buffers: &'a [Buffer],
    pub words: &'a [u32],
}

impl<F: Format> Rows<'_, F> {
    // Where the buffer ends that begins at a place.
    fn buffer_end(&self, place: usize) -> Option<usize>
        ensures { result ≡ buffer_at self.now.buffers.now place }
    {
        self.buffers
            .iter()
            .find(|buffer| buffer.begins_at(place))
            .map(|buffer| buffer.limit)
    }

    // The step over what stands at a place.
    fn step_over(&self, place: usize, head: Head) -> Option<Step>
        requires { place + extent (F.Format.meaning self.now.format.now) head < 2 ^ 64 }
        ensures { result ≡ step_over (F.Format.meaning self.now.format.now) place head }
    {
        match head {
            Head::Nothing => None,
            Head::Object(shape) => Some(Step::Thing(place + self.format.size(shape))),
            Head::Forwarded { size, .. } => Some(Step::Thing(place + size)),
            Head::Padding { size } => Some(Step::Padding(place + size)),
        }
    }

    // The step from a place of a row that ends at `end`: over a buffer, over a thing that lies before
    // the end, or none.
    pub fn next_step(&self, place: usize, end: usize) -> Option<Step>
        ensures { result ≡ step_at (F.Format.meaning self.now.format.now) self.now.buffers.now self.now.words.now end place }
    {
        if place >= end || end > self.words.len() {
            return None;
        }
        match self.buffer_end(place) {
            Some(limit) => Some(Step::Buffer(limit)),
            None => self.step_over(place, look(self.format, &self.words[place..end])),
        }
    }
}

// Makes the words from a place up to an end one padding, if there are 1 to 256 and they lie in the arena.
pub fn pad_part<F: Format>(format: &F, words: &mut [u32], from: usize, end: usize)
    ensures { words.new ≡ padded_part (F.Format.meaning format.now) from end words.old }
{
    // Not by `get_mut`: a proof does not know the words once that borrow is over.
    if from <= end && end <= words.len() {
        let _ = pad(format, &mut words[from..end]);
    }
}
