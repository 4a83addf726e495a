// Writing over a thing's own words, for every format. A refused write leaves them.
ghost use Rattle.std.specs.Prelude.{◌≡◌};
ghost use Rattle.format.specs.Answers.{make_answer, make_words, own_shape, set_answer, set_words, forward_answer, forward_words, pad_answer, pad_words};

use crate::checks::{holds, is_place};
use crate::reading::look;
use crate::refusals::Refusal;
use crate::things::{Format, Head, LONGEST_PADDING, Shape, Slot};

// Makes an object, each slot null or 0.
pub fn make<F: Format>(format: &F, own: &mut [u32], shape: Shape) -> Result<(), Refusal>
    ensures answer { result ≡ make_answer (F.Format.meaning format.now) shape own.old }
    ensures after { own.new ≡ make_words (F.Format.meaning format.now) shape own.old }
{
    if !format.admits(shape) {
        return Err(Refusal::NotAdmitted);
    }
    if own.len() != format.size(shape) {
        return Err(Refusal::WrongLength);
    }
    format.write_object(own, shape);
    Ok(())
}

// The shape of the object whose words these are, no word more or less.
fn shape_of<F: Format>(format: &F, own: &[u32]) -> Result<Shape, Refusal>
    ensures { result ≡ own_shape (F.Format.meaning format.now) own.now }
{
    match look(format, own) {
        Head::Object(shape) if own.len() == format.size(shape) => Ok(shape),
        _ => Err(Refusal::WrongLength),
    }
}

// Sets slot i of an object.
pub fn set_slot<F: Format>(format: &F, own: &mut [u32], i: u8, value: Slot) -> Result<(), Refusal>
    ensures answer { result ≡ set_answer (F.Format.meaning format.now) i value own.old }
    ensures after { own.new ≡ set_words (F.Format.meaning format.now) i value own.old }
{
    let shape = shape_of(format, own)?;
    if i >= shape.n {
        return Err(Refusal::NoSuchSlot);
    }
    if !holds(format, shape, i, value) {
        return Err(Refusal::NotHeld);
    }
    format.write_slot(own, shape, i, value);
    Ok(())
}

// Marks an object as moved to a new address.
pub fn forward<F: Format>(format: &F, own: &mut [u32], to: u32) -> Result<(), Refusal>
    ensures answer { result ≡ forward_answer (F.Format.meaning format.now) to own.old }
    ensures after { own.new ≡ forward_words (F.Format.meaning format.now) to own.old }
{
    shape_of(format, own)?;
    if !is_place(format, to) {
        return Err(Refusal::NotHeld);
    }
    format.write_forward(own, to);
    Ok(())
}

// Makes the words one padding.
pub fn pad<F: Format>(format: &F, own: &mut [u32]) -> Result<(), Refusal>
    ensures answer { result ≡ pad_answer own.old }
    ensures after { own.new ≡ pad_words (F.Format.meaning format.now) own.old }
{
    if !(1..=LONGEST_PADDING).contains(&own.len()) {
        return Err(Refusal::WrongLength);
    }
    format.write_padding(own);
    Ok(())
}
