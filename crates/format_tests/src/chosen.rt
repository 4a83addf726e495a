// A format that is one of two, as its value says. Its limits depend on its value, as all that it means does.
ghost use Rattle.format_tests.specs.Chosen.{chosen, chosen_lawful};

use format::{Format, Head, Kind, Shape, Slot};
use formats::{Counted, Tagged};

#[derive(Clone, Copy)]
pub enum Chosen {
    ToCount,
    ToTag,
}

// The constants are the greatest of either.
impl Format for Chosen {
    const GREATEST_NUMBER: u32 = 4_294_967_295;

    const GREATEST_ADDRESS: u32 = 65_535;

    ghost GREATEST_NUMBER = { 4294967295 };

    ghost GREATEST_ADDRESS = { 65535 };

    ghost meaning = { chosen };

    ghost lawful = { chosen_lawful };

    fn number_limit(&self) -> u32 {
        match self {
            Chosen::ToCount => Counted.number_limit(),
            Chosen::ToTag => Tagged.number_limit(),
        }
    }

    fn address_limit(&self) -> u32 {
        match self {
            Chosen::ToCount => Counted.address_limit(),
            Chosen::ToTag => Tagged.address_limit(),
        }
    }

    fn admits(&self, shape: Shape) -> bool {
        match self {
            Chosen::ToCount => Counted.admits(shape),
            Chosen::ToTag => Tagged.admits(shape),
        }
    }

    fn size(&self, shape: Shape) -> usize {
        match self {
            Chosen::ToCount => Counted.size(shape),
            Chosen::ToTag => Tagged.size(shape),
        }
    }

    fn kind(&self, shape: Shape, i: u8) -> Kind {
        match self {
            Chosen::ToCount => Counted.kind(shape, i),
            Chosen::ToTag => Tagged.kind(shape, i),
        }
    }

    fn head(&self, words: &[u32]) -> Head {
        match self {
            Chosen::ToCount => Counted.head(words),
            Chosen::ToTag => Tagged.head(words),
        }
    }

    fn slot(&self, words: &[u32], shape: Shape, i: u8) -> Slot {
        match self {
            Chosen::ToCount => Counted.slot(words, shape, i),
            Chosen::ToTag => Tagged.slot(words, shape, i),
        }
    }

    fn write_object(&self, own: &mut [u32], shape: Shape) {
        match self {
            Chosen::ToCount => Counted.write_object(own, shape),
            Chosen::ToTag => Tagged.write_object(own, shape),
        }
    }

    fn write_slot(&self, own: &mut [u32], shape: Shape, i: u8, value: Slot) {
        match self {
            Chosen::ToCount => Counted.write_slot(own, shape, i, value),
            Chosen::ToTag => Tagged.write_slot(own, shape, i, value),
        }
    }

    fn write_forward(&self, own: &mut [u32], to: u32) {
        match self {
            Chosen::ToCount => Counted.write_forward(own, to),
            Chosen::ToTag => Tagged.write_forward(own, to),
        }
    }

    fn write_padding(&self, own: &mut [u32]) {
        match self {
            Chosen::ToCount => Counted.write_padding(own),
            Chosen::ToTag => Tagged.write_padding(own),
        }
    }
}

#[cfg(test)]
mod tests {
    use super::*;
    // By `*`, so that a constant of `Counted` is seen to have one name.
    use format::*;
    use std::test::Fail;

    #[test]
    fn its_limits_are_those_of_the_one_chosen(rt: HostRuntime) {
        let shape = Shape { layout: 0, n: 1 };
        let most = Slot::Number(2_147_483_647);
        let more = Slot::Number(2_147_483_648);
        assert!(rt; holds(&Chosen::ToTag, shape, 0, most));
        assert!(rt; !holds(&Chosen::ToTag, shape, 0, more));
        assert!(rt; holds(&Chosen::ToCount, shape, 0, more));
        let greatest = Slot::Number(Counted::GREATEST_NUMBER);
        assert_eq!(rt; greatest, Slot::Number(4_294_967_295));
        assert!(rt; holds(&Chosen::ToCount, shape, 0, greatest));
    }

    #[test]
    fn it_reads_and_writes_as_the_one_chosen(rt: HostRuntime) -> Result<(), Fail> {
        let shape = Shape { layout: 0, n: 1 };
        let number = Slot::Number(2_147_483_648);
        let mut own = [0; 2];
        make(&Chosen::ToTag, &mut own, shape)?;
        assert_eq!(rt; read(&Tagged, &own), Head::Object(shape));
        assert_eq!(rt; read(&Chosen::ToCount, &own), Head::Nothing);
        assert_eq!(rt;
            set_slot(&Chosen::ToTag, &mut own, 0, number),
            Err(Refusal::NotHeld)
        );
        make(&Chosen::ToCount, &mut own, shape)?;
        set_slot(&Chosen::ToCount, &mut own, 0, number)?;
        assert_eq!(rt; read(&Counted, &own), Head::Object(shape));
        assert_eq!(rt; Counted.slot(&own, shape, 0), number);
        Ok(())
    }
}
