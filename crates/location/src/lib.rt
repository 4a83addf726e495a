// Location dependencies: which zones of addresses a client relies on, and whether anything there may have moved since.
#![tactic(auto)]

ghost use Rattle.std.specs.Prelude.{◌≡◌};
ghost use Rattle.location.specs.Locations.{zone_of, zone_bit, empty_history, joined_to, age_answer, age_after, reset_to, entered, aged_since, is_stale, NeverMisses};

use format::Refusal;

// How many ageings back the history tells apart.
const DEPTH: usize = 4;

// A store collects at most so many times, and ages as often.
pub const MOST_COLLECTIONS: u32 = 1_000_000;

// The zones that were aged, as sets of 32 bits. Of the recent sets, the one at an epoch's remainder
// by DEPTH has every zone that was aged since that epoch; `ever` has every zone that was ever aged.
#[derive(Clone, Copy, PartialEq, Eq, Default, Debug)]
pub struct History {
    epoch: u32,
    recent: [u32; DEPTH],
    ever: u32,
}

// What a client relies on: the zones of the addresses that it has entered since an epoch.
#[derive(Clone, Copy, PartialEq, Eq, Debug)]
pub struct Dependency {
    epoch: u32,
    zones: u32,
}

// The zone of an address, 0 to 31: a segment's place among 32.
pub fn zone(address: u32) -> u32
    ensures { result ≡ zone_of address }
{
    address / 256 % 32
}

// The set of that zone alone.
pub fn zone_set(address: u32) -> u32
    ensures { result ≡ zone_bit address }
{
    1 << zone(address)
}

// The recent sets, with the zones joined to each.
fn joined_to(sets: [u32; DEPTH], zones: u32) -> [u32; DEPTH]
    ensures { result ≡ joined_to zones sets }
{
    sets.map(|set| set | zones)
}

impl History {
    // The history of an arena in which nothing has been aged.
    pub fn new() -> History
        ensures { result ≡ empty_history }
    {
        History::default()
    }

    // How often the arena has been aged.
    pub fn epoch(&self) -> u32
        ensures { result ≡ self.now.epoch }
    {
        self.epoch
    }

    // The zones that were aged since an epoch, or at any time if that is more than DEPTH ageings ago.
    fn aged_since(&self, epoch: u32) -> u32
        ensures { result ≡ aged_since self.now epoch }
    {
        if self.epoch.saturating_sub(epoch) as usize > DEPTH {
            self.ever
        } else {
            self.recent[epoch as usize % DEPTH]
        }
    }

    // Ages every dependency by a set of zones, once for each collection.
    pub fn age(&mut self, zones: u32) -> Result<(), Refusal>
        ensures answer { result ≡ age_answer self.old }
        ensures after { self.new ≡ age_after self.old zones }
    {
        if self.epoch >= MOST_COLLECTIONS {
            return Err(Refusal::CollectionsSpent);
        }
        self.recent[self.epoch as usize % DEPTH] = 0;
        self.recent = joined_to(self.recent, zones);
        self.ever |= zones;
        self.epoch += 1;
        Ok(())
    }
}

impl Dependency {
    // A dependency on nothing, at the arena's epoch.
    pub fn reset(history: &History) -> Dependency
        ensures { result ≡ reset_to history.now }
    {
        Dependency {
            epoch: history.epoch,
            zones: 0,
        }
    }

    // Enters an address: the client relies on its zone from now on.
    pub fn enter(&mut self, address: u32)
        ensures { self.new ≡ entered self.old address }
    {
        self.zones |= zone_set(address);
    }

    // Whether something that was entered may have moved.
    #[tactic(auto, using(crate::proofs::Runs::never_misses))]
    pub fn stale(&self, history: &History) -> bool
        ensures answer { result ≡ is_stale history.now self.now }
        ensures laws { NeverMisses }
    {
        history.epoch != self.epoch && self.zones & history.aged_since(self.epoch) != 0
    }
}

#[cfg(test)]
mod tests {
    use super::*;
    use std::test::Fail;

    // An address in segment 1, and the set of its zone.
    const ADDRESS: u32 = 256;

    const ZONE: u32 = 2;

    fn age_by(history: &mut History, zones: u32, times: u32) -> Result<(), Fail> {
        for _ in 0..times {
            history.age(zones)?;
        }
        Ok(())
    }

    #[test]
    fn zones(rt: HostRuntime) {
        assert_eq!(rt; zone(0), 0);
        assert_eq!(rt; zone(255), 0);
        assert_eq!(rt; zone(256), 1);
        assert_eq!(rt; zone(8_191), 31);
        assert_eq!(rt; zone(8_192), 0);
        assert_eq!(rt; zone_set(65_535), 0x8000_0000);
    }

    // What was aged before the reset is not told apart from what came after once five ageings have passed.
    #[test]
    fn four_ageings_by_nothing_and_a_fifth(rt: HostRuntime) -> Result<(), Fail> {
        let mut history = History::new();
        age_by(&mut history, ZONE, 1)?;
        let mut dependency = Dependency::reset(&history);
        dependency.enter(ADDRESS);
        assert!(rt; !dependency.stale(&history));
        age_by(&mut history, 0, 4)?;
        assert!(rt; !dependency.stale(&history));
        age_by(&mut history, 0, 1)?;
        assert!(rt; dependency.stale(&history));
        Ok(())
    }

    #[test]
    fn an_ageing_of_its_zone_makes_it_stale_until_it_is_reset(rt: HostRuntime) -> Result<(), Fail> {
        for later in 0..9 {
            let mut history = History::new();
            let mut dependency = Dependency::reset(&history);
            dependency.enter(ADDRESS);
            age_by(&mut history, 0xffff_fffd, 1)?;
            assert!(rt; !dependency.stale(&history));
            age_by(&mut history, ZONE, 1)?;
            age_by(&mut history, 0, later)?;
            assert!(rt; dependency.stale(&history));
            let mut anew = Dependency::reset(&history);
            anew.enter(ADDRESS);
            assert!(rt; !anew.stale(&history));
        }
        Ok(())
    }
}
