// What stays: nailed objects, objects without room, marked objects, and pools outside the set.
use crate::building::{Store, in_each_format, padding};
use arena::Buffer;
use format::Format;
use format::Slot::{Number, Reference};
use location::Dependency;
use std::process::Abort;
use std::test::Fail;

impl<R: Abort, F: Format, const N: usize> Store<'_, R, F, N> {
    // An AMC object of three words at 256, in register 0.
    fn build_one(&mut self) -> Result<(), Fail> {
        self.put_in_registers(&[(256, 3)])?;
        self.give(1, 0, 3);
        Ok(())
    }
}

fn check_last_word_nails(mut store: Store<impl Abort, impl Format, 1024>) -> Result<(), Fail> {
    store.build_one()?;
    store.arena.ambiguous[7] = 258;
    store.check_collection(1, 1);
    store.check_registers(&[256]);
    store.check_owner(1, Some(0));
    store.check_row(1, &[store.object(0, 2), padding(253)]);
    store.check_slot(256, 1, Number(256));
    Ok(())
}

fn check_next_word_does_not(mut store: Store<impl Abort, impl Format, 1024>) -> Result<(), Fail> {
    store.build_one()?;
    store.arena.ambiguous[7] = 259;
    store.check_collection(1, 65_536);
    store.check_registers(&[512]);
    store.check_free(1);
    store.check_owner(2, Some(0));
    store.check_row(2, &[store.object(0, 2), padding(253)]);
    store.check_slot(512, 1, Number(256));
    Ok(())
}

// No segment is free: three are filled with two objects each.
fn check_no_room(mut store: Store<impl Abort, impl Format, 1024>) -> Result<(), Fail> {
    store.put_in_registers(&[
        (256, 128),
        (384, 128),
        (512, 128),
        (640, 128),
        (768, 128),
        (896, 128),
    ])?;
    for segment in 1..4 {
        store.give(segment, 0, 256);
    }
    store.check_collection(1, 6);
    store.check_registers(&[256, 384, 512, 640, 768, 896, 0]);
    for segment in 1..4 {
        store.check_row(segment, &[store.object(0, 127), store.object(0, 127)]);
    }
    Ok(())
}

// A segment is free: it takes two objects and, after one that is too long stays, a shorter one.
fn check_some_room(mut store: Store<impl Abort, impl Format, 1024>) -> Result<(), Fail> {
    store.put_in_registers(&[(256, 128), (384, 100), (512, 100), (612, 20)])?;
    store.give(1, 0, 228);
    store.give(2, 0, 120);
    store.check_collection(1, 3 * 65_536 + 1);
    store.check_registers(&[768, 896, 512, 996, 0]);
    store.check_free(1);
    store.check_row(2, &[store.object(0, 99), padding(156)]);
    store.check_row(
        3,
        &[
            store.object(0, 127),
            store.object(0, 99),
            store.object(0, 19),
            padding(8),
        ],
    );
    Ok(())
}

// Pool 0 is collected; the others refer to its object, the LO object to another one.
fn check_some_pools(mut store: Store<impl Abort, impl Format, 2048>) -> Result<(), Fail> {
    store.put(256, 3, &[])?;
    store.put(259, 3, &[])?;
    store.put(512, 3, &[256])?;
    store.put(768, 3, &[256, 512])?;
    store.put(1024, 2, &[259])?;
    store.give(1, 0, 6);
    store.give(2, 1, 3);
    store.give(3, 2, 3);
    store.give(4, 3, 2);
    store.check_collection(1, 65_536);
    store.check_free(1);
    store.check_row(2, &[store.object(1, 2), padding(253)]);
    store.check_row(3, &[store.object(2, 2), padding(253)]);
    store.check_row(4, &[store.object(1, 1), padding(254)]);
    store.check_row(5, &[store.object(0, 2), padding(253)]);
    store.check_owner(5, Some(0));
    store.check_owner(6, None);
    store.check_slot(512, 0, Reference(1280));
    store.check_slot(768, 0, Reference(1280));
    store.check_slot(768, 1, Reference(512));
    store.check_slot(1024, 0, Reference(259));
    store.check_slot(1280, 1, Number(256));
    Ok(())
}

// A condemned segment and one that is not have a buffer each, with half-built objects in them.
fn check_buffers(mut store: Store<impl Abort, impl Format, 2048>) -> Result<(), Fail> {
    store.build_one()?;
    store.put(259, 3, &[512])?;
    store.put(512, 3, &[256])?;
    store.put(515, 3, &[256, 600])?;
    store.put(600, 4, &[0])?;
    store.give(2, 2, 92);
    store.arena.buffers[0] = Buffer {
        init: 259,
        limit: 512,
    };
    store.arena.buffers[7] = Buffer {
        init: 515,
        limit: 600,
    };
    store.arena.ambiguous[0] = 260;
    store.check_collection(1, 65_536);
    store.check_registers(&[768]);
    store.check_free(1);
    store.check_row(
        2,
        &[
            store.object(1, 2),
            padding(85),
            store.object(1, 3),
            padding(164),
        ],
    );
    store.check_slot(512, 0, Reference(768));
    assert_eq!(store.rt; store.arena.buffers, [Buffer { init: 0, limit: 0 }; 8]);
    Ok(())
}

// An AMC and an AMS segment are condemned: what was entered in the first is stale.
fn check_history(mut store: Store<impl Abort, impl Format, 1024>) -> Result<(), Fail> {
    store.build_one()?;
    store.put(512, 3, &[])?;
    store.give(2, 2, 3);
    store.arena.registers[1] = 512;
    let mut moved = Dependency::reset(&store.arena.history);
    moved.enter(256);
    let mut kept = Dependency::reset(&store.arena.history);
    kept.enter(512);
    store.check_collection(5, 65_537);
    let history = &store.arena.history;
    assert!(store.rt; moved.stale(history));
    assert!(store.rt; !kept.stale(history));
    assert_eq!(store.rt; history.epoch(), 1);
    store.check_registers(&[768, 512]);
    Ok(())
}

#[test]
fn the_last_word_of_an_object_nails_it(rt: HostRuntime) -> Result<(), Fail> {
    in_each_format!(&rt, check_last_word_nails)
}

#[test]
fn the_word_after_it_does_not(rt: HostRuntime) -> Result<(), Fail> {
    in_each_format!(&rt, check_next_word_does_not)
}

#[test]
fn without_a_free_segment_all_are_marked(rt: HostRuntime) -> Result<(), Fail> {
    in_each_format!(&rt, check_no_room)
}

#[test]
fn with_one_free_segment_some_are_moved(rt: HostRuntime) -> Result<(), Fail> {
    in_each_format!(&rt, check_some_room)
}

#[test]
fn other_pools_stay_and_their_references_follow(rt: HostRuntime) -> Result<(), Fail> {
    in_each_format!(&rt, check_some_pools)
}

#[test]
fn buffers_are_closed_first(rt: HostRuntime) -> Result<(), Fail> {
    in_each_format!(&rt, check_buffers)
}

#[test]
fn only_what_may_move_is_stale(rt: HostRuntime) -> Result<(), Fail> {
    in_each_format!(&rt, check_history)
}
