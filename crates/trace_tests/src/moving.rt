// What moves: chains, cycles and shared objects, and where each object lands.
use crate::building::{Store, in_each_format, padding};
use format::Format;
use format::Slot::{Number, Reference};
use std::process::Abort;
use std::test::Fail;

// Two AMC objects refer to each other, one to an AMS object that refers back, and both to an LO
// object. Each segment has an object to which nothing refers.
fn check_graph(mut store: Store<impl Abort, impl Format, 2048>) -> Result<(), Fail> {
    store.put(256, 3, &[512, 259])?;
    store.put(259, 3, &[256, 768])?;
    store.put(262, 3, &[256])?;
    store.put(512, 3, &[259, 768])?;
    store.put(515, 3, &[512])?;
    store.put(768, 4, &[])?;
    store.put(772, 4, &[])?;
    store.give(1, 0, 9);
    store.give(2, 2, 6);
    store.give(3, 3, 8);
    store.arena.registers[0] = 256;
    store.check_collection(13, 2 * 65_536 + 2);
    store.check_registers(&[1024]);
    store.check_free(1);
    store.check_row(2, &[store.object(2, 2), padding(253)]);
    store.check_row(3, &[store.object(0, 3), padding(252)]);
    store.check_row(4, &[store.object(2, 2), store.object(2, 2), padding(250)]);
    store.check_slot(1024, 0, Reference(512));
    store.check_slot(1024, 1, Reference(1027));
    store.check_slot(1027, 0, Reference(1024));
    store.check_slot(1027, 1, Reference(768));
    store.check_slot(512, 0, Reference(1027));
    store.check_slot(512, 1, Reference(768));
    store.check_slot(768, 2, Number(768));
    Ok(())
}

// A chain goes from pool 0 to pool 1 and back.
fn check_two_pools(mut store: Store<impl Abort, impl Format, 2048>) -> Result<(), Fail> {
    store.put(256, 3, &[512])?;
    store.put(259, 3, &[0])?;
    store.put(512, 3, &[259])?;
    store.give(1, 0, 6);
    store.give(2, 1, 3);
    store.arena.registers[15] = 256;
    store.check_collection(3, 3 * 65_536);
    let last = store.arena.registers[15];
    assert_eq!(store.rt; last, 768);
    store.check_free(1);
    store.check_free(2);
    store.check_owner(3, Some(0));
    store.check_owner(4, Some(1));
    store.check_row(3, &[store.object(1, 2), store.object(1, 2), padding(250)]);
    store.check_row(4, &[store.object(1, 2), padding(253)]);
    store.check_slot(768, 0, Reference(1024));
    store.check_slot(768, 1, Number(256));
    store.check_slot(1024, 0, Reference(771));
    store.check_slot(1024, 1, Number(512));
    store.check_slot(771, 0, Reference(0));
    store.check_slot(771, 1, Number(259));
    Ok(())
}

// The first two objects leave 28 words of the target.
fn check_exact(mut store: Store<impl Abort, impl Format, 2048>) -> Result<(), Fail> {
    store.put_in_registers(&[(256, 128), (384, 100), (512, 28), (540, 1)])?;
    store.give(1, 0, 228);
    store.give(2, 0, 29);
    store.check_collection(1, 4 * 65_536);
    store.check_registers(&[768, 896, 996, 1024]);
    store.check_row(
        3,
        &[
            store.object(0, 127),
            store.object(0, 99),
            store.object(0, 27),
        ],
    );
    store.check_row(4, &[store.object(0, 0), padding(255)]);
    store.check_slot(996, 26, Number(512));
    Ok(())
}

fn check_word_too_long(mut store: Store<impl Abort, impl Format, 2048>) -> Result<(), Fail> {
    store.put_in_registers(&[(256, 128), (384, 100), (512, 29)])?;
    store.give(1, 0, 228);
    store.give(2, 0, 29);
    store.check_collection(1, 3 * 65_536);
    store.check_registers(&[768, 896, 1024]);
    store.check_row(3, &[store.object(0, 127), store.object(0, 99), padding(28)]);
    store.check_row(4, &[store.object(0, 28), padding(227)]);
    store.check_owner(5, None);
    store.check_slot(1024, 27, Number(512));
    Ok(())
}

#[test]
fn references_follow_through_every_class(rt: HostRuntime) -> Result<(), Fail> {
    in_each_format!(&rt, check_graph)
}

#[test]
fn each_pool_has_a_target_of_its_own(rt: HostRuntime) -> Result<(), Fail> {
    in_each_format!(&rt, check_two_pools)
}

#[test]
fn an_object_fits_a_target_exactly(rt: HostRuntime) -> Result<(), Fail> {
    in_each_format!(&rt, check_exact)
}

#[test]
fn a_word_too_long_takes_the_next_segment(rt: HostRuntime) -> Result<(), Fail> {
    in_each_format!(&rt, check_word_too_long)
}
