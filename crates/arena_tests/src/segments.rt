// Segments of 256 words, numbered from 0, of which segment 0 is never used.
use crate::things::OLD;
use arena::Segments;
use std::process::Abort;

#[test]
fn owners(rt: HostRuntime) {
    let mut segments = Segments::new();
    for segment in 0..=255 {
        assert_eq!(rt; segments.owner(segment), None);
    }
    segments.give(3, 7);
    segments.give(4, 0);
    segments.give(255, 255);
    // from one pool to another
    segments.give(5, 7);
    segments.give(5, 8);
    let rows = [
        (0, None),
        (2, None),
        (3, Some(7)),
        (4, Some(0)),
        (5, Some(8)),
        (6, None),
        (254, None),
        (255, Some(255)),
    ];
    for (segment, pool) in rows {
        assert_eq!(rt; segments.owner(segment), pool, "segment {segment}");
    }
}

// Each row is how many words the arena has, and its lowest free segment.
fn check_lowest(rt: &impl Abort, segments: &Segments, rows: &[(usize, Option<u8>)]) {
    for &(words, lowest) in rows {
        assert_eq!(rt; segments.lowest_free(words), lowest, "{words} words");
    }
}

#[test]
fn lowest_free_segments(rt: HostRuntime) {
    let mut segments = Segments::new();
    check_lowest(
        &rt,
        &segments,
        &[
            (0, None),
            (256, None),
            (511, None),
            (512, Some(1)),
            (1_024, Some(1)),
            (2_048, Some(1)),
            (65_536, Some(1)),
            (usize::MAX, Some(1)),
        ],
    );
    segments.give(1, 0);
    segments.give(2, 5);
    segments.give(4, 5);
    // segments 1, 2 and 4 given: segment 3 needs 1,024 words, and segment 5 comes after it
    check_lowest(
        &rt,
        &segments,
        &[
            (512, None),
            (1_023, None),
            (1_024, Some(3)),
            (65_536, Some(3)),
        ],
    );
    segments.give(3, 0);
    check_lowest(
        &rt,
        &segments,
        &[
            (1_024, None),
            (1_280, None),
            (1_535, None),
            (1_536, Some(5)),
            (2_048, Some(5)),
        ],
    );
    for segment in 5..255 {
        segments.give(segment, segment);
    }
    // all but the last
    check_lowest(
        &rt,
        &segments,
        &[(2_048, None), (65_535, None), (65_536, Some(255))],
    );
    segments.give(255, 1);
    check_lowest(
        &rt,
        &segments,
        &[(2_048, None), (65_536, None), (usize::MAX, None)],
    );
}

// Each row is where the search begins, how many words the arena has, and the segment that is found.
#[test]
fn lowest_free_segments_from_a_place_on(rt: HostRuntime) {
    let mut segments = Segments::new();
    segments.give(1, 0);
    segments.give(3, 7);
    let rows = [
        (0, 256, Some(0)),
        (0, 255, None),
        (1, 768, Some(2)),
        (2, 768, Some(2)),
        (3, 1_024, None),
        (3, 1_280, Some(4)),
        (255, 65_536, Some(255)),
        (255, 65_535, None),
        (256, 65_536, None),
        (256, usize::MAX, None),
        (usize::MAX, usize::MAX, None),
    ];
    for (from, words, lowest) in rows {
        assert_eq!(rt;
            segments.lowest_free_from(from, words),
            lowest,
            "from {from} of {words} words"
        );
    }
}

// Each row is how many words the arena has, the segment that is freed, and the words that are then 0,
// if the segment lies in the arena: otherwise nothing changes.
#[test]
fn freeing(rt: HostRuntime) {
    let rows: [(usize, u8, Option<(usize, usize)>); 9] = [
        (1_024, 1, Some((256, 512))),
        (1_024, 2, Some((512, 768))),
        (1_024, 3, Some((768, 1_024))),
        (1_023, 3, None),
        (1_023, 2, Some((512, 768))),
        (768, 2, Some((512, 768))),
        (767, 2, None),
        (512, 3, None),
        (0, 1, None),
    ];
    for (k, (len, freed, cleared)) in rows.into_iter().enumerate() {
        assert!(rt; len <= 1_024);
        let mut segments = Segments::new();
        for segment in 1..4 {
            segments.give(segment, 9);
        }
        let mut words = [OLD; 1024];
        let own = &mut words[..len];
        segments.free(own, freed);
        let mut expected = [OLD; 1024];
        let after = &mut expected[..len];
        if let Some((from, end)) = cleared {
            assert!(rt; from <= end && end <= len);
            after[from..end].fill(0);
        }
        assert_eq!(rt; &*own, &*after, "row {k}");
        for segment in 1..4 {
            let pool = if segment == freed && cleared.is_some() {
                None
            } else {
                Some(9)
            };
            assert_eq!(rt; segments.owner(segment), pool, "row {k}, segment {segment}");
        }
    }
}
