// Boards: bit a is bit a % 32 of word a / 32, and no bit past the end is set.
use arena::{clear_all, clear_bit, count_ones, is_set, lowest_from, set_bit};
use std::process::Abort;

const FULL: u32 = 0xffff_ffff;

// Each row is a place, the board of three words on which its bit alone is set, and the one on
// which it alone is clear.
const ALONE: [(usize, [u32; 3], [u32; 3]); 7] = [
    (0, [1, 0, 0], [0xffff_fffe, FULL, FULL]),
    (31, [0x8000_0000, 0, 0], [0x7fff_ffff, FULL, FULL]),
    (32, [0, 1, 0], [FULL, 0xffff_fffe, FULL]),
    (69, [0, 0, 0x20], [FULL, FULL, 0xffff_ffdf]),
    (95, [0, 0, 0x8000_0000], [FULL, FULL, 0x7fff_ffff]),
    // past the end there is none
    (96, [0, 0, 0], [FULL, FULL, FULL]),
    (usize::MAX, [0, 0, 0], [FULL, FULL, FULL]),
];

#[test]
fn single_bits(rt: HostRuntime) {
    for (a, set, clear) in ALONE {
        let mut board = [0; 3];
        set_bit(&mut board, a);
        assert_eq!(rt; board, set, "bit {a} set");
        set_bit(&mut board, a);
        assert_eq!(rt; board, set, "bit {a} set again");
        let mut board = [FULL; 3];
        clear_bit(&mut board, a);
        assert_eq!(rt; board, clear, "bit {a} cleared");
        clear_bit(&mut board, a);
        assert_eq!(rt; board, clear, "bit {a} cleared again");
        for k in 0..96 {
            assert_eq!(rt; is_set(&set, k), k == a, "bit {k}, {a} set");
            assert_eq!(rt; is_set(&clear, k), k != a, "bit {k}, {a} clear");
        }
        assert!(rt; !is_set(&clear, 96));
        assert!(rt; !is_set(&clear, usize::MAX));
    }
}

// Each row is where to look from, and the lowest set bit from there on.
fn check_lowest(rt: &impl Abort, board: &[u32], rows: &[(usize, Option<usize>)]) {
    for &(from, lowest) in rows {
        assert_eq!(rt; lowest_from(board, from), lowest, "from {from}");
    }
}

#[test]
fn lowest_bits(rt: HostRuntime) {
    check_lowest(&rt, &[], &[(0, None), (1, None)]);
    check_lowest(&rt, &[0, 0, 0], &[(0, None), (95, None), (96, None)]);
    // bits 0 and 95
    check_lowest(
        &rt,
        &[1, 0, 0x8000_0000],
        &[
            (0, Some(0)),
            (1, Some(95)),
            (32, Some(95)),
            (64, Some(95)),
            (94, Some(95)),
            (95, Some(95)),
            (96, None),
            (usize::MAX, None),
        ],
    );
    // bits 5, 31, 32 and 70
    check_lowest(
        &rt,
        &[0x8000_0020, 1, 0x40],
        &[
            (0, Some(5)),
            (5, Some(5)),
            (6, Some(31)),
            (31, Some(31)),
            (32, Some(32)),
            (33, Some(70)),
            (63, Some(70)),
            (64, Some(70)),
            (70, Some(70)),
            (71, None),
            (95, None),
        ],
    );
}

#[test]
fn counting_and_clearing(rt: HostRuntime) {
    assert_eq!(rt; count_ones(&[]), 0);
    assert_eq!(rt; count_ones(&[0; 3]), 0);
    assert_eq!(rt; count_ones(&[FULL; 3]), 96);
    assert_eq!(rt; count_ones(&[0x8000_0020, 1, 0x40]), 4);
    for a in 0..96 {
        let mut board = [0; 3];
        set_bit(&mut board, a);
        assert_eq!(rt; count_ones(&board), 1, "bit {a}");
    }
    let mut board = [FULL; 3];
    clear_all(&mut board[1..3]);
    assert_eq!(rt; board, [FULL, 0, 0]);
    clear_all(&mut board);
    assert_eq!(rt; board, [0, 0, 0]);
}

// A board has at most 2,048 words: what lies past them is neither found nor counted.
#[test]
fn longest_board(rt: HostRuntime) {
    let mut board = [0; 2049];
    board[2048] = FULL;
    check_lowest(&rt, &board, &[(0, None), (65_535, None), (65_536, None)]);
    assert_eq!(rt; count_ones(&board), 0);
    set_bit(&mut board, 65_535);
    check_lowest(
        &rt,
        &board,
        &[(0, Some(65_535)), (65_535, Some(65_535)), (65_536, None)],
    );
    assert_eq!(rt; count_ones(&board), 1);
    board.fill(FULL);
    assert_eq!(rt; count_ones(&board), 65_536);
}
