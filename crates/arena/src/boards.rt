// A board has a bit for each word of the arena, 32 to a word. It is lent words, and these are functions: a
// type around one lent slice would need a clause more in each contract.
ghost use Rattle.std.specs.Prelude.{◌≡◌, length, replicate};
ghost use Rattle.arena.specs.Boards.{bit, with_bit, without_bit, lowest_bit, FirstWord, ones_of, BoardLaws};

// The words of the longest board: 65,536 bits.
const LONGEST: usize = 2048;

// Whether the bit at a is set; past the end none is.
pub fn is_set(board: &[u32], a: usize) -> bool
    ensures { result ≡ bit board.now a }
{
    board
        .get(a / 32)
        .is_some_and(|word| (*word >> (a % 32) as u32) & 1 == 1)
}

// Sets the bit at a.
pub fn set_bit(board: &mut [u32], a: usize)
    ensures { board.new ≡ with_bit board.old a }
{
    // Not by `get_mut`: a proof does not know the board once that borrow is over.
    if a / 32 < board.len() {
        board[a / 32] |= 1 << (a % 32) as u32;
    }
}

// Clears the bit at a.
pub fn clear_bit(board: &mut [u32], a: usize)
    ensures { board.new ≡ without_bit board.old a }
{
    // As in `set_bit`.
    if a / 32 < board.len() {
        board[a / 32] &= !(1 << (a % 32) as u32);
    }
}

// Clears every bit.
pub fn clear_all(board: &mut [u32])
    ensures { board.new ≡ replicate (length board.old) 0 }
{
    board.fill(0);
}

// The first of the words that is not 0.
fn first_word(words: &[u32]) -> Option<usize>
    ensures { FirstWord words.now 0 (length words.now) result }
{
    words.iter().position(|word| *word != 0)
}

// The lowest bit that is set, of those from a place on.
#[tactic(auto, using(crate::proofs::Lowest::at_first_word))]
pub fn lowest_from(board: &[u32], from: usize) -> Option<usize>
    ensures { result ≡ lowest_bit board.now from }
{
    let end = board.len().min(LONGEST);
    if from / 32 >= end {
        return None;
    }
    let rest = board[from / 32] >> (from % 32) as u32;
    if rest != 0 {
        return Some(from + rest.trailing_zeros() as usize);
    }
    let next = from / 32 + 1;
    first_word(&board[next..end]).map(|i| {
        let word = next + i;
        word * 32 + board[word].trailing_zeros() as usize
    })
}

// How many bits are set. It stands apart from `count_ones`, so that an edit of the code is refused at the code.
fn ones(board: &[u32]) -> u32
    ensures { result ≡ ones_of board.now }
{
    board
        .iter()
        .take(LONGEST)
        .map(|word| word.count_ones())
        .sum()
}

// How many bits are set.
#[tactic(auto, using(crate::proofs::BoardLaws::board_laws))]
pub fn count_ones(board: &[u32]) -> u32
    ensures value { result ≡ ones_of board.now }
    ensures laws { BoardLaws }
{
    ones(board)
}
