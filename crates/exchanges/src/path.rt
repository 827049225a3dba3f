// Paths of boards, and where they stand in a tree.
ghost use Rattle.std.specs.Prelude.{◌≡◌, ◌+◌, ◌-◌, ◌*◌, ◌<◌, ◌≤◌, false, ◌∷◌};
ghost use Rattle.exchanges.specs.Boards.{most_boards};
ghost use Rattle.exchanges.specs.Trees.{on, lower, rank, paths_of, start, place, tree_size, IsPath};
ghost use Rattle.exchanges.specs.Slots.{trail, path_prop};

use crate::fitting::Size;

// Where the levels of paths of one, two, three and four boards begin, for one to seven boards.
const LEVELS: [[usize; 4]; 7] = [
    [0, 1, 1, 1],
    [0, 2, 4, 4],
    [0, 3, 9, 15],
    [0, 4, 16, 40],
    [0, 5, 25, 85],
    [0, 6, 36, 156],
    [0, 7, 49, 259],
];

// How many boards there are, how many of them may be bad, and how many slots one board's tree has.
#[derive(Clone, Copy)]
pub(crate) struct Shape {
    pub(crate) n: usize,
    pub(crate) t: usize,
    pub(crate) size: usize,
    ghost few: { n ≤ most_boards },
    ghost fewer: { 3 * t < n },
    ghost sized: { size ≡ tree_size n t },
}

impl Shape {
    // A tree ends where the level of paths of t + 2 boards would begin.
    pub(crate) fn new(counts: Size) -> Shape
        ensures { (result.n ≡ counts.boards) × (result.t ≡ counts.faults) }
    {
        let (n, t) = (counts.n(), counts.t());
        Shape {
            n,
            t,
            size: LEVELS[n - 1][t + 1],
        }
    }

    // The slots of the trees of all boards.
    pub(crate) fn slots(self) -> usize
        ensures { result ≡ self.n * self.size }
    {
        self.n * self.size
    }

    // How many paths have k boards.
    pub(crate) fn paths(self, k: usize) -> usize
        requires { (1 ≤ k) × (k ≤ 3) }
        ensures { result ≡ paths_of self.n k }
    {
        self.level_start(k + 1) - self.level_start(k)
    }

    // Where the level of paths of k boards begins.
    fn level_start(self, k: usize) -> usize
        requires { (1 ≤ k) × (k ≤ 4) }
        ensures value { result ≡ start self.n k }
        ensures small { result < 260 }
    {
        LEVELS[self.n - 1][k - 1]
    }
}

// Different boards, the first one first, with the place of the path among those of its length, in
// rising order. A tree has a slot for each path of one board or more; the empty path stands for what
// a board itself sends.
// Kept an array with a length: memory of the boards is lent, and a path has no lender.
#[derive(Clone, Copy)]
pub(crate) struct Path {
    pub(crate) shape: Shape,
    boards: [u8; 3],
    len: usize,
    index: usize,
    ghost short: { len ≤ shape.t + 1 },
    ghost differ: { IsPath shape.n (trail boards len) } by { path_prop shape.n (trail boards len) },
    ghost placed: { index ≡ rank shape.n (trail boards len) },
}

impl Path {
    // The path of so many boards at a place among them.
    pub(crate) fn at(shape: Shape, len: usize, index: usize) -> Path
        requires short { len ≤ shape.t + 1 }
        requires within { index < paths_of shape.n len }
        ensures shape { result.shape ≡ shape }
        ensures long { result.len ≡ len }
        ensures placed { result.index ≡ index }
    {
        if len == 0 {
            return Path {
                shape,
                boards: [0; 3],
                len,
                index,
            };
        }
        let off = shape.n - (len - 1);
        Path::at(shape, len - 1, index / off).add(index % off)
    }

    pub(crate) fn len(self) -> usize
        ensures { result ≡ self.len }
    {
        self.len
    }

    // Whether a board stands on the path.
    fn has(self, q: usize) -> bool
        ensures { result ≡ on q (trail self.boards self.len) }
    {
        self.boards[..self.len].iter().any(|a| q == usize::from(*a))
    }

    // The i-th of the boards off the path.
    fn other(self, i: usize) -> usize
        requires { i < self.shape.n - self.len }
        ensures board { result < self.shape.n }
        ensures off { on result (trail self.boards self.len) ≡ false }
        ensures next { result - lower result (trail self.boards self.len) ≡ i }
    {
        if self.len == 0 {
            return i;
        }
        (0..self.shape.n).filter(|q| !self.has(*q)).nth(i).unwrap()
    }

    // The path with the i-th of the boards off it added.
    fn add(self, i: usize) -> Path
        requires short { self.len ≤ self.shape.t }
        requires off { i < self.shape.n - self.len }
        ensures shape { result.shape ≡ self.shape }
        ensures longer { result.len ≡ self.len + 1 }
        ensures next { result.index ≡ self.index * (self.shape.n - self.len) + i }
    {
        let mut boards = self.boards;
        // Kept a cast: it loses nothing, and `try_from` would want an answer for an error that cannot arise.
        boards[self.len] = self.other(i) as u8;
        Path {
            shape: self.shape,
            boards,
            len: self.len + 1,
            index: self.index * (self.shape.n - self.len) + i,
        }
    }

    // The path but for its last board, and that board.
    pub(crate) fn split(self) -> (Path, usize)
        requires { 1 ≤ self.len }
        ensures shape { result.0.shape ≡ self.shape }
        ensures board { result.1 < self.shape.n }
        ensures parts { trail self.boards self.len ≡ result.1 ∷ trail result.0.boards result.0.len }
    {
        let len = self.len - 1;
        let rest = Path {
            shape: self.shape,
            boards: self.boards,
            len,
            // the empty path is the first of its length, so no division is due
            index: if len == 0 {
                0
            } else {
                self.index / (self.shape.n - len)
            },
        };
        (rest, usize::from(self.boards[len]))
    }

    // The place of the path in a board's tree.
    pub(crate) fn place(self) -> usize
        requires { 1 ≤ self.len }
        ensures { result ≡ place self.shape.n (trail self.boards self.len) }
    {
        self.shape.level_start(self.len) + self.index
    }

    // Where the places of the path's children begin.
    pub(crate) fn children(self) -> usize
        requires { (1 ≤ self.len) × (self.len ≤ self.shape.t) }
        ensures { result ≡ start self.shape.n (self.len + 1) + rank self.shape.n (trail self.boards self.len) * (self.shape.n - self.len) }
    {
        self.shape.level_start(self.len + 1) + self.index * (self.shape.n - self.len)
    }
}
