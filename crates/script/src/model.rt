// A script as it lies in memory: a header, and entries of three lists.
ghost use Rattle.std.specs.Prelude.{◌≡◌};
ghost use Rattle.script.specs.Header.{bad_map, faults_default};
ghost use Rattle.script.specs.Runs.{borne, phases_due};

use labels::slip::Slip;

// A script has at most so many bytes.
pub const MOST_BYTES: usize = 60_000;

// What stands before the proposals; a field that is absent has its default.
#[derive(Clone, Copy, PartialEq, Eq, Debug)]
pub struct Header {
    // how many boards there are
    pub boards: u8,
    // how many of them may be bad
    pub faults: Option<u8>,
    // the map of those that are
    pub bad: Option<u8>,
    // how many phases are run
    pub phases: Option<u8>,
}

// How many of so many boards may be bad, where the header does not say it.
pub(crate) fn faults_default(boards: u8) -> u8
    ensures { result ≡ faults_default boards }
{
    boards.saturating_sub(1) / 3
}

// How many phases are run, where the header does not say it.
pub(crate) const PHASES_DEFAULT: u8 = 8;

impl Header {
    // How many boards may be bad.
    pub(crate) fn faults_borne(self) -> u8
        ensures { result ≡ borne self }
    {
        self.faults.unwrap_or(faults_default(self.boards))
    }

    // The map of bad boards.
    pub fn bad_boards(self) -> u8
        ensures { result ≡ bad_map self }
    {
        self.bad.unwrap_or(0)
    }

    // How many phases are run.
    pub(crate) fn phases_due(self) -> u8
        ensures { result ≡ phases_due self }
    {
        self.phases.unwrap_or(PHASES_DEFAULT)
    }
}

// What happens to the slips of one sender in one round: bit q of a map means board q.
#[derive(Clone, Copy, PartialEq, Eq, Default, Debug)]
pub struct Record {
    pub round: u16,
    pub sender: u8,
    // the boards for which a slip is lost
    pub lost: u8,
    // the boards for which a slip is forged
    pub forged: u8,
}

// A script that lies in memory. Of the records the first `count` are its own; where fewer lie
// there, it is not whole.
#[derive(Clone, Copy)]
pub struct Script<'a, L> {
    pub head: Header,
    // the first is board 0's; what lies past the boards is not of the script
    pub proposals: &'a [L],
    pub records: &'a [Record],
    // Kept beside its list: a count past the list is refused, and not cut.
    pub count: usize,
    // a slip for each bit of the forged maps, in order
    pub slips: &'a [Slip<L>],
}
