//! What the collector announces in its cycles, and what it has drawn for the marks.

ghost use Rattle.std.specs.Prelude.{◌≡◌, ◌≢◌, ◌<◌, ◌^◌};
ghost use Rattle.handshakes.specs.PhaseWords.{retired_word, word_of_phase};
ghost use Rattle.object_headers.specs.Changes.{is_clover};
ghost use Rattle.lawful_records.specs.Collectors.{word_of, said_in, phase_of as phase_in, round_of, mark_word, searched};

use handshakes::{Phase, PhaseWord};
use heap_words::Layout;
use mark_search::Candidates;
use object_headers::Kind;

/// What the collector announces in a cycle, in this order. Search is said only where a mark is sought: once for each
/// candidate.
#[derive(Clone, Copy, Debug, PartialEq, Eq)]
pub enum Announcement {
    Mark,
    Confirm,
    /// The Copy word of a candidate, whose round is the candidate's number in the cycle.
    Search,
    /// The last Copy word of the cycle.
    Copy,
    Fix,
    Free,
}

/// How many candidates are drawn in a cycle at most.
pub const SEARCHES: u8 = 8;

/// The round of a cycle's last Copy word, where a mark was sought.
pub const LAST_ROUND: u32 = 9;

/// What has been drawn for the marks.
#[derive(Clone, Copy, Debug, PartialEq, Eq)]
pub struct Marks {
    /// The mark word has the one drawn last.
    pub candidates: Candidates,
    /// How many the cycle has drawn, once it has drawn one.
    pub round: u8,
    /// Whether the search for the last one has ended clear.
    pub clear: bool,
}

/// An announcement of a cycle, where the cycles 1 to `cycles` are played with a copier of this kind.
#[derive(Clone, Copy, Debug, PartialEq, Eq)]
pub struct Stage {
    pub layout: Layout,
    pub kind: Kind,
    pub cycles: u32,
    /// The number of the cycle; 0 before the first one.
    pub cycle: u32,
    pub announcement: Announcement,
    pub marks: Marks,
}

impl Announcement {
    fn phase(self) -> Phase
        ensures { result ≡ phase_in self }
    {
        match self {
            Announcement::Mark => Phase::Mark,
            Announcement::Confirm => Phase::Confirm,
            Announcement::Search | Announcement::Copy => Phase::Copy,
            Announcement::Fix => Phase::Fix,
            Announcement::Free => Phase::Free,
        }
    }

    /// Its phase word in a cycle, with this round.
    #[tactic(auto, using(crate::proofs::CollectorLaws::fits, crate::proofs::CollectorLaws::runs))]
    fn word(self, cycle: u32, round: u32) -> u64
        requires small { round < 2 ^ 24 }
        ensures word { result ≡ word_of_phase (said_in self cycle round) }
        ensures runs { result ≢ retired_word }
    {
        let said = PhaseWord {
            phase: self.phase(),
            cycle,
            round,
        };
        said.pack()
    }
}

/// Whether a mark is sought in the cycles of a copier of this kind.
pub(crate) fn seeks_mark(kind: Kind) -> bool
    ensures { result ≡ is_clover kind }
{
    kind == Kind::Clover
}

impl Stage {
    /// The round of its phase word.
    fn round(&self) -> u32
        ensures value { result ≡ round_of self.now }
        ensures small { result < 2 ^ 24 }
    {
        match self.announcement {
            Announcement::Confirm => 1,
            Announcement::Search => u32::from(self.marks.round),
            Announcement::Copy if seeks_mark(self.kind) => LAST_ROUND,
            Announcement::Mark | Announcement::Copy | Announcement::Fix | Announcement::Free => 0,
        }
    }

    /// The phase word that is announced.
    pub(crate) fn word(&self) -> u64
        ensures word { result ≡ word_of self.now }
        ensures runs { result ≢ retired_word }
    {
        self.announcement.word(self.cycle, self.round())
    }

    /// The number that the mark word holds while it is announced.
    pub(crate) fn mark(&self) -> u64
        ensures { result ≡ mark_word self.now }
    {
        self.marks.candidates.last()
    }

    /// Another announcement of this cycle.
    pub(crate) fn at(&self, announcement: Announcement) -> Stage
        ensures { result ≡ record self.now { announcement = announcement } }
    {
        Stage {
            announcement,
            ..*self
        }
    }

    /// The search for the next candidate, which is drawn, and of which this is the number in its cycle.
    pub(crate) fn search(&self, round: u8) -> Stage
        ensures { result ≡ searched self.now round }
    {
        let mut candidates = self.marks.candidates;
        candidates.draw();
        Stage {
            announcement: Announcement::Search,
            marks: Marks {
                candidates,
                round,
                clear: false,
            },
            ..*self
        }
    }
}
