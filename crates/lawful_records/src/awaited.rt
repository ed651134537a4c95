//! When the awaits of a cycle have ended.

ghost use Rattle.std.specs.Prelude.{◌≡◌};
ghost use Rattle.lawful_records.specs.Collectors.{with_await as with_await_of, awaits_behind};

use crate::collector::CollectorMachine;
use crate::stage::Announcement;

/// How many changes of the history there were when the await of each announcement of the running cycle ended; 0
/// before it has.
#[derive(Clone, Copy, Debug, PartialEq, Eq)]
pub struct Awaited {
    pub mark: u32,
    pub confirm: u32,
    pub copy: u32,
    pub fix: u32,
    pub free: u32,
}

impl Awaited {
    /// No await has ended.
    pub const NONE: Awaited = Awaited {
        mark: 0,
        confirm: 0,
        copy: 0,
        fix: 0,
        free: 0,
    };

    /// The await of this announcement has ended where there were so many changes.
    fn with_await(self, announcement: Announcement, changes: u32) -> Awaited
        ensures { result ≡ with_await_of announcement changes self }
    {
        match announcement {
            Announcement::Mark => Awaited {
                mark: changes,
                ..self
            },
            Announcement::Confirm => Awaited {
                confirm: changes,
                ..self
            },
            Announcement::Search => self,
            Announcement::Copy => Awaited {
                copy: changes,
                ..self
            },
            Announcement::Fix => Awaited {
                fix: changes,
                ..self
            },
            Announcement::Free => Awaited {
                free: changes,
                ..self
            },
        }
    }

    /// After a step of the collector from one machine to another, where there were so many changes: an announcement
    /// of Mark begins a cycle, and an await may have ended. The await of Fix goes on while root words are fixed.
    pub fn behind<M>(
        self,
        before: &CollectorMachine<M>,
        after: &CollectorMachine<M>,
        changes: u32,
    ) -> Awaited
        ensures { result ≡ awaits_behind before.now after.now changes self }
    {
        match (before, after) {
            (CollectorMachine::Announce(stage), _) => match stage.announcement {
                Announcement::Mark => Awaited::NONE,
                _ => self,
            },
            (
                CollectorMachine::Await { .. } | CollectorMachine::Roots { .. },
                CollectorMachine::Await { .. } | CollectorMachine::Roots { .. },
            ) => self,
            (CollectorMachine::Await { stage, .. } | CollectorMachine::Roots { stage, .. }, _) => {
                self.with_await(stage.announcement, changes)
            }
            _ => self,
        }
    }
}
