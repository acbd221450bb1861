//! Whether the same handles are open.
ghost use Rattle.std.specs.Prelude.{◌↔◌, IsTrue};
ghost use Rattle.std.specs.List.{AllByRecursion};
ghost use Rattle.open_handles.specs.Whole.{HasSame, HasSameHandles};

use crate::handles::Handles;
use crate::places::Places;
use number_table::Iter;
use topics::Topic;

impl Places {
    // Whether the same handles are on what these are on.
    fn has_same(&self, topic: &Topic) -> bool
        ensures { IsTrue result ↔ HasSame self.now topic.now }
    {
        match self.get(topic.target()) {
            None => topic.is_empty(),
            Some(other) => other.same_handles(topic),
        }
    }

    // Whether the same handles are on what each of these are on.
    fn has_all(&self, topic: Iter<'_, Topic>) -> bool
        ensures { IsTrue result ↔ AllByRecursion (HasSame self.now) topic.entry }
    {
        let mut rest = topic;
        while let Some(each) = rest.next() {
            if !self.has_same(each) {
                return false;
            }
        }
        true
    }
}

impl Handles {
    /// Whether the same handles are open in both, which have seen the same, and the same number is next. It takes no memory.
    pub fn same(&self, other: &Handles) -> bool
        ensures { IsTrue result ↔ HasSameHandles self.now other.now }
    {
        if !self.rows.same(&other.rows) {
            return false;
        }
        if !other.places.has_all(self.places.objects.iter()) {
            return false;
        }
        other.places.has_all(self.places.directories.iter())
    }
}
