// Putting a library back: what an extension added goes away again, unless it is accepted.
ghost use Rattle.std.specs.Prelude.{◌≡◌};
ghost use Rattle.library.specs.Contents.{contents};
ghost use Rattle.library.specs.Counting.{counts_of, cut_to, Continues};

use super::counts::Counts;
use super::held::Library;

impl Library {
    pub fn counts(&self) -> Counts
        ensures { result ≡ counts_of (contents self.now) }
    {
        Counts {
            classes: self.classes.len(),
            members: self.members.len(),
            nodes: self.nodes.len(),
        }
    }

    // Drops whatever stands behind the first so many classes, members and nodes.
    fn cut(&mut self, saved: Counts)
        requires { Continues saved self.old }
        ensures { contents self.new ≡ cut_to saved (contents self.old) }
    {
        self.classes.truncate(saved.classes);
        self.layouts.truncate(saved.classes);
        self.members.truncate(saved.members);
        self.nodes.truncate(saved.nodes);
        self.attributes.truncate(saved.nodes);
    }
}

// A library that is being extended, with its counts as they were before. Where it goes out of scope and was not accepted,
// the counts are put back.
pub struct Extension<'a> {
    pub library: &'a mut Library,
    pub saved: Counts,
}

impl Extension<'_> {
    // Keeps what was added.
    pub fn accept(self)
        ensures { self.exit.0.now ≡ self.entry.library.now }
    {
        let Extension {
            library: _,
            saved: _,
        } = self;
    }
}

impl Drop for Extension<'_> {
    fn drop(self)
        requires { Continues self.saved self.library.now }
        ensures { contents self.exit.0.now ≡ cut_to self.entry.saved (contents self.entry.library.now) }
    {
        let saved = self.saved;
        self.library.cut(saved);
        let Extension {
            library: _,
            saved: _,
        } = self;
    }
}
