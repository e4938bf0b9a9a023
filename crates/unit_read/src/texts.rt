//! Names as texts.
ghost use Rattle.std.specs.Prelude.{◌≡◌};
ghost use Rattle.unit_read.specs.Subjects.{unit_of, IsRead};
ghost use Rattle.unit_read.specs.Units.{spelled, name_at};

use crate::subject::Subject;
use go_tree::NodeRef;

impl<'a> Subject<'a> {
    /// The package's path as a text.
    pub fn path_text(&self) -> &'a str
        requires { IsRead self.now }
        ensures { result.now ≡ (unit_of self.now).path }
    {
        unsafe { str::from_utf8_unchecked(self.path) }
    }

    /// The bytes of a token as a text.
    pub fn spelled_text(&self, file: u32, token: u32) -> &'a str
        requires { IsRead self.now }
        ensures { result.now ≡ spelled (unit_of self.now) file token }
    {
        unsafe { str::from_utf8_unchecked(self.spelled(file, token)) }
    }

    /// The name that is written at a node as a text.
    pub fn name_text(&self, at: NodeRef) -> &'a str
        requires { IsRead self.now }
        ensures { result.now ≡ name_at (unit_of self.now) at }
    {
        match self.node_at(at) {
            Some(node) => self.spelled_text(at.file, node.first),
            None => "",
        }
    }
}
