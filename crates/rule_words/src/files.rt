//! The files of blocks, and names that are blank.
ghost use Rattle.std.specs.Prelude.{◌≡◌};
ghost use Rattle.unit_read.specs.Subjects.{unit_of, IsRead};
ghost use Rattle.unit_read.specs.Units.{is_blank};
ghost use Rattle.rule_words.specs.Files.{file_of};

use unit_read::Subject;

/// The file of a block.
pub fn file_of(u: &Subject, block: usize) -> u32
    requires { IsRead u.now }
    ensures { result ≡ file_of (unit_of u.now) block }
{
    match u.passage_at(block) {
        Some(passage) => passage.file,
        None => 0,
    }
}

/// A blank.
pub fn is_blank(name: &[u8]) -> bool
    ensures { result ≡ is_blank name.now }
{
    name == b"_".as_slice()
}
