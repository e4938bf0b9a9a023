//! Writing the text of a table.
ghost use Rattle.std.specs.Prelude.{◌≡◌, ◌<◌, ◌^◌, ◌++◌, length, OnOk, IfOk};
ghost use Rattle.gv_bytes.specs.Spelling.{items, AreItems};
ghost use Rattle.fact_codec.specs.Tables.{AreInOrder};
ghost use Rattle.fact_codec.specs.Texts.{entry, IsEntry, AreFacts};

use crate::kind::FactKind;
use crate::table::FactTable;
use gv_base::{NoMemory, Text};
use gv_bytes::{put_num, put_text};
use std::alloc::Global;

fn put_entry<F: FactKind>(out: &mut Vec<u8>, e: &(Text, F)) -> Result<(), NoMemory>
    ensures written { OnOk result (out.new.items ≡ out.old.items ++ entry F.spelling e.now) }
    ensures size { OnOk result (IsEntry e.now) }
{
    put_text(out, e.0.as_str().as_bytes())?;
    e.1.encode(out)?;
    Ok(())
}

fn count_of<F>(list: &[(Text, F)]) -> usize
    ensures is { result ≡ length list.now }
    ensures small { length list.now < 2 ^ 64 }
{
    list.len()
}

fn put_entries<F: FactKind>(out: &mut Vec<u8>, list: &[(Text, F)]) -> Result<(), NoMemory>
    ensures written { OnOk result (out.new.items ≡ out.old.items ++ items (entry F.spelling) list.now) }
    ensures size { OnOk result (AreItems IsEntry list.now) }
{
    let count = count_of(list);
    put_num(out, count as i128)?;
    for e in list {
        put_entry(out, e)?;
    }
    Ok(())
}

fn text_of<F: FactKind>(alloc: Global, list: &[(Text, F)]) -> Result<Vec<u8>, NoMemory>
    requires { AreInOrder list.now }
    ensures { IfOk result (λ v. AreFacts F.spelling list.now v.items) }
{
    let mut out = Vec::new(alloc);
    put_entries(&mut out, list)?;
    Ok(out)
}

impl<F: FactKind> FactTable<F> {
    /// The text of the table: how many facts there are, and each one's name and spelling, in order of the
    /// names.
    pub fn write(&self) -> Result<Vec<u8>, NoMemory>
        ensures { IfOk result (λ v. AreFacts F.spelling self.now v.items) }
    {
        let text = text_of(self.alloc, &self.entries)?;
        Ok(text)
    }
}
