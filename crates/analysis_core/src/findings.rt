//! Writing the findings of a run as bytes.
ghost use Rattle.std.specs.Prelude.{◌≡◌, ◌++◌, All, IfOk, OnOk};
ghost use Rattle.gv_bytes.specs.Spelling.{items, AreItems};
ghost use Rattle.analysis_core.specs.Findings.{edit_text, edits_text, fix_text, diagnostic_text, IsEdit, IsFix, IsOwn, IsDiagnostic, AreFindings};

use crate::diagnostic::Diagnostic;
use fix_apply::{Edit, Fix};
use gv_base::NoMemory;
use gv_bytes::{put_num, put_text};
use std::alloc::Global;

fn put_edit(out: &mut Vec<u8>, edit: &Edit) -> Result<(), NoMemory>
    ensures written { OnOk result (out.new.items ≡ out.old.items ++ edit_text edit.now) }
    ensures size { OnOk result (IsEdit edit.now) }
{
    put_num(out, edit.start as i128)?;
    put_num(out, edit.end as i128)?;
    put_text(out, edit.text.as_slice())?;
    Ok(())
}

fn put_edits(out: &mut Vec<u8>, edits: &[Edit]) -> Result<(), NoMemory>
    ensures written { OnOk result (out.new.items ≡ out.old.items ++ items edit_text edits.now) }
    ensures size { OnOk result (AreItems IsEdit edits.now) }
{
    put_num(out, edits.len() as i128)?;
    for edit in edits {
        put_edit(out, edit)?;
    }
    Ok(())
}

fn put_fix(out: &mut Vec<u8>, fix: &Option<Fix>) -> Result<(), NoMemory>
    ensures written { OnOk result (out.new.items ≡ out.old.items ++ fix_text fix.now) }
    ensures size { OnOk result (IsFix fix.now) }
{
    match fix {
        None => {
            put_num(out, 0)?;
            Ok(())
        }
        Some(fix) => {
            put_num(out, 1)?;
            put_edits(out, fix.edits.as_slice())?;
            Ok(())
        }
    }
}

fn put_diagnostic(out: &mut Vec<u8>, d: &Diagnostic) -> Result<(), NoMemory>
    requires { IsOwn d.now }
    ensures written { OnOk result (out.new.items ≡ out.old.items ++ diagnostic_text d.now) }
    ensures size { OnOk result (IsDiagnostic d.now) }
{
    put_num(out, d.place.file as i128)?;
    put_num(out, d.place.offset as i128)?;
    put_num(out, d.end as i128)?;
    put_num(out, d.analyzer as i128)?;
    put_text(out, d.text.as_slice())?;
    put_fix(out, &d.fix)?;
    Ok(())
}

/// The text of the diagnostics, in their order. Each one's fix lies in its own file.
pub fn write_findings(alloc: Global, d: &[Diagnostic]) -> Result<Vec<u8>, NoMemory>
    requires { All IsOwn d.now }
    ensures { IfOk result (λ v. AreFindings d.now v.items) }
{
    let mut out = Vec::new(alloc);
    put_num(&mut out, d.len() as i128)?;
    for diagnostic in d {
        put_diagnostic(&mut out, diagnostic)?;
    }
    Ok(out)
}
