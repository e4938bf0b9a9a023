//! All that the late rules of bodies find in a package.
ghost use Rattle.std.specs.Prelude.{◌≡◌, List, IfOk, length, Contains};
ghost use Rattle.body_rules.specs.Files.{IsFile};
ghost use Rattle.body_rules.specs.Given.{given};
ghost use Rattle.body_rules.specs.Views.{AreViews, IsFaultOf, count_of};
ghost use Rattle.body_rules.specs.declared.file.File.{File};
ghost use Rattle.late_list.specs.Late.{IsLate, AreFound};

use crate::file::File;
use crate::view::{View, view_of};
use gv_base::NoMemory;
use late_list::{LateFault, find_late};
use std::alloc::Global;

fn views_of<'a>(alloc: Global, files: &'a [File<'a>]) -> Result<Vec<View<'a>>, NoMemory>
    requires { (f : File) → Contains files.now f → IsFile (given f) }
    ensures { IfOk result (λ views. AreViews files.now views.items) }
{
    let mut views = Vec::new(alloc);
    for f in files {
        let view = view_of(alloc, f)?;
        views.push(view)?;
    }
    Ok(views)
}

/// All that the late rules of bodies find in the files of a package: by file, node and rule.
pub fn late_faults<'a>(alloc: Global, files: &'a [File<'a>]) -> Result<Vec<LateFault>, NoMemory>
    requires { (f : File) → Contains files.now f → IsFile (given f) }
    ensures { IfOk result (λ list. AreFound (IsLate IsFaultOf count_of files.now) list.items) }
{
    let views = views_of(alloc, files)?;
    let list = find_late(alloc, &views)?;
    Ok(list)
}
