//! What a load answers of a package.
ghost use Rattle.std.specs.Prelude.{◌≡◌, ◌<◌, ◌^◌, ℕ, List, true, false, [], map, length, slice_index_or, Contains, Err, IfOk, IfSome, None};
ghost use Rattle.bind.specs.Answers.{AreSpelled, AreSmall};
ghost use Rattle.export_text.specs.Faces.{IsFace};
ghost use Rattle.face_table.specs.Fitting.{given};
ghost use Rattle.action_graph.specs.Stages.{rule};
ghost use Rattle.package_faces.specs.Faces.{Face};
ghost use Rattle.package_faces.specs.Interfaces.{face_of, faces_of, AreInterfacesIn, IsInterfaceIn};
ghost use Rattle.type_model.specs.declared.term.TypeName.{TypeName as AName};
ghost use Rattle.type_model.specs.Tables.{IsTable, Extends, count, declarations_in, terms_in, types_in};
ghost use Rattle.typed_tree.specs.Basics.{HasBasics};
ghost use Rattle.unit_read.specs.Index.{found};
ghost use Rattle.unit_read.specs.Texts.{HaveTokens};
ghost use Rattle.check_pkg.specs.declared.judging.Outcome.TheVariants as outcome;
ghost use Rattle.check_pkg.specs.Packages.{package_of, package_name, text_of};
ghost use Rattle.action_graph.specs.Judging.{AllKnown, HasNothing, IfAccepted, Tells, accepted_text, fault_line, line_of, load_text, refused_text};
ghost use Rattle.action_graph.specs.Judging.Judged.{Accepts, Refuses};
ghost use Rattle.go_kit.specs.Loading.{IsAcceptedOf, kept_with};
ghost use Rattle.go_kit.specs.Reading.{IsSeenOf, Stands, TellsOf};

use crate::loaded::table_in;
use action_graph::{GoRules, Load, MarkLine, Unloaded, write_marks};
use check_pkg::{Checked, Fault, Outcome, Refusal, Typed, check, limit_number};
use export_text::{gather, mentions, write};
use go_tree::{FileTree, token_text};
use gv_base::{Bytes, NoMemory, Place, Row, Text};
use gv_bytes::Unread;
use package_faces::Interface;
use std::alloc::Global;
use std::collections::HashMap;
use type_model::TypeTable;
use unit_read::{find, path_index};

/// The line of a fault at a place.
fn fault_line(at: Place, fault: Fault) -> MarkLine
    ensures { result ≡ fault_line at fault }
{
    match fault {
        Fault::Rule(rule) => MarkLine {
            at,
            limit: false,
            number: rule.0,
        },
        Fault::Limit(limit) => MarkLine {
            at,
            limit: true,
            number: limit_number(limit),
        },
    }
}

/// The lines of some refusals.
fn lines_of(alloc: Global, refused: &[Refusal]) -> Result<Vec<MarkLine>, NoMemory>
    ensures { IfOk result (λ lines. lines.items ≡ map line_of refused.now) }
{
    let mut lines = Vec::new(alloc);
    for refusal in refused {
        lines.push(fault_line(refusal.place, refusal.fault))?;
    }
    Ok(lines)
}

/// The marks text of what refuses a package.
pub(crate) fn marks_text(alloc: Global, refused: &[Refusal]) -> Result<Bytes, NoMemory>
    ensures { IfOk result (λ marks. Tells (Refuses (map line_of refused.now)) (refused_text marks)) }
{
    let lines = lines_of(alloc, refused)?;
    let marks = write_marks(alloc, &lines)?;
    Ok(Bytes::new(marks))
}

/// The answer that refuses a package, with its refusals.
fn refuse(alloc: Global, refused: &[Refusal]) -> Result<Load<()>, NoMemory>
    ensures { IfOk result (λ load. Tells (Refuses (map line_of refused.now)) (load_text load)) }
{
    let marks = marks_text(alloc, refused)?;
    Ok(Load::Refused { marks })
}

/// The bytes of the first file.
fn first_text<'a>(files: &'a [(Text, Bytes)]) -> &'a [u8]
    ensures { result.now ≡ slice_index_or (map text_of files.now) 0 [] }
{
    match files {
        [] => b"",
        [file, ..] => file.1.as_slice(),
    }
}

/// The bytes of the package's name: the first token of its first file's first node.
fn name_bytes<'a>(files: &'a [(Text, Bytes)], trees: &[FileTree]) -> &'a [u8]
    ensures { result.now ≡ package_name (package_of [] files.now trees.now) }
{
    let Some(tree) = trees.first() else {
        return b"";
    };
    let Some(node) = tree.nodes.as_slice().first() else {
        return b"";
    };
    let Some(token) = tree.tokens.as_slice().get(node.first as usize) else {
        return b"";
    };
    token_text(first_text(files), token)
}

/// The name of the package.
fn package_name<'a>(files: &'a [(Text, Bytes)], trees: &[FileTree]) -> &'a str
    requires { HaveTokens (map text_of files.now) trees.now }
    ensures { result.now ≡ package_name (package_of [] files.now trees.now) }
{
    unsafe { str::from_utf8_unchecked(name_bytes(files, trees)) }
}

fn are_none(refused: &[Refusal]) -> bool
    ensures none { result ≡ true → refused.now ≡ [] }
    ensures some { result ≡ false → refused.now ≡ [] → ⊥ }
{
    match refused {
        [] => true,
        [_, ..] => false,
    }
}

/// Whether each of these paths has a place.
fn are_known(places: &HashMap<&[u8], usize>, paths: &[Text]) -> bool
    ensures known { result ≡ true → (path : List ℕ) → Contains paths.now path → found places.now path ≡ None → ⊥ }
    ensures unknown { result ≡ false → (path : List ℕ) × Contains paths.now path × (found places.now path ≡ None) }
{
    for path in paths {
        if find(places, path.as_str().as_bytes()).is_none() {
            return false;
        }
    }
    true
}

/// The answer that accepts a package with this export text, which all that read it share.
fn accepted(alloc: Global, text: Vec<u8>) -> Result<Load<()>, NoMemory>
    ensures { IfOk result (λ load. load_text load ≡ accepted_text text.items) }
{
    let export = Bytes::counted(alloc, text.as_slice())?;
    Ok(Load::Accepted { loaded: (), export })
}

/// The answer that accepts a package, with what is seen of it. It can't be told where it has no text, or mentions a package that has no place.
fn tell_seen(
    alloc: Global,
    table: &TypeTable,
    seen: &Interface,
    places: &HashMap<&[u8], usize>,
) -> Result<Load<()>, Unloaded>
    requires table { IsTable table.now }
    requires within { IsInterfaceIn (count table.now) (types_in table.now) seen.now }
    ensures told { IfOk result (λ load. IsFace (face_of (types_in table.now) seen.now) × AllKnown (λ q. found places.now q) (face_of (types_in table.now) seen.now) × Tells (Accepts (face_of (types_in table.now) seen.now)) (load_text load)) }
    ensures untold { result ≡ Err Unloaded.Stuck → IsFace (face_of (types_in table.now) seen.now) → AllKnown (λ q. found places.now q) (face_of (types_in table.now) seen.now) → ⊥ }
{
    let paths = mentions(alloc, table, seen)?;
    if !are_known(places, &paths) {
        return Err(Unloaded::Stuck);
    }
    let text = write(alloc, table, seen)?;
    match text {
        Some(text) => {
            let load = accepted(alloc, text)?;
            Ok(load)
        }
        None => Err(Unloaded::Stuck),
    }
}

/// The answer for a package that nothing refuses.
fn accept(
    alloc: Global,
    path: &str,
    name: &str,
    places: &HashMap<&[u8], usize>,
    checked: Checked,
) -> Result<(Load<()>, Typed), Unloaded>
    requires stands { Stands path.now checked }
    ensures typed { IfOk result (λ r. r.1 ≡ checked.typed) }
    ensures told { IfOk result (λ r. (f : Face) × IsSeenOf path.now name.now (λ q. found places.now q) checked f × Tells (Accepts f) (load_text r.0)) }
    ensures untold { result ≡ Err Unloaded.Stuck → (f : Face) → IsSeenOf path.now name.now (λ q. found places.now q) checked f → ⊥ }
{
    let path = Text::of(alloc, path)?;
    let name = Text::of(alloc, name)?;
    let typed = checked.typed;
    let objects = Row::new(checked.exports);
    match gather(alloc, &typed.state.table, path, name, objects) {
        Ok(seen) => {
            let load = tell_seen(alloc, &typed.state.table, &seen, places)?;
            Ok((load, typed))
        }
        Err(Unread::Unspelled) => Err(Unloaded::Stuck),
        Err(Unread::Memory) => Err(Unloaded::NoMemory),
    }
}

/// The answer for a package of this path, of which this was found.
fn told(
    alloc: Global,
    path: &str,
    files: &[(Text, Bytes)],
    trees: &[FileTree],
    places: &HashMap<&[u8], usize>,
    checked: Checked,
) -> Result<(Load<()>, Typed), Unloaded>
    requires stands { checked.refused.items ≡ [] → Stands path.now checked }
    requires texts { HaveTokens (map text_of files.now) trees.now }
    ensures typed { IfOk result (λ r. r.1 ≡ checked.typed) }
    ensures accepted { IfOk result (λ r. checked.refused.items ≡ [] → (f : Face) × IsSeenOf path.now (package_name (package_of path.now files.now trees.now)) (λ q. found places.now q) checked f × Tells (Accepts f) (load_text r.0)) }
    ensures refused { IfOk result (λ r. (checked.refused.items ≡ [] → ⊥) → Tells (Refuses (map line_of checked.refused.items)) (load_text r.0)) }
    ensures none { result ≡ Err Unloaded.Stuck → checked.refused.items ≡ [] }
    ensures untold { result ≡ Err Unloaded.Stuck → (f : Face) → IsSeenOf path.now (package_name (package_of path.now files.now trees.now)) (λ q. found places.now q) checked f → ⊥ }
{
    if !are_none(&checked.refused) {
        let load = refuse(alloc, &checked.refused)?;
        return Ok((load, checked.typed));
    }
    let told = accept(alloc, path, package_name(files, trees), places, checked)?;
    Ok(told)
}

/// An accepted package with what is kept of it; or a refused one, and its table.
fn with_kept(load: Load<()>, typed: Typed) -> (Load<Typed>, Option<TypeTable>)
    ensures { result ≡ kept_with load typed }
{
    match load {
        Load::Accepted { loaded: _, export } => (
            Load::Accepted {
                loaded: typed,
                export,
            },
            None,
        ),
        Load::Refused { marks } => (Load::Refused { marks }, Some(table_in(typed))),
    }
}

/// The answer for a package of this path, by its files and their trees, over the interfaces of other packages, whose types are declared in the
/// table: an accepted package as it is typed; of a refused one the table, too. The types of the table keep their numbers.
pub(crate) fn judge(
    alloc: Global,
    path: &str,
    files: &[(Text, Bytes)],
    trees: &[FileTree],
    table: TypeTable,
    env: &[Interface],
) -> Result<(Load<Typed>, Option<TypeTable>), Unloaded>
    requires spelled { AreSpelled trees.now files.now }
    requires texts { HaveTokens (map text_of files.now) trees.now }
    requires small { AreSmall trees.now }
    requires few { length trees.now < 2 ^ 32 }
    requires basics { HasBasics table }
    requires within { AreInterfacesIn (count table) (types_in table) env.now }
    requires base { (name : AName) → declarations_in table name ≡ given path.now (faces_of (types_in table) env.now) name }
    ensures told { IfOk result (λ r. TellsOf (package_of path.now files.now trees.now) (faces_of (types_in table) env.now) (load_text r.0)) }
    ensures accepted { IfOk result (λ r. IfAccepted r.0 (IsAcceptedOf (package_of path.now files.now trees.now) (faces_of (types_in table) env.now))) }
    ensures grown { IfOk result (λ r. IfAccepted r.0 (λ t. Extends (terms_in table) (terms_in t.state.table))) }
    ensures basics { IfOk result (λ r. IfSome r.1 HasBasics) }
    ensures extends { IfOk result (λ r. IfSome r.1 (λ t. Extends (terms_in table) (terms_in t))) }
    ensures circle { result ≡ Err Unloaded.Stuck → HasNothing (package_of path.now files.now trees.now) (faces_of (types_in table) env.now) }
{
    let places = path_index(alloc, env)?;
    let outcome = check(alloc, &GoRules, path.as_bytes(), files, trees, table, env)?;
    match outcome {
        Outcome::Checked(checked) => {
            let (load, typed) = told(alloc, path, files, trees, &places, checked)?;
            Ok(with_kept(load, typed))
        }
        Outcome::Circle => Err(Unloaded::Stuck),
    }
}
