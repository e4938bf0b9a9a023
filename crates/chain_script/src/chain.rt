//! A script that sets packages, each of which imports the one before, and reports on them twice.
ghost use Rattle.std.specs.Prelude.{◌≡◌, ◌<◌, ◌^◌, length, IfOk};
ghost use Rattle.std.specs.Fmt.{decimal};
ghost use Rattle.chain_script.specs.Chain.{import_text, constant_text, file_text, putting, put_text, puts_below, chain_text};

use gv_base::NoMemory;
use std::alloc::Global;

/// A number in decimal.
fn digits(alloc: Global, number: u64) -> Result<Vec<u8>, NoMemory>
    ensures { IfOk result (λ text. text.items ≡ decimal number) }
{
    let text = format!(in alloc; "{number}")?;
    let mut out = Vec::new(alloc);
    out.extend_from_slice(text.as_bytes())?;
    Ok(out)
}

/// The import of the package before; the first has none.
fn import_text(alloc: Global, i: u64) -> Result<Vec<u8>, NoMemory>
    ensures { IfOk result (λ text. text.items ≡ import_text i) }
{
    let mut out = Vec::new(alloc);
    if i == 0 {
        return Ok(out);
    }
    let before = digits(alloc, i - 1)?;
    out.extend_from_slice(b"import q \"m/p")?;
    out.extend_from_slice(&before)?;
    out.extend_from_slice(b"\"\n\n")?;
    Ok(out)
}

/// The constant, of which each but the first mentions the one before.
fn constant_text(alloc: Global, i: u64) -> Result<Vec<u8>, NoMemory>
    ensures { IfOk result (λ text. text.items ≡ constant_text i) }
{
    let mut out = Vec::new(alloc);
    if i == 0 {
        out.extend_from_slice(b"const C = 0\n")?;
        return Ok(out);
    }
    let number = digits(alloc, i)?;
    out.extend_from_slice(b"const C = q.C + ")?;
    out.extend_from_slice(&number)?;
    out.push(b'\n')?;
    Ok(out)
}

/// The file of the package of this number.
fn file_text(alloc: Global, i: u64) -> Result<Vec<u8>, NoMemory>
    ensures { IfOk result (λ text. text.items ≡ file_text i) }
{
    let imported = import_text(alloc, i)?;
    let constant = constant_text(alloc, i)?;
    let mut out = Vec::new(alloc);
    out.extend_from_slice(b"package p\n\n")?;
    out.extend_from_slice(&imported)?;
    out.extend_from_slice(&constant)?;
    out.extend_from_slice(b"\nfunc F(x int) int {\n\tx = x\n\treturn x + C\n}\n")?;
    Ok(out)
}

/// The command that sets this file of the package of this number.
fn putting(alloc: Global, i: u64, file: &[u8]) -> Result<Vec<u8>, NoMemory>
    ensures { IfOk result (λ text. text.items ≡ putting i file.now) }
{
    let number = digits(alloc, i)?;
    let count = digits(alloc, file.len() as u64)?;
    let mut out = Vec::new(alloc);
    out.extend_from_slice(b"put p")?;
    out.extend_from_slice(&number)?;
    out.extend_from_slice(b"/p.go ")?;
    out.extend_from_slice(&count)?;
    out.push(b'\n')?;
    out.extend_from_slice(file)?;
    out.push(b'\n')?;
    Ok(out)
}

/// The command that sets its file.
fn put_text(alloc: Global, i: u64) -> Result<Vec<u8>, NoMemory>
    ensures { IfOk result (λ text. text.items ≡ put_text i) }
{
    let file = file_text(alloc, i)?;
    let text = putting(alloc, i, &file)?;
    Ok(text)
}

/// Those of the first so many packages.
fn puts(alloc: Global, count: u64) -> Result<Vec<u8>, NoMemory>
    ensures { IfOk result (λ text. text.items ≡ puts_below count) }
{
    let mut out = Vec::new(alloc);
    for i in 0..count {
        let text = put_text(alloc, i)?;
        out.extend_from_slice(&text)?;
    }
    Ok(out)
}

/// The script of a chain of so many packages: it sets them, reports twice and tells the numbers of each report.
pub fn chain_script(alloc: Global, count: u64) -> Result<Vec<u8>, NoMemory>
    ensures { IfOk result (λ text. text.items ≡ chain_text count) }
{
    let mut out = puts(alloc, count)?;
    out.extend_from_slice(b"report\nstats\nreport\nstats\nend\n")?;
    Ok(out)
}
