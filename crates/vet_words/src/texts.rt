//! How nodes are spelled, and which are spelled with the same tokens.
ghost use Rattle.std.specs.Prelude.{◌≡◌, ◌<◌, ◌++◌, ◌∷◌, [], length, IfOk, OnOk};
ghost use Rattle.go_tree.specs.Spelling.{is_semi, node_tokens};
ghost use Rattle.unit_read.specs.Units.{text_in};
ghost use Rattle.findings.specs.Passes.{unit_in};
ghost use Rattle.vet_words.specs.Texts.{tree_spelling, spelling_at, word_of, token_key, tokens_key, tree_key, key_at, is_same};

use findings::Pass;
use go_tree::{FileTree, Token, TokenKind, token_text};
use gv_base::NoMemory;
use std::alloc::Global;

/// The bytes of a file.
pub(crate) fn text_in<'a>(p: &Pass<'a>, file: u32) -> &'a [u8]
    ensures { result.now ≡ text_in (unit_in p.now) file }
{
    let texts = p.subject.texts;
    if (file as usize) < texts.len() {
        texts[file as usize]
    } else {
        &[]
    }
}

// ---- spellings

fn tree_spelling(alloc: Global, tree: &FileTree, n: u32, source: &[u8]) -> Result<Vec<u8>, NoMemory>
    ensures { IfOk result (λ text. text.items ≡ tree_spelling source.now n tree.now) }
{
    if (n as usize) < tree.nodes.as_slice().len() {
        let text = tree.spelling(alloc, n, source)?;
        Ok(text)
    } else {
        Ok(Vec::new(alloc))
    }
}

/// How a node is spelled.
pub fn spelling(alloc: Global, p: &Pass, file: u32, n: u32) -> Result<Vec<u8>, NoMemory>
    ensures { IfOk result (λ text. text.items ≡ spelling_at (unit_in p.now) file n) }
{
    match p.subject.tree_at(file) {
        Some(tree) => {
            let text = tree_spelling(alloc, tree, n, text_in(p, file))?;
            Ok(text)
        }
        None => Ok(Vec::new(alloc)),
    }
}

// ---- equality

fn is_semi(kind: TokenKind) -> bool
    ensures { result ≡ is_semi kind }
{
    matches!(kind, TokenKind::Semi)
}

fn word_of<'a>(source: &'a [u8], token: &Token) -> &'a [u8]
    ensures { result.now ≡ word_of source.now token.now }
{
    if is_semi(token.kind) {
        b";"
    } else {
        token_text(source, token)
    }
}

fn push_key(source: &[u8], token: &Token, key: &mut Vec<u8>) -> Result<(), NoMemory>
    ensures { OnOk result (key.new.items ≡ key.old.items ++ token_key source.now token.now) }
{
    key.extend_from_slice(word_of(source, token))?;
    key.push(0)?;
    Ok(())
}

fn push_keys(source: &[u8], tokens: &[Token], key: &mut Vec<u8>) -> Result<(), NoMemory>
    ensures { OnOk result (key.new.items ≡ key.old.items ++ tokens_key source.now tokens.now) }
{
    for token in tokens {
        push_key(source, token, key)?;
    }
    Ok(())
}

#[tactic(auto, using(go_tree::proofs::TokenTexts::clamped))]
fn node_tokens(tree: &FileTree, n: u32) -> &[Token]
    requires { n < length tree.now.nodes }
    ensures { result.now ≡ node_tokens tree.now n }
{
    let node = &tree.nodes.as_slice()[n as usize];
    let tokens = tree.tokens.as_slice();
    let end = (node.last as usize + 1).min(tokens.len());
    let start = (node.first as usize).min(end);
    &tokens[start..end]
}

fn tree_key(alloc: Global, tree: &FileTree, n: u32, source: &[u8]) -> Result<Vec<u8>, NoMemory>
    ensures { IfOk result (λ key. key.items ≡ tree_key source.now n tree.now) }
{
    let mut key = Vec::new(alloc);
    if (n as usize) < tree.nodes.as_slice().len() {
        push_keys(source, node_tokens(tree, n), &mut key)?;
    }
    Ok(key)
}

/// The tokens of a node.
pub fn key_at(alloc: Global, p: &Pass, file: u32, n: u32) -> Result<Vec<u8>, NoMemory>
    ensures { IfOk result (λ key. key.items ≡ key_at (unit_in p.now) file n) }
{
    match p.subject.tree_at(file) {
        Some(tree) => {
            let key = tree_key(alloc, tree, n, text_in(p, file))?;
            Ok(key)
        }
        None => Ok(Vec::new(alloc)),
    }
}

/// Whether two nodes have the same tokens.
pub fn is_same(alloc: Global, p: &Pass, file: u32, a: u32, b: u32) -> Result<bool, NoMemory>
    ensures { IfOk result (λ same. same ≡ is_same (unit_in p.now) file a b) }
{
    let first = key_at(alloc, p, file, a)?;
    let second = key_at(alloc, p, file, b)?;
    let same = first.as_slice() == second.as_slice();
    Ok(same)
}
