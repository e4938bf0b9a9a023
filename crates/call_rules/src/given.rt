//! How many arguments a function is given, and whether it takes as many (Go 1.17, "Calls", "Passing arguments to ... parameters").
ghost use Rattle.std.specs.Prelude.{◌≡◌, ◌&&◌, not, option_map, slice_get, IfSome};
ghost use Rattle.type_model.specs.GoTypes.{types_at, AreBelow};
ghost use Rattle.type_model.specs.Tables.{types_in, count};
ghost use Rattle.typed_tree.specs.Basics.{HasBasics};
ghost use Rattle.rule_words.specs.Scenes.{said, IsMarkOf, type_in, IsTypeOf, parts_in, AreSeenOf};
ghost use Rattle.rule_words.specs.Good.{AreFactsOf, known_of};
ghost use Rattle.builtin_rules.specs.InCode.{signature_by, IsSignatureOf};
ghost use Rattle.builtin_rules.specs.Types.{signature_in};
ghost use Rattle.call_rules.specs.Given.{params_of, is_last, last_of, is_element, param_at, many_given, given_by, given_unknown, sole_given, is_sole, given_of, takes_any, accepts, is_accepted};
ghost use Rattle.call_rules.specs.Types.{how_many, nth_type};

use builtin_rules::{argument_count, signature_in, slice_of};
use rule_words::Seen;
use rule_words::good::part_at;
use type_model::{Signature, TypeId};
use typed_marks::{Facts, Mark, State};
use typed_tree::Mode;

/// What a call's arguments are for a function.
#[derive(Clone, Copy, Drop)]
pub enum Given {
    /// So many values.
    Count(usize),
    /// The results of a call that has none.
    Nothing,
    /// The results of a call that isn't good.
    Unknown,
}

// ---- parameters

/// How many types are listed.
pub fn how_many(s: &State, types: &[TypeId]) -> usize
    ensures { result ≡ how_many (types_at (types_in s.now.table) types.now) }
{
    let _ = s;
    types.len()
}

fn id_at(types: &[TypeId], i: usize) -> Option<TypeId>
    ensures { result ≡ slice_get types.now i }
{
    types.get(i).copied()
}

/// One of the listed types.
pub fn nth_type(s: &State, types: &[TypeId], i: usize) -> Option<TypeId>
    requires { AreBelow (count s.now.table) types.now }
    ensures is { option_map (type_in s.now) result ≡ nth_type (types_at (types_in s.now.table) types.now) i }
    ensures within { IfSome result (IsTypeOf s.now) }
{
    let _ = s;
    id_at(types, i)
}

fn param_count(s: &State, sig: &Signature) -> usize
    ensures { result ≡ how_many (params_of (signature_by s.now sig.now)) }
{
    how_many(s, sig.params.as_slice())
}

fn is_last(s: &State, sig: &Signature, i: usize) -> bool
    ensures { result ≡ is_last (params_of (signature_by s.now sig.now)) i }
{
    param_count(s, sig).saturating_sub(1) <= i
}

fn is_unspread(s: &State, sig: &Signature, spread: bool, i: usize) -> bool
    ensures { result ≡ (not spread && is_last (params_of (signature_by s.now sig.now)) i) }
{
    !spread && is_last(s, sig, i)
}

/// Whether an argument is an element of the last parameter.
fn is_element(s: &State, sig: &Signature, spread: bool, i: usize) -> bool
    ensures { result ≡ is_element (signature_by s.now sig.now) spread i }
{
    sig.variadic && is_unspread(s, sig, spread, i)
}

fn nth_param(s: &State, sig: &Signature, i: usize) -> Option<TypeId>
    requires { IsSignatureOf s.now sig.now }
    ensures is { option_map (type_in s.now) result ≡ nth_type (params_of (signature_by s.now sig.now)) i }
    ensures within { IfSome result (IsTypeOf s.now) }
{
    nth_type(s, sig.params.as_slice(), i)
}

fn last_of(s: &State, sig: &Signature) -> Option<TypeId>
    requires { IsSignatureOf s.now sig.now }
    ensures is { option_map (type_in s.now) result ≡ last_of (params_of (signature_by s.now sig.now)) }
    ensures within { IfSome result (IsTypeOf s.now) }
{
    let n = param_count(s, sig);
    nth_param(s, sig, n.saturating_sub(1))
}

/// The parameter to which the argument at a place is assigned, from 0; None where there is none.
#[tactic(auto, unfolding(crate::specs::Given::param_at))]
pub fn param_at(s: &State, sig: &Signature, spread: bool, i: usize) -> Option<TypeId>
    requires basics { HasBasics s.now.table }
    requires signature { IsSignatureOf s.now sig.now }
    ensures is { option_map (type_in s.now) result ≡ param_at (signature_by s.now sig.now) spread i }
    ensures within { IfSome result (IsTypeOf s.now) }
{
    if !is_element(s, sig, spread, i) {
        return nth_param(s, sig, i);
    }
    match last_of(s, sig) {
        Some(last) => slice_of(s, last),
        None => None,
    }
}

// ---- arguments

fn result_count(s: &State, of: TypeId) -> Given
    requires basics { HasBasics s.now.table }
    requires within { IsTypeOf s.now of }
    ensures { result ≡ many_given (signature_in (type_in s.now of)) }
{
    match signature_in(s, of) {
        Some(sig) => Given::Count(how_many(s, sig.results.as_slice())),
        None => Given::Unknown,
    }
}

fn given_by(s: &State, x: Facts) -> Given
    requires basics { HasBasics s.now.table }
    requires facts { AreFactsOf s.now x }
    ensures { result ≡ given_by (known_of s.now x) x.mode }
{
    match x.mode {
        Mode::Many => result_count(s, x.of),
        Mode::NoValue => Given::Nothing,
        Mode::TypeName => Given::Count(1),
        Mode::Constant => Given::Count(1),
        Mode::Variable => Given::Count(1),
        Mode::MapIndex => Given::Count(1),
        Mode::Value => Given::Count(1),
        Mode::CommaOk => Given::Count(1),
        Mode::Nil => Given::Count(1),
        Mode::Builtin => Given::Count(1),
        Mode::Package => Given::Count(1),
    }
}

fn given_unknown(call: bool) -> Given
    ensures { result ≡ given_unknown call }
{
    if call {
        Given::Unknown
    } else {
        Given::Count(1)
    }
}

/// What a single argument gives.
#[tactic(auto, unfolding(crate::specs::Given::sole_given))]
fn sole_given(s: &State, call: bool, m: Mark) -> Given
    requires basics { HasBasics s.now.table }
    requires mark { IsMarkOf s.now m }
    ensures { result ≡ sole_given call (said s.now m) }
{
    match m {
        Mark::Good(x) => given_by(s, x),
        Mark::Bad(_) => given_unknown(call),
        Mark::Outside(_) => given_unknown(call),
        Mark::Silent => given_unknown(call),
        Mark::Wants(_, _) => given_unknown(call),
        Mark::Declared(_) => given_unknown(call),
    }
}

fn is_sole(spread: bool, n: usize) -> bool
    ensures { result ≡ is_sole spread n }
{
    !spread && n == 1
}

/// What a call's arguments are for a function; `call` says whether the first is a call.
#[tactic(auto, unfolding(crate::specs::Given::given_of))]
pub fn given_of(s: &State, spread: bool, call: bool, parts: &[Seen]) -> Given
    requires basics { HasBasics s.now.table }
    requires parts { AreSeenOf s.now parts.now }
    ensures { result ≡ given_of spread call (parts_in s.now parts.now) }
{
    let n = argument_count(s, parts);
    if is_sole(spread, n) {
        let first = part_at(s, parts, 1);
        sole_given(s, call, first.mark)
    } else {
        Given::Count(n)
    }
}

// ---- E51

fn takes_any(s: &State, sig: &Signature, spread: bool) -> bool
    ensures { result ≡ takes_any (signature_by s.now sig.now) spread }
{
    let _ = s;
    sig.variadic && !spread
}

/// Whether a function takes as many arguments.
#[tactic(auto, unfolding(crate::specs::Given::accepts))]
pub fn accepts(s: &State, sig: &Signature, spread: bool, n: usize) -> bool
    ensures { result ≡ accepts (signature_by s.now sig.now) spread n }
{
    let params = param_count(s, sig);
    if takes_any(s, sig, spread) {
        params.saturating_sub(1) <= n
    } else {
        n == params
    }
}

/// Whether a function takes what it is given.
pub fn is_accepted(s: &State, sig: &Signature, spread: bool, given: Given) -> bool
    ensures { result ≡ is_accepted (signature_by s.now sig.now) spread given }
{
    match given {
        Given::Count(n) => accepts(s, sig, spread, n),
        Given::Nothing => false,
        Given::Unknown => true,
    }
}
