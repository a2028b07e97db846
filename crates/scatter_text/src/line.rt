// One line of a text: its tests in their order, and the row that it says.
ghost use Rattle.std.specs.Prelude.{◌≡◌, ◌≢◌, ◌≤◌, [], IsTrue, ◌↔◌, All, ◌<◌, ◌+◌, map, take, drop, length, IfOk, MatchOption};
ghost use Rattle.scatter_text.specs.Grammar.{HasForm, HasSomeForm, AreSpelled, IsInPlace, IsSpelled, IsNumberText, tokens_of};
ghost use Rattle.scatter_text.specs.Reading.{Say, AreBadTokens, IsFormOf, AreOfSlot, IsValueOf, AreValuesOf, IfBad, IsUnvaluedAt, IsBadAt, AreNumbersOf};

use crate::fault::TextKind;
use crate::grammar::{Keyword, Place, RowForm, Slot, TextMode};
use crate::number::{read_coordinate, read_number};
use crate::row::{Row, RowValue};
use crate::rows::Rows;
use std::alloc::{AllocError, AllocFailed, Global};

/// Why a line wasn't read.
#[derive(Drop)]
pub enum LineFault {
    Bad(TextKind),
    Memory,
}

impl<T: Drop> From<AllocFailed<T>> for LineFault {
    ghost use Rattle.std.specs.Prelude.{◌≡◌};
    ghost use Rattle.scatter_text.specs.declared.line.LineFault.TheVariants.{Memory};

    ghost from_gives = { λ _ e. e ≡ Memory };

    fn from(_e: AllocFailed<T>) -> LineFault {
        LineFault::Memory
    }
}

impl From<AllocError> for LineFault {
    ghost use Rattle.std.specs.Prelude.{◌≡◌};
    ghost use Rattle.scatter_text.specs.declared.line.LineFault.TheVariants.{Memory};

    ghost from_gives = { λ _ e. e ≡ Memory };

    fn from(_e: AllocError) -> LineFault {
        LineFault::Memory
    }
}

/// What a line says at a place, but for the rules on values.
pub fn row_at(
    alloc: Global,
    mode: TextMode,
    place: Place,
    variables: usize,
    line: &[u8],
) -> Result<Row, LineFault>
    ensures ok { IfOk result (IsUnvaluedAt mode place variables line.now) }
    ensures bad { IfBad result (IsBadAt mode place variables line.now) }
{
    if !is_printable(line) {
        return Err(LineFault::Bad(TextKind::Byte));
    }
    let tokens = cut(alloc, line)?;
    if !are_separate(&tokens) {
        return Err(LineFault::Bad(TextKind::Shape));
    }
    row_from(alloc, mode, place, variables, &tokens)
}

/// What the tokens of a line say at a place, but for the rules on values.
fn row_from(
    alloc: Global,
    mode: TextMode,
    place: Place,
    variables: usize,
    tokens: &[&[u8]],
) -> Result<Row, LineFault>
    requires { 0 < length tokens.now }
    ensures ok { IfOk result (Say mode place variables (map (λ t. t.now) tokens.now)) }
    ensures bad { IfBad result (AreBadTokens mode place variables (map (λ t. t.now) tokens.now)) }
{
    match mode.keyword(place, tokens[0]) {
        Some(keyword) => {
            let rest = &tokens[1..];
            let Some(form) = form_of(keyword, variables, rest) else {
                return Err(LineFault::Bad(TextKind::Count));
            };
            match values_of(alloc, variables, form.slots(), rest)? {
                Some(values) => Ok(Row { keyword, values }),
                None => Err(LineFault::Bad(TextKind::Number)),
            }
        }
        None => Err(LineFault::Bad(TextKind::Word)),
    }
}

/// Which form of the keyword's lines the tokens after it have.
fn form_of(keyword: Keyword, variables: usize, tokens: &[&[u8]]) -> Option<RowForm>
    ensures { MatchOption result (¬ HasSomeForm variables keyword (map (λ t. t.now) tokens.now))
        (IsFormOf variables keyword (map (λ t. t.now) tokens.now)) }
{
    let forms = keyword.forms();
    for form in forms {
        if has_form(variables, form.slots(), tokens) {
            return Some(*form);
        }
    }
    None
}

fn is_printable(line: &[u8]) -> bool
    ensures { IsTrue result ↔ All (λ b. (32 ≤ b) × (b ≤ 126)) line.now }
{
    line.iter().all(|b| 32 <= *b && *b <= 126)
}

/// The tokens between single spaces.
fn cut(alloc: Global, line: &[u8]) -> Result<Vec<&[u8]>, AllocError>
    ensures { IfOk result (λ tokens. map (λ t. t.now) tokens.items ≡ tokens_of line.now) }
{
    line.split(|b| *b == b' ').collect(alloc)
}

/// Whether no two spaces stand together, and none at an end.
fn are_separate(tokens: &[&[u8]]) -> bool
    ensures { IsTrue result ↔ All (λ token. token ≢ []) (map (λ t. t.now) tokens.now) }
{
    for token in tokens {
        if token.is_empty() {
            return false;
        }
    }
    true
}

/// Whether there are as many tokens as slots want, and each fixed word is in its place.
fn has_form(variables: usize, slots: &[Slot], tokens: &[&[u8]]) -> bool
    ensures { IsTrue result ↔ HasForm variables slots.now (map (λ t. t.now) tokens.now) }
{
    let mut start = 0;
    for slot in slots {
        let count = slot.token_count(variables);
        if tokens.len() - start < count {
            return false;
        }
        if !are_in_place(*slot, part(tokens, start, count)) {
            return false;
        }
        start += count;
    }
    start == tokens.len()
}

/// So many tokens from a place on.
fn part<'a, 'b>(tokens: &'a [&'b [u8]], start: usize, count: usize) -> &'a [&'b [u8]]
    requires { start + count ≤ length tokens.now }
    ensures { result.now ≡ take count (drop start tokens.now) }
{
    &tokens[start..start + count]
}

/// Whether the tokens of a slot are its fixed word, if it has one.
fn are_in_place(slot: Slot, tokens: &[&[u8]]) -> bool
    ensures { IsTrue result ↔ All (IsInPlace slot) (map (λ t. t.now) tokens.now) }
{
    for token in tokens {
        if !is_in_place(slot, token) {
            return false;
        }
    }
    true
}

fn is_in_place(slot: Slot, token: &[u8]) -> bool
    ensures { IsTrue result ↔ IsInPlace slot token.now }
{
    match slot {
        Slot::Fixed(word) => token == word.text(),
        Slot::Number | Slot::Coordinate | Slot::Powers => true,
    }
}

/// What the tokens of slots say, if each is spelled as its slot asks.
fn values_of(
    alloc: Global,
    variables: usize,
    slots: &[Slot],
    tokens: &[&[u8]],
) -> Result<Option<Rows<RowValue>>, AllocError>
    requires { HasForm variables slots.now (map (λ t. t.now) tokens.now) }
    ensures { IfOk result (λ values. MatchOption values
        (¬ AreSpelled variables slots.now (map (λ t. t.now) tokens.now))
        (AreValuesOf variables slots.now (map (λ t. t.now) tokens.now))) }
{
    let mut values = Vec::with_capacity(alloc, slots.len())?;
    let mut start = 0;
    for slot in slots {
        let count = slot.token_count(variables);
        match value_of(alloc, variables, *slot, part(tokens, start, count))? {
            Some(value) => {
                values.push(value)?;
            }
            None => return Ok(None),
        }
        start += count;
    }
    Ok(Some(Rows::from_vec(values)))
}

/// What the tokens of one slot say, if each is spelled as the slot asks.
fn value_of(
    alloc: Global,
    variables: usize,
    slot: Slot,
    tokens: &[&[u8]],
) -> Result<Option<RowValue>, AllocError>
    requires { AreOfSlot variables slot (map (λ t. t.now) tokens.now) }
    ensures { IfOk result (λ value. MatchOption value
        (¬ All (IsSpelled slot) (map (λ t. t.now) tokens.now))
        (IsValueOf variables slot (map (λ t. t.now) tokens.now))) }
{
    match slot {
        Slot::Fixed(word) => Ok(Some(RowValue::Fixed(word))),
        Slot::Number => match read_number(tokens[0]) {
            Some(n) => Ok(Some(RowValue::Number(n))),
            None => Ok(None),
        },
        Slot::Coordinate => match read_coordinate(tokens[0]) {
            Some(c) => Ok(Some(RowValue::Coordinate(c))),
            None => Ok(None),
        },
        Slot::Powers => match numbers(alloc, tokens)? {
            Some(powers) => Ok(Some(RowValue::Powers(Rows::from_vec(powers)))),
            None => Ok(None),
        },
    }
}

/// The numbers that tokens spell, if each spells one.
fn numbers(alloc: Global, tokens: &[&[u8]]) -> Result<Option<Vec<i64>>, AllocError>
    ensures { IfOk result (λ o. MatchOption o (¬ All IsNumberText (map (λ t. t.now) tokens.now))
        (λ v. AreNumbersOf (map (λ t. t.now) tokens.now) v.items)) }
{
    let mut values = Vec::with_capacity(alloc, tokens.len())?;
    for token in tokens {
        match read_number(token) {
            Some(n) => {
                values.push(n)?;
            }
            None => return Ok(None),
        }
    }
    Ok(Some(values))
}
