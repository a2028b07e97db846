// The parts of a value: whole numbers, texts that spell a number or a coordinate, arrays and objects.
ghost use Rattle.std.specs.Prelude.{◌≡◌, [], ◌∷◌, map, option_map, MatchOption};
ghost use Rattle.serde_json.specs.Data.{Data};
ghost use Rattle.serde_json.specs.Events.{members_len};
ghost use Rattle.serde_json.specs.Find.{as_object};
ghost use Rattle.serde_json.specs.View.{view};
ghost use Rattle.scatter_json.specs.JsonForm.{SaysWhole, IsNumber, SaysCoordinate, IsArray};
ghost use Rattle.scatter_json.specs.Parts.{SaysNo, HasThree};

use scatter_text::{Coordinate, is_short, read_coordinate, read_number};
use serde_json::Value;

/// The whole number of at most 18 digits that a value holds as an integer.
pub(crate) fn whole(value: &Value) -> Option<i64>
    ensures { MatchOption result (SaysNo SaysWhole (view value.now)) (SaysWhole (view value.now)) }
{
    let n = value.as_i64()?;
    if is_short(i128::from(n)) {
        Some(n)
    } else {
        None
    }
}

/// The number that a text spells.
pub(crate) fn number(value: &Value) -> Option<i64>
    ensures { MatchOption result (SaysNo IsNumber (view value.now)) (IsNumber (view value.now)) }
{
    let text = value.as_str()?;
    read_number(text.as_bytes())
}

/// The coordinate that a text spells.
pub(crate) fn coordinate(value: &Value) -> Option<Coordinate>
    ensures { MatchOption result (SaysNo SaysCoordinate (view value.now))
        (SaysCoordinate (view value.now)) }
{
    let text = value.as_str()?;
    read_coordinate(text.as_bytes())
}

/// The items of an array.
pub(crate) fn items(value: &Value) -> Option<&[Value]>
    ensures { MatchOption result (SaysNo IsArray (view value.now))
        (λ values. IsArray (view value.now) (map view values.now)) }
{
    let list = value.as_array()?;
    Some(list.as_slice())
}

/// The items of an array of two.
pub(crate) fn two_items(value: &Value) -> Option<(&Value, &Value)>
    ensures { MatchOption result ((a b : Data) → IsArray (view value.now) (a ∷ b ∷ []) → ⊥)
        (λ r. IsArray (view value.now) (view r.0.now ∷ view r.1.now ∷ [])) }
{
    let list = items(value)?;
    if list.len() == 2 {
        Some((&list[0], &list[1]))
    } else {
        None
    }
}

/// The items of an array of three.
pub(crate) fn three_items(value: &Value) -> Option<(&Value, &Value, &Value)>
    ensures { MatchOption result ((a b c : Data) → IsArray (view value.now) (a ∷ b ∷ c ∷ []) → ⊥)
        (λ r. IsArray (view value.now) (view r.0.now ∷ view r.1.now ∷ view r.2.now ∷ [])) }
{
    let list = items(value)?;
    if list.len() == 3 {
        Some((&list[0], &list[1], &list[2]))
    } else {
        None
    }
}

/// The members of an object that has these three keys and no other.
pub(crate) fn three_members<'v>(
    value: &'v Value,
    first: &str,
    second: &str,
    third: &str,
) -> Option<(&'v Value, &'v Value, &'v Value)>
    ensures { MatchOption result
        ((a b c : Data) → HasThree (view value.now) first.now second.now third.now a b c → ⊥)
        (λ r. HasThree (view value.now) first.now second.now third.now (view r.0.now)
        (view r.1.now) (view r.2.now)) }
{
    if member_count(value)? != 3 {
        return None;
    }
    let a = value.get(first)?;
    let b = value.get(second)?;
    let c = value.get(third)?;
    Some((a, b, c))
}

/// The number of members of an object.
fn member_count(value: &Value) -> Option<usize>
    ensures { result ≡ option_map members_len (as_object (view value.now)) }
{
    let members = value.as_object()?;
    Some(members.len())
}
