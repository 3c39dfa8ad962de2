//! Members of a value, by name and kind.
ghost use Rattle.std.specs.Prelude.{◌≡◌, Some, option_map};
ghost use Rattle.serde_json.specs.Find.{as_str, as_array, as_bool};
ghost use Rattle.serde_json.specs.View.{view, items_view};
ghost use Rattle.json_view.specs.Members.{member_of, unless_missing, shown, as_object_value, as_u32, as_i32};

use serde_json::Value;
use thiserror::Error;

/// Why there is no member of that name and kind.
#[derive(Clone, Copy, Debug, PartialEq, Eq, Error)]
pub enum MemberFault {
    /// The value has no member of that name, or is no object.
    #[error("missing")]
    Missing,

    /// The member is of another kind; `null` is a kind of its own.
    #[error("of a wrong kind")]
    WrongKind,
}

/// The text under a name.
pub fn need_text<'a>(v: &'a Value, member: &str) -> Result<&'a str, MemberFault>
    ensures { shown (λ s. s.now) result ≡ member_of as_str member.now (view v.now) }
{
    found(v, member)?.as_str().ok_or(MemberFault::WrongKind)
}

/// The whole number under a name, from 0 to 2^32 - 1.
pub fn need_uint(v: &Value, member: &str) -> Result<u32, MemberFault>
    ensures { result ≡ member_of as_u32 member.now (view v.now) }
{
    let whole = found(v, member)?.as_u64().ok_or(MemberFault::WrongKind)?;
    u32::try_from(whole).map_err(|_| MemberFault::WrongKind)
}

/// The whole number under a name, from -2^31 to 2^31 - 1.
pub fn need_int(v: &Value, member: &str) -> Result<i32, MemberFault>
    ensures { result ≡ member_of as_i32 member.now (view v.now) }
{
    let whole = found(v, member)?.as_i64().ok_or(MemberFault::WrongKind)?;
    i32::try_from(whole).map_err(|_| MemberFault::WrongKind)
}

/// The object under a name.
pub fn need_object<'a>(v: &'a Value, member: &str) -> Result<&'a Value, MemberFault>
    ensures { shown (λ o. view o.now) result ≡ member_of as_object_value member.now (view v.now) }
{
    let value = found(v, member)?;
    if value.is_object() {
        Ok(value)
    } else {
        Err(MemberFault::WrongKind)
    }
}

/// The items of the list under a name.
pub fn need_list<'a>(v: &'a Value, member: &str) -> Result<&'a [Value], MemberFault>
    ensures { shown (λ list. items_view list.now) result
        ≡ member_of as_array member.now (view v.now) }
{
    found(v, member)?
        .as_array()
        .map(|list| list.as_slice())
        .ok_or(MemberFault::WrongKind)
}

/// The truth value under a name.
fn need_bool(v: &Value, member: &str) -> Result<bool, MemberFault>
    ensures { result ≡ member_of as_bool member.now (view v.now) }
{
    found(v, member)?.as_bool().ok_or(MemberFault::WrongKind)
}

/// The text under a name, if it is there.
pub fn opt_text<'a>(v: &'a Value, member: &str) -> Result<Option<&'a str>, MemberFault>
    ensures { shown (option_map (λ s. s.now)) result
        ≡ unless_missing (member_of as_str member.now (view v.now)) }
{
    unless_missing(need_text(v, member))
}

/// The whole number under a name, from 0 to 2^32 - 1, if it is there.
pub fn opt_uint(v: &Value, member: &str) -> Result<Option<u32>, MemberFault>
    ensures { result ≡ unless_missing (member_of as_u32 member.now (view v.now)) }
{
    unless_missing(need_uint(v, member))
}

/// The object under a name, if it is there.
pub fn opt_object<'a>(v: &'a Value, member: &str) -> Result<Option<&'a Value>, MemberFault>
    ensures { shown (option_map (λ o. view o.now)) result
        ≡ unless_missing (member_of as_object_value member.now (view v.now)) }
{
    unless_missing(need_object(v, member))
}

/// The items of the list under a name, if it is there.
pub fn opt_list<'a>(v: &'a Value, member: &str) -> Result<Option<&'a [Value]>, MemberFault>
    ensures { shown (option_map (λ list. items_view list.now)) result
        ≡ unless_missing (member_of as_array member.now (view v.now)) }
{
    unless_missing(need_list(v, member))
}

/// The truth value under a name, if it is there.
pub fn opt_bool(v: &Value, member: &str) -> Result<Option<bool>, MemberFault>
    ensures { result ≡ unless_missing (member_of as_bool member.now (view v.now)) }
{
    unless_missing(need_bool(v, member))
}

/// The member under a name, of whatever kind.
fn found<'a>(v: &'a Value, member: &str) -> Result<&'a Value, MemberFault>
    ensures { shown (λ value. view value.now) result ≡ member_of Some member.now (view v.now) }
{
    v.get(member).ok_or(MemberFault::Missing)
}

/// An answer in which a member that is missing is no fault.
fn unless_missing<T>(needed: Result<T, MemberFault>) -> Result<Option<T>, MemberFault>
    ensures { result ≡ unless_missing needed }
{
    match needed {
        Ok(value) => Ok(Some(value)),
        Err(MemberFault::Missing) => Ok(None),
        Err(MemberFault::WrongKind) => Err(MemberFault::WrongKind),
    }
}
