//! The members of the files, by name, and what each is read as.
ghost use Rattle.std.specs.Prelude.{◌≡◌, option_map};
ghost use Rattle.serde_json.specs.Find.{as_str, as_bool, as_array};
ghost use Rattle.serde_json.specs.View.{view, items_view};
ghost use Rattle.json_view.specs.Members.{shown, as_object_value};
ghost use Rattle.program_config.specs.Members.{name_of, needed, optional, object_in};

use hl_base::OutOfMemory;
use json_view::{need_list, need_text, opt_bool, opt_object, opt_text};
use serde_json::Value;

/// A member of a file.
#[derive(Clone, Copy, Debug, PartialEq, Eq)]
pub enum Member {
    Groups,
    Name,
    Libs,
    Path,
    Optional,
    AsmOptions,
    Sysparm,
    Programs,
    Program,
    Group,
}

impl Member {
    /// Its name.
    pub fn name(self) -> &'static str
        ensures { result.now ≡ name_of self }
    {
        match self {
            Member::Groups => "pgroups",
            Member::Name => "name",
            Member::Libs => "libs",
            Member::Path => "path",
            Member::Optional => "optional",
            Member::AsmOptions => "asm_options",
            Member::Sysparm => "SYSPARM",
            Member::Programs => "pgms",
            Member::Program => "program",
            Member::Group => "pgroup",
        }
    }
}

/// Why a file is not read: the first member that is missing or wrong, or want of memory.
#[derive(Clone, Copy, Debug, PartialEq, Eq)]
pub enum MemberError {
    Bad(Member),
    OutOfMemory,
}

impl From<Member> for MemberError {
    ghost use Rattle.program_config.specs.declared.members.MemberError.TheVariants.{Bad as bad};

    ghost from_gives = { λ member fault. fault ≡ bad member };

    fn from(member: Member) -> MemberError {
        MemberError::Bad(member)
    }
}

impl From<OutOfMemory> for MemberError {
    ghost use Rattle.program_config.specs.declared.members.MemberError.TheVariants.{OutOfMemory as out_of_memory};

    ghost from_gives = { λ _ fault. fault ≡ out_of_memory };

    fn from(_refused: OutOfMemory) -> MemberError {
        MemberError::OutOfMemory
    }
}

pub fn text(value: &Value, member: Member) -> Result<&str, Member>
    ensures { shown (λ s. s.now) result ≡ needed as_str member (view value.now) }
{
    need_text(value, member.name()).map_err(|_| member)
}

pub fn text_if(value: &Value, member: Member) -> Result<Option<&str>, Member>
    ensures { shown (option_map (λ s. s.now)) result ≡ optional as_str member (view value.now) }
{
    opt_text(value, member.name()).map_err(|_| member)
}

pub fn truth_if(value: &Value, member: Member) -> Result<Option<bool>, Member>
    ensures { result ≡ optional as_bool member (view value.now) }
{
    opt_bool(value, member.name()).map_err(|_| member)
}

pub fn object_if<'a>(value: &'a Value, member: Member) -> Result<Option<&'a Value>, Member>
    ensures { shown (option_map (λ o. view o.now)) result
        ≡ optional as_object_value member (view value.now) }
{
    opt_object(value, member.name()).map_err(|_| member)
}

pub fn list<'a>(value: &'a Value, member: Member) -> Result<&'a [Value], Member>
    ensures { shown (λ l. items_view l.now) result ≡ needed as_array member (view value.now) }
{
    need_list(value, member.name()).map_err(|_| member)
}

/// An element of the list of that name, which is to be an object.
pub fn element(value: &Value, list: Member) -> Result<&Value, Member>
    ensures { shown (λ o. view o.now) result ≡ object_in list (view value.now) }
{
    if value.is_object() {
        Ok(value)
    } else {
        Err(list)
    }
}
