//! What answers say of members.
ghost use Rattle.std.specs.Prelude.{◌≡◌, IfOk, option_map};
ghost use Rattle.kept_values.specs.Answers.{answer_tree};
ghost use Rattle.kept_values.specs.Keys.{key_tree};
ghost use Rattle.kept_values.specs.Trees.{look_up};
ghost use Rattle.asking_core.specs.Places.{pairs_of};
ghost use Rattle.call_sites.specs.Values.{known_tree};
ghost use Rattle.asked_definitions.specs.Asked.{member_in};

use asking_core::Noted;
use call_sites::Known;
use hl_base::{Answer, Key, OutOfMemory};
use kept_values::Kept;
use macro_library::Member;

/// What was noted first of a key, if anything was.
pub fn known_at<'a>(answers: &'a [Noted<Key, Known>], key: &Key) -> Option<&'a Known>
    ensures { option_map (λ known. known_tree known.now) result ≡ look_up (pairs_of key_tree known_tree answers.now) (key_tree key.now) }
{
    for noted in answers {
        if noted.key.same(key) {
            return Some(&noted.value);
        }
    }
    None
}

/// What a plain answer says of a member: only that it cannot be read, if it says that.
fn member_told(answer: &Answer) -> Member
    ensures { result ≡ member_in (answer_tree answer.now) }
{
    match answer {
        Answer::Unreadable => Member::Unreadable,
        Answer::Nothing => Member::Absent,
        Answer::Number(_) => Member::Absent,
        Answer::Bit(_) => Member::Absent,
        Answer::Chars(_) => Member::Absent,
        Answer::Defined => Member::Absent,
        Answer::File(_, _) => Member::Absent,
        Answer::Meaning(_) => Member::Absent,
    }
}

/// What is known of a member: there is none, unless the answer says otherwise.
#[tactic(auto, using(crate::proofs::MemberLaws::member_back))]
pub fn member_of(known: &Known) -> Result<Member, OutOfMemory>
    ensures { IfOk result (λ member. member ≡ member_in (known_tree known.now)) }
{
    match known {
        Known::Plain(answer) => Ok(member_told(answer)),
        Known::Macro(_) => Ok(Member::Absent),
        Known::Member(member) => Ok(Member::File(member.file().share()?)),
    }
}
