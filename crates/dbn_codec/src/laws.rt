//! Bodies and members determine each other.

ghost use Rattle.std.specs.Prelude.{◌≡◌, ◌<◌, ℕ, List, Some, All};
ghost use Rattle.dbn_value.specs.declared.member.Member.{Member};
ghost use Rattle.dbn_codec.specs.Bodies.{Shapes, body, group_body, IsMember, IsGroup};
ghost use Rattle.dbn_codec.specs.Reading.{read_body, read_group};

/// The body of a member is read as that member, and the body of a group as that group.
#[tactic(auto, using(crate::proofs::Members::body_again, crate::proofs::Members::group_again))]
pub fn bodies_are_read_again()
    ensures one { (shapes : Shapes) (member : Member) → IsMember shapes member → read_body shapes (body member) ≡ Some member }
    ensures group { (shapes : Shapes) (members : List Member) → IsGroup shapes members → read_group shapes (group_body members) ≡ Some members }
{}

/// What bytes are read as has these bytes as its body.
pub fn what_is_read_has_that_body()
    ensures one { (shapes : Shapes) (bytes : List ℕ) (member : Member) → All (λ b. b < 256) bytes → read_body shapes bytes ≡ Some member → IsMember shapes member × (bytes ≡ body member) }
    ensures group { (shapes : Shapes) (bytes : List ℕ) (members : List Member) → All (λ b. b < 256) bytes → read_group shapes bytes ≡ Some members → IsGroup shapes members × (bytes ≡ group_body members) }
{}

/// Two bodies are the same only for the same members.
#[tactic(auto, using(crate::proofs::Members::one_body, crate::proofs::Members::one_group))]
pub fn other_members_have_other_bodies()
    ensures one { (shapes : Shapes) (a b : Member) → IsMember shapes a → IsMember shapes b → body a ≡ body b → a ≡ b }
    ensures group { (shapes : Shapes) (a b : List Member) → IsGroup shapes a → IsGroup shapes b → group_body a ≡ group_body b → a ≡ b }
{}
