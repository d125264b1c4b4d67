// Classes of roles.
ghost use Rattle.std.specs.Prelude.{◌≡◌};
ghost use Rattle.judge.specs.Roles.{among_roles, op_roles, type_roles, number_roles, listed_roles, item_roles};

use grammar::symbols::Role;

#[tactic(auto, unfolding(crate::specs::Roles::among_roles))]
pub fn is_op(role: u8) -> bool
    ensures { result ≡ among_roles op_roles role }
{
    matches!(role, Role::OP_NAME | Role::BODY_OP_NAME)
}

#[tactic(auto, unfolding(crate::specs::Roles::among_roles))]
pub fn is_type(role: u8) -> bool
    ensures { result ≡ among_roles type_roles role }
{
    matches!(
        role,
        Role::INPUT_TYPE
            | Role::OUTPUT_TYPE
            | Role::OPERAND_TYPE
            | Role::RESULT_TYPE
            | Role::ARGUMENT_TYPE
            | Role::DENSE_TYPE
    )
}

#[tactic(auto, unfolding(crate::specs::Roles::among_roles))]
pub fn is_number(role: u8) -> bool
    ensures { result ≡ among_roles number_roles role }
{
    matches!(role, Role::SINGLE_NUMBER | Role::LIST_NUMBER)
}

#[tactic(auto, unfolding(crate::specs::Roles::among_roles))]
pub fn is_listed(role: u8) -> bool
    ensures { result ≡ among_roles listed_roles role }
{
    matches!(
        role,
        Role::INPUT_NAME
            | Role::ARGUMENT_NAME
            | Role::RESULT_NAME
            | Role::OPERAND_NAME
            | Role::OPERAND_TYPE
            | Role::RESULT_TYPE
            | Role::OUTPUT_TYPE
    )
}

#[tactic(auto, unfolding(crate::specs::Roles::among_roles))]
pub fn is_item(role: u8) -> bool
    ensures { result ≡ among_roles item_roles role }
{
    role == Role::LIST_NUMBER || is_listed(role)
}
