// The role book, a type that holds sixteen roles within their limits and nothing else.
ghost use Rattle.std.specs.Prelude.{◌≡◌, true};
ghost use Rattle.schemes.specs.Roles.{every_in_limits};

use super::role::Role;

#[derive(Clone, Copy)]
pub struct RoleBook {
    roles: [Role; 16],
    ghost limits: { every_in_limits roles ≡ true },
}

mod rows;

pub use rows::BookFault;
