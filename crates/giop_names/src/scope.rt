//! Where a part of an interface file stands: specs/Scopes.antt. Change both.
ghost use Rattle.std.specs.Prelude.{◌≡◌};
ghost use Rattle.giop_names.specs.Scopes.{is_left_out, scope_at, scope_under};

/// Where a part of an interface file stands.
#[derive(Clone, Copy, Debug, PartialEq, Eq)]
pub enum Scope {
    /// It is the file.
    Interface,
    /// It is the operations.
    Operations,
    /// It is an operation.
    Operation,
    /// It stands anywhere else in the file.
    Elsewhere,
    /// A name stands for it, or for what it is a part of.
    Named,
}

/// Whether the plain form has no such key there.
pub fn is_left_out(scope: Scope, key: &str) -> bool
    ensures { result ≡ is_left_out scope key.now }
{
    match scope {
        Scope::Interface => key == "id" || key == "types" || key == "comment",
        Scope::Operation => key == "raises" || key == "comment",
        _ => false,
    }
}

/// Where what is under a key stands.
pub fn scope_under(scope: Scope, key: &str) -> Scope
    ensures { result ≡ scope_under scope key.now }
{
    match scope {
        Scope::Interface if key == "operations" => Scope::Operations,
        Scope::Operations => Scope::Operation,
        Scope::Named => Scope::Named,
        _ => Scope::Elsewhere,
    }
}

/// Where an item of a list stands.
pub fn scope_at(scope: Scope) -> Scope
    ensures { result ≡ scope_at scope }
{
    match scope {
        Scope::Named => Scope::Named,
        _ => Scope::Elsewhere,
    }
}
