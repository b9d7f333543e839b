ghost use Rattle.std.specs.Prelude.{◌≡◌, None, Some};
ghost use Rattle.std.specs.Option.{option_copied};
ghost use Rattle.sheets_http.specs.Users.{user_of, user_in};

use cell_value::{Items, Text};
use std::marker::Model;

/// The users that requests may come from. Contracts see their table of tokens and users, where
/// there is one.
#[derive(Debug, Drop)]
pub struct Users {
    table: Option<Items<(Text, Text)>>,
}

impl Model for Users {
    ghost use Rattle.std.specs.Prelude.{ℕ, List, Option};

    ghost Value = { Option (List (List ℕ × List ℕ)) };

    ghost view = { λ users. users.table };
}

impl Users {
    /// Anyone: a token is its user's name.
    pub fn anyone() -> Users
        ensures { result ≡ None }
    {
        Users { table: None }
    }

    /// The users of a table of pairs, each a token and its user.
    pub fn of(pairs: Items<(Text, Text)>) -> Users
        ensures { result ≡ Some pairs }
    {
        Users { table: Some(pairs) }
    }

    /// The user of a token (RFC 6750, section 2.1), where there is one. It takes no memory.
    pub fn user_of<'a>(&'a self, token: &'a str) -> Option<&'a str>
        ensures { option_copied result ≡ user_of self.now token.now }
    {
        match &self.table {
            Some(pairs) => user_in(pairs.as_slice(), token),
            None => Some(token),
        }
    }
}

/// The user of the first pair with the token.
fn user_in<'a>(pairs: &'a [(Text, Text)], token: &str) -> Option<&'a str>
    ensures { option_copied result ≡ user_in pairs.now token.now }
{
    for pair in pairs {
        if pair.0.as_str() == token {
            return Some(pair.1.as_str());
        }
    }
    None
}
