ghost use Rattle.std.specs.Prelude.{◌≡◌, ◌<◌, length};
ghost use Rattle.sc_base.specs.Seen.{text_at};
ghost use Rattle.c11_macros.specs.Call as call;
ghost use Rattle.sc_expand.specs.Arguments.{seen_role};

use sc_base::{Name, Names, is_same};

/// What a token is in a call.
#[derive(Clone, Copy, Debug, PartialEq, Eq)]
pub enum Role {
    Opening,
    Closing,
    Comma,
    Other,
}

/// What a token of this spelling is in a call.
pub fn role_of(names: &Names, spelling: Name) -> Role
    requires { spelling.0 < length names.now }
    ensures { seen_role result ≡ call.role_of (text_at names.now spelling.0) }
{
    let text = names.text(spelling);
    if is_same(text, b"(") {
        Role::Opening
    } else if is_same(text, b")") {
        Role::Closing
    } else if is_same(text, b",") {
        Role::Comma
    } else {
        Role::Other
    }
}
