ghost use Rattle.std.specs.Prelude.{◌≡◌, ◌+◌, ◌^◌, ◌<◌, length};
ghost use Rattle.sc_base.specs.Seen.{text_at};
ghost use Rattle.sc_hoist.specs.Reading.{role_in, step, depth_of, is_final, passes, takes};

use sc_base::{Names, Token, is_same};

/// What a token is to a call.
#[derive(Clone, Copy, Debug, PartialEq, Eq)]
pub enum Role {
    Opening,
    Closing,
    Other,
}

/// How far the call of a name was read.
#[derive(Clone, Copy, Debug, PartialEq, Eq)]
pub enum State {
    /// No token followed the name.
    Alone,
    /// A parenthesis opened the call, and so many more are open.
    Inside(usize),
    /// A parenthesis closed the call.
    Closed,
    /// Another token followed the name.
    Bare,
}

/// What is asked of a state.
#[derive(Clone, Copy, Debug, PartialEq, Eq)]
pub enum Test {
    IsClosed,
    IsStill,
    IsBare,
    IsAlone,
    /// No parenthesis follows the name.
    IsNoCall,
    /// Whether the next token, of this role, is one of the call.
    Takes(Role),
}

pub fn role_of(names: &Names, token: Token) -> Role
    requires { token.spelling.0 < length names.now }
    ensures { result ≡ role_in (text_at names.now token.spelling.0) }
{
    let text = names.text(token.spelling);
    if is_same(text, b"(") {
        return Role::Opening;
    }
    if is_same(text, b")") {
        return Role::Closing;
    }
    Role::Other
}

impl State {
    /// The state once a token of this role was read.
    pub fn after(self, role: Role) -> State
        requires { depth_of self + 1 < 2 ^ 64 }
        ensures { result ≡ step role self }
    {
        match self {
            State::Alone => match role {
                Role::Opening => State::Inside(0),
                _ => State::Bare,
            },
            State::Inside(depth) => inside_after(depth, role),
            _ => self,
        }
    }

    pub fn is_final(self) -> bool
        ensures { result ≡ is_final self }
    {
        matches!(self, State::Closed | State::Bare)
    }

    pub fn passes(self, test: Test) -> bool
        ensures { result ≡ passes test self }
    {
        match test {
            Test::IsClosed => matches!(self, State::Closed),
            Test::IsStill => matches!(self, State::Inside(_)),
            Test::IsBare => matches!(self, State::Bare),
            Test::IsAlone => matches!(self, State::Alone),
            Test::IsNoCall => matches!(self, State::Alone | State::Bare),
            Test::Takes(role) => self.takes(role),
        }
    }

    fn takes(self, role: Role) -> bool
        ensures { result ≡ takes role self }
    {
        match self {
            State::Alone => matches!(role, Role::Opening),
            State::Inside(_) => true,
            _ => false,
        }
    }
}

fn inside_after(depth: usize, role: Role) -> State
    requires { depth + 1 < 2 ^ 64 }
    ensures { result ≡ step role (State.Inside depth) }
{
    match role {
        Role::Opening => State::Inside(depth + 1),
        Role::Closing => {
            if depth == 0 {
                State::Closed
            } else {
                State::Inside(depth - 1)
            }
        }
        Role::Other => State::Inside(depth),
    }
}
