//! The operators of requirements.

ghost use Rattle.std.specs.Prelude.{◌≡◌, Some};
ghost use Rattle.std.specs.Option.{option_map};
ghost use Rattle.version_order.specs.texts.Front.{after_mark};
ghost use Rattle.version_rules.specs.requirement.Requirement.{after_word, op_front, op_text};

use std::fmt;

/// How a version must compare with that of a requirement. docs/REQUIREMENTS.md has the rules.
#[derive(Clone, Copy, Debug, PartialEq, Eq, Hash)]
pub enum Op {
    /// `=`: equal, by `==`.
    Exact,
    /// `>`: after it in precedence.
    Greater,
    /// `>=`: not before it in precedence.
    GreaterEq,
    /// `<`: before it in precedence.
    Less,
    /// `<=`: not after it in precedence.
    LessEq,
    /// `~`: of the same kind; only the last part may be greater.
    Tilde,
    /// `^`: of the same kind; the parts after the first that is not 0 may be greater.
    Caret,
    /// `*`: any version.
    Wildcard,
}

impl Op {
    /// Returns the operator that a text begins with, and the rest, or None without one. Of two operators the longer
    /// counts. Does not allocate.
    #[tactic(auto, unfolding(crate::specs::requirement::Requirement::op_front))]
    pub fn split(text: &[u8]) -> Option<(Op, &[u8])>
        ensures { option_map (λ r. (r.0, r.1.now)) result ≡ op_front text.now }
    {
        let op = match text {
            [b'=', ..] => Op::Exact,
            [b'>', b'=', ..] => Op::GreaterEq,
            [b'>', ..] => Op::Greater,
            [b'<', b'=', ..] => Op::LessEq,
            [b'<', ..] => Op::Less,
            [b'~', ..] => Op::Tilde,
            [b'^', ..] => Op::Caret,
            [b'*', ..] => Op::Wildcard,
            _ => return None,
        };
        Some((op, op.strip(text)?))
    }

    // Returns what follows the operator, if the text begins with it.
    #[inline(always)]
    fn strip(self, text: &[u8]) -> Option<&[u8]>
        ensures { option_map (λ r. r.now) result ≡ after_word (op_text self) text.now }
    {
        match self {
            Op::Exact => after_byte(text, b'='),
            Op::Greater => after_byte(text, b'>'),
            Op::GreaterEq => after_byte(after_byte(text, b'>')?, b'='),
            Op::Less => after_byte(text, b'<'),
            Op::LessEq => after_byte(after_byte(text, b'<')?, b'='),
            Op::Tilde => after_byte(text, b'~'),
            Op::Caret => after_byte(text, b'^'),
            Op::Wildcard => after_byte(text, b'*'),
        }
    }
}

// Returns what follows a byte, if the text begins with it.
#[inline(always)]
fn after_byte(text: &[u8], byte: u8) -> Option<&[u8]>
    ensures { option_map (λ r. r.now) result ≡ after_mark byte text.now }
{
    match text {
        [first, rest @ ..] if *first == byte => Some(rest),
        _ => None,
    }
}

impl fmt::Display for Op {
    ghost output = { λ op. Some (op_text op) };

    fn fmt<W: fmt::Write>(&self, f: &mut fmt::Formatter<W>) -> fmt::Result {
        f.write_str(match self {
            Op::Exact => "=",
            Op::Greater => ">",
            Op::GreaterEq => ">=",
            Op::Less => "<",
            Op::LessEq => "<=",
            Op::Tilde => "~",
            Op::Caret => "^",
            Op::Wildcard => "*",
        })
    }
}
