//! What came of a worked case, and how an area is held against the bytes that it ought to have.
ghost use Rattle.std.specs.Prelude.{◌≡◌, ◌-◌, true, ◌++◌, length};
ghost use Rattle.worked.specs.Verdicts.{blanks, is_only, verdict_of, verdict_text};

use octets::LONGEST;
use std::fmt;

/// What an area holds before anything is written into it.
pub const BLANK: u8 = 0xAA;

/// Whether the area begins with these bytes and is blank behind them.
pub fn holds_only(area: &[u8; LONGEST], bytes: &[u8]) -> bool
    ensures test { result ≡ is_only area.now bytes.now }
    ensures whole { result ≡ true → area.now ≡ bytes.now ++ blanks (32 - length bytes.now) }
{
    area.starts_with(bytes) && area[bytes.len()..].iter().all(|byte| *byte == BLANK)
}

/// What came of a worked case.
#[derive(Clone, Copy, PartialEq, Eq, Debug)]
pub enum Verdict {
    Holds,
    Off,
}

impl From<bool> for Verdict {
    ghost from_gives = { λ held r. r ≡ verdict_of held };

    fn from(held: bool) -> Verdict {
        if held { Verdict::Holds } else { Verdict::Off }
    }
}

impl fmt::Display for Verdict {
    ghost output = { verdict_text };

    fn fmt<W: fmt::Write>(&self, f: &mut fmt::Formatter<W>) -> fmt::Result {
        f.write_str(match self {
            Verdict::Holds => "holds",
            Verdict::Off => "off",
        })
    }
}
