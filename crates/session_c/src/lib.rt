//! The session for callers in another language. This crate owns how open and serve are called from there: a slice is passed as a
//! pointer and a length. For tests and measurements only.
#![tactic(auto)]

ghost use Rattle.std.specs.Prelude.{◌≡◌, ◌++◌, drop};
ghost use Rattle.session.specs.Memory.{limited, opening, open_words};
ghost use Rattle.session.specs.Bytes.{says_bytes, next_bytes, if_room};
ghost use Rattle.session_c.specs.Opened.{said};

/// The number and the place of the refusal of an opening; 0 and 0 where it was accepted.
#[repr(C)]
pub struct Opened {
    /// 3, or 0 for an accepted opening
    pub number: u64,
    /// 0 too many rules, 1 a bound too high, 2 memory too small; 0 for an accepted opening
    pub place: u64,
}

/// Opens a book in the lent words.
#[unsafe(no_mangle)]
pub extern "C" fn session_open(words: &mut [u64], rules: u32, bound: u32) -> Opened
    ensures said { said result ≡ opening words.old (limited rules bound) }
    ensures words { words.new ≡ open_words words.old (limited rules bound) }
{
    match session::open(words, rules, bound) {
        Ok(()) => Opened {
            number: 0,
            place: 0,
        },
        Err(refusal) => Opened {
            number: refusal.number(),
            place: refusal.place(),
        },
    }
}

/// Answers the call that the bytes are, with the answer's 24 bytes in `out`, and how many were written.
#[unsafe(no_mangle)]
pub extern "C" fn session_serve(words: &mut [u64], bytes: &[u8], out: &mut [u8]) -> usize
    ensures count { result ≡ if_room out.old 24 0 }
    ensures out { out.new ≡ if_room out.old (says_bytes words.old bytes.now ++ drop 24 out.old) out.old }
    ensures words { words.new ≡ if_room out.old (next_bytes words.old bytes.now) words.old }
{
    session::serve(words, bytes, out)
}
