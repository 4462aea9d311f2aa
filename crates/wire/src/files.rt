//! A file of calls: its head, and the cut into calls.
ghost use Rattle.std.specs.Prelude.{◌≡◌, ◌<◌, ◌≤◌, length, MatchOption};
ghost use Rattle.wire.specs.Fields.{number_at};
ghost use Rattle.std.specs.Iterator.{YieldsFirstRef, item_count};
ghost use Rattle.wire.specs.Files.{first_call, after_call, calls_in, calls_left, CutByCut, FilesReadBack};

use crate::calls::field;

/// The limit of rules and the bound that a file begins with.
#[derive(Clone, Copy, Debug, PartialEq, Eq)]
pub struct Head {
    /// how many rules there may be
    pub rules: u32,
    /// up to which earning it is asked, in units
    pub bound: u32,
}

/// The head of a file, if the file has all of it.
pub fn read_head(file: &[u8]) -> Option<Head>
    ensures { MatchOption result (length file.now < 8) (λ h. (8 ≤ length file.now) × (h.rules ≡ number_at 4 file.now 0) × (h.bound ≡ number_at 4 file.now 4)) }
{
    let rules = field(file, 0)?;
    let bound = field(file, 4)?;
    Some(Head { rules, bound })
}

/// The first call of what follows the head, and what follows that call; none where nothing is left.
/// Any file is cut call by call, and one that was written is cut into the calls that were written.
#[tactic(auto, using(crate::proofs::FileLaws::cut_by_cut, crate::proofs::FileLaws::files_read_back))]
pub fn next_call(rest: &[u8]) -> Option<(&[u8], &[u8])>
    ensures first { MatchOption result (length rest.now ≡ 0) (λ p. (0 < length rest.now) × (p.0.now ≡ first_call rest.now) × (p.1.now ≡ after_call rest.now)) }
    ensures cut { CutByCut }
    ensures back { FilesReadBack }
{
    if rest.is_empty() {
        return None;
    }
    let Some((length, body)) = rest.split_first_chunk() else {
        return Some((&[], &[]));
    };
    // `usize` has no `From` of `u32`.
    let length = u32::from_le_bytes(*length) as usize;
    Some(body.split_at(length.min(body.len())))
}

/// The calls of what follows the head, from the first on.
#[derive(Clone, Debug, Drop)]
pub struct Calls<'a> {
    rest: &'a [u8],
}

impl<'a> Calls<'a> {
    /// Those of what follows the head of a file.
    pub fn new(rest: &'a [u8]) -> Calls<'a>
        ensures { calls_left result ≡ calls_in rest.now }
    {
        Calls { rest }
    }
}

impl<'a> Iterator for Calls<'a> {
    type Item = &'a [u8];

    ghost next_gives = { YieldsFirstRef calls_left };

    ghost remaining = { item_count calls_left };

    #[tactic(auto, unfolding(crate::specs::Files::cut))]
    fn next(&mut self) -> Option<&'a [u8]> {
        let (call, rest) = next_call(self.rest)?;
        self.rest = rest;
        Some(call)
    }
}
