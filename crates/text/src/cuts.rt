//! Where a part of a line ends.
ghost use Rattle.std.specs.Prelude.{◌≡◌, ◌<◌, [], ◌∷◌, length, MatchOption};
ghost use Rattle.text.specs.Words.{before, onward, stops, words_in};

/// What ends a part: the byte that begins the next.
#[derive(Clone, Copy)]
pub(crate) enum Stop {
    Comment,
    Point,
    Blank,
    NonBlank,
}

impl Stop {
    fn at(self, byte: u8) -> bool
        ensures { result ≡ stops self byte }
    {
        let blank = matches!(byte, b' ' | b'\t' | b'\r');
        match self {
            Stop::Comment => byte == b'#',
            Stop::Point => byte == b'.',
            Stop::Blank => blank,
            Stop::NonBlank => !blank,
        }
    }
}

/// The part before the first byte that ends it, and from that byte on.
#[tactic(auto, using(crate::proofs::Pieces::cut_before, crate::proofs::Pieces::cut_onward))]
pub(crate) fn cut(bytes: &[u8], stop: Stop) -> (&[u8], &[u8])
    ensures before { result.0.now ≡ before (stops stop) bytes.now }
    ensures onward { result.1.now ≡ onward (stops stop) bytes.now }
{
    let mut count = 0;
    while count < bytes.len() && !stop.at(bytes[count]) {
        count += 1;
    }
    bytes.split_at(count)
}

/// The first word, and what follows it; none where there are only blanks.
pub(crate) fn next_word(text: &[u8]) -> Option<(&[u8], &[u8])>
    ensures { MatchOption result (words_in text.now ≡ []) (λ p. (words_in text.now ≡ p.0.now ∷ words_in p.1.now) × (length p.1.now < length text.now)) }
{
    let (_, text) = cut(text, Stop::NonBlank);
    if text.is_empty() {
        return None;
    }
    Some(cut(text, Stop::Blank))
}
