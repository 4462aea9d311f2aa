//! One entry of the table: a segment, and the lowest net beyond it; and its words, both ways.
ghost use Rattle.std.specs.Prelude.{◌≡◌, ◌<◌};
ghost use Rattle.raise.specs.Lowest.{lowest_with};
ghost use Rattle.segments.specs.Segments.{Sized};
ghost use Rattle.lowest.specs.Entries.{entry_words, read_entry, ReadsBack};

use segments::Segment;

/// How many words an entry has.
pub const ENTRY_WORDS: usize = 6;

/// A segment, and the least net of all grosses beyond it, up to the bound; none for the last segment, beyond which there are none.
#[derive(Clone, Copy, Debug, PartialEq, Eq)]
pub struct Entry {
    pub segment: Segment,
    /// in ten-thousandths
    pub lowest_above: Option<i64>,
}

impl Entry {
    /// Its words. A signed number is the word that has its bits.
    pub(crate) fn words(self) -> [u64; ENTRY_WORDS]
        ensures { result ≡ entry_words self }
    {
        let Segment {
            from,
            to,
            net,
            slope,
        } = self.segment;
        let (known, lowest) = match self.lowest_above {
            None => (0, 0),
            Some(net) => (1, net.cast_unsigned()),
        };
        [
            from.into(),
            to.into(),
            net.cast_unsigned(),
            slope.cast_unsigned(),
            known,
            lowest,
        ]
    }

    /// The least net of the segment and of all grosses beyond it.
    pub(crate) fn lowest(self) -> i64
        requires sized { Sized self.segment }
        requires some { self.segment.from < self.segment.to }
        ensures { result ≡ lowest_with self.segment.from self.segment.to self.segment.net self.segment.slope self.lowest_above }
    {
        let ends = self
            .segment
            .net
            .min(self.segment.net_at(self.segment.to - 1));
        match self.lowest_above {
            None => ends,
            Some(beyond) => ends.min(beyond),
        }
    }
}

/// The entry that words hold, if they hold one. What was written is read back.
pub fn read_entry(words: &[u64; ENTRY_WORDS]) -> Option<Entry>
    ensures entry { result ≡ read_entry words.now }
    ensures back { ReadsBack }
{
    let [from, to, net, slope, known, lowest] = *words;
    let segment = Segment {
        from: u32::try_from(from).ok()?,
        to: u32::try_from(to).ok()?,
        net: net.cast_signed(),
        slope: slope.cast_signed(),
    };
    let lowest_above = match (known, lowest) {
        (0, 0) => None,
        (1, lowest) => Some(lowest.cast_signed()),
        _ => return None,
    };
    Some(Entry {
        segment,
        lowest_above,
    })
}
