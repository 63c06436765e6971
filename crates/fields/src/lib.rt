// "Each record begins with a two-byte mark": the field reader holds the feed and a record's offset in it.
#![tactic(auto)]

ghost use Rattle.std.specs.Prelude.{◌≡◌, ◌+◌, ◌/◌, ◌%◌, length};
ghost use Rattle.laws.specs.Fields.{byte as byte_of, two as two_of};
ghost use Rattle.paper.specs.Reading.{marked};
ghost use Rattle.fields.specs.Field.{Field};

#[derive(Clone, Copy)]
pub struct Fields<'a> {
    pub feed: &'a [u8],
    pub at: usize,
}

impl Fields<'_> {
    // The record's field of one byte at `off`; past the feed's end it is 0.
    pub fn byte(self, off: usize) -> u32
        ensures { Field (byte_of self.entry.feed.now (self.entry.at + off)) 256 result }
    {
        let n = self.feed.len();
        if n <= off || n - off <= self.at {
            return 0;
        }
        self.feed[self.at + off] as u32
    }

    // Likewise two bytes, high byte first. Where `off` is past the end the answer comes at once, so that `off + 1` is a number.
    pub fn two(self, off: usize) -> u32
        ensures { Field (two_of self.entry.feed.now (self.entry.at + off)) 65536 result }
    {
        if self.feed.len() <= off {
            return 0;
        }
        self.byte(off) * 256 + self.byte(off + 1)
    }

    // Whether both bytes stand in the feed and are this mark, which is taken as one number.
    pub fn begins(self, mark: usize) -> bool
        ensures { result ≡ marked self.entry.feed.now (length self.entry.feed.now) self.entry.at 2 (mark / 256) (mark % 256) }
    {
        let n = self.feed.len();
        if n < 2 || n - 2 < self.at {
            return false;
        }
        (self.byte(0) as usize == mark / 256) & (self.byte(1) as usize == mark % 256)
    }
}

// The reader of the record at `at`.
pub fn fields_at<'a>(feed: &'a [u8], at: usize) -> Fields<'a>
    ensures { (result.feed ≡ feed.entry) × (result.at ≡ at) }
{
    Fields { feed, at }
}

// ---- the same with plain parameters

pub fn begins_in(feed: &[u8], at: usize, mark: usize) -> bool
    ensures { result ≡ marked feed.now (length feed.now) at 2 (mark / 256) (mark % 256) }
{
    fields_at(feed, at).begins(mark)
}

pub fn byte_in(feed: &[u8], at: usize, off: usize) -> u32
    ensures { Field (byte_of feed.now (at + off)) 256 result }
{
    fields_at(feed, at).byte(off)
}

pub fn two_in(feed: &[u8], at: usize, off: usize) -> u32
    ensures { Field (two_of feed.now (at + off)) 65536 result }
{
    fields_at(feed, at).two(off)
}
