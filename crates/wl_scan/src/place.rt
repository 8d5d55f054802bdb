//! What is known at a place of a text about the bytes before it.
ghost use Rattle.std.specs.Prelude.{◌≡◌, ◌<◌, ◌≤◌, ◌+◌, ◌-◌, ◌*◌, ◌^◌, length};
ghost use Rattle.wl_scan.specs.Places.{after, after_code, after_comment, in_comment, opened, outside, seen, is_continuing, is_complete, is_code, is_end, is_rest, nesting, run_length, run_place};

use crate::characters::is_blank;

/// Where a place lies. The number is that of the comments that are open there.
#[derive(Clone, Copy)]
pub enum Region {
    /// Outside strings and comments.
    Code,
    /// Behind a `(` in code, which opens a comment where a `*` follows.
    Opening,
    /// In a string.
    Quoted,
    /// Behind a `\` in a string, which takes the next byte with it.
    Escape,
    /// In a comment.
    Comment(u64),
    /// Behind a `(` in a comment, which opens another where a `*` follows.
    CommentOpening(u64),
    /// Behind a `*` in a comment, which closes it where a `)` follows.
    CommentClosing(u64),
}

impl Region {
    /// Whether it is outside strings and comments.
    #[inline(always)]
    pub fn is_code(self) -> bool
        ensures { result ≡ is_code self }
    {
        matches!(self, Region::Code)
    }

    /// Where the place behind one byte more of a comment lies.
    #[inline(always)]
    pub fn in_comment(self, byte: u8) -> Region
        requires { nesting self < 2 ^ 63 }
        ensures region { result ≡ in_comment self byte }
        ensures nesting { nesting result ≤ nesting self + 1 }
    {
        match self {
            Region::Comment(count) => after_comment(count, byte),
            Region::CommentOpening(count) => match byte {
                b'*' => Region::Comment(count + 1),
                _ => after_comment(count, byte),
            },
            Region::CommentClosing(count) => match byte {
                b')' => outside(count),
                _ => after_comment(count, byte),
            },
            _ => self,
        }
    }
}

/// What the bytes of a cell up to a place leave: the region, the depth of brackets, and the last two significant bytes.
#[derive(Clone, Copy)]
pub struct Place {
    pub region: Region,
    pub depth: u64,
    pub last: Option<u8>,
    pub before_last: Option<u8>,
}

impl Place {
    /// Where a cell begins.
    pub const BEGINNING: Place = Place {
        region: Region::Code,
        depth: 0,
        last: None,
        before_last: None,
    };

    #[inline(always)]
    fn seen(self, byte: u8) -> Place
        ensures { result ≡ seen self byte }
    {
        if is_blank(byte) {
            return self;
        }
        Place {
            last: Some(byte),
            before_last: self.last,
            ..self
        }
    }

    #[inline(always)]
    fn opened(self) -> Place
        requires { self.depth < 2 ^ 63 }
        ensures { result ≡ opened self }
    {
        Place {
            region: Region::Code,
            depth: self.depth + 1,
            ..self.seen(b'(')
        }
    }

    #[inline(always)]
    fn after_code(self, byte: u8) -> Place
        requires { self.depth < 2 ^ 64 - 1 }
        ensures { result ≡ after_code self byte }
    {
        match byte {
            b'(' => Place {
                region: Region::Opening,
                ..self
            },
            b'"' => Place {
                region: Region::Quoted,
                ..self.seen(byte)
            },
            b'[' | b'{' => Place {
                depth: self.depth + 1,
                ..self.seen(byte)
            },
            b')' | b']' | b'}' => Place {
                depth: self.depth.saturating_sub(1),
                ..self.seen(byte)
            },
            _ => self.seen(byte),
        }
    }

    /// What is known behind one byte more.
    #[inline(always)]
    fn after(self, byte: u8) -> Place
        requires depth { self.depth < 2 ^ 63 }
        requires nesting { nesting self.region < 2 ^ 63 }
        ensures place { result ≡ after self byte }
        ensures depth { result.depth ≤ self.depth + 2 }
        ensures nesting { nesting result.region ≤ nesting self.region + 1 }
    {
        match self.region {
            Region::Code => self.after_code(byte),
            Region::Opening => match byte {
                b'*' => self.moved(Region::Comment(1)),
                _ => self.opened().after_code(byte),
            },
            Region::Quoted => match byte {
                b'"' => self.seen(byte).moved(Region::Code),
                b'\\' => self.seen(byte).moved(Region::Escape),
                _ => self.seen(byte),
            },
            Region::Escape => self.seen(byte).moved(Region::Quoted),
            _ => self.moved(self.region.in_comment(byte)),
        }
    }

    #[inline(always)]
    fn moved(self, region: Region) -> Place
        ensures { result ≡ record self { region = region } }
    {
        Place { region, ..self }
    }

    /// Whether this byte ends the cell.
    #[inline(always)]
    fn is_end(self, byte: u8) -> bool
        ensures { result ≡ is_end self byte }
    {
        byte == b'\n'
            && self.region.is_code()
            && self.depth == 0
            && is_complete(self.last, self.before_last)
    }

    /// Whether a cell stands here where the input ends.
    pub fn is_rest(self) -> bool
        ensures { result ≡ is_rest self }
    {
        self.last.is_some() || !self.region.is_code()
    }

    /// Goes over the bytes before the first that ends the cell: what is known behind them, and how many they are.
    pub fn run(self, bytes: &[u8]) -> (Place, usize)
        requires depth { self.depth + 2 * length bytes.now ≤ 2 ^ 63 }
        requires nesting { nesting self.region + length bytes.now ≤ 2 ^ 63 }
        ensures place { result.0 ≡ run_place self bytes.now }
        ensures count { result.1 ≡ run_length self bytes.now }
        ensures within { result.1 ≤ length bytes.now }
        ensures depth { result.0.depth ≤ self.depth + 2 * result.1 }
        ensures nesting { nesting result.0.region ≤ nesting self.region + result.1 }
    {
        let mut place = self;
        for (count, byte) in bytes.iter().enumerate() {
            if place.is_end(*byte) {
                return (place, count);
            }
            place = place.after(*byte);
        }
        (place, bytes.len())
    }
}

#[inline(always)]
fn after_comment(count: u64, byte: u8) -> Region
    ensures { result ≡ after_comment count byte }
{
    match byte {
        b'(' => Region::CommentOpening(count),
        b'*' => Region::CommentClosing(count),
        _ => Region::Comment(count),
    }
}

#[inline(always)]
fn outside(count: u64) -> Region
    ensures { result ≡ outside count }
{
    match count {
        1 => Region::Code,
        _ => Region::Comment(count.saturating_sub(1)),
    }
}

fn is_continuing(last: u8, before: Option<u8>) -> bool
    ensures { result ≡ is_continuing last before }
{
    match last {
        b'*' | b'/' | b'^' | b'=' | b'<' | b'>' | b',' | b'|' | b'@' | b'~' | b'?' | b':' => true,
        b'+' | b'-' => before != Some(last),
        b'&' => before == Some(b'&'),
        b'.' | b';' => before == Some(b'/'),
        _ => false,
    }
}

#[inline(always)]
fn is_complete(last: Option<u8>, before: Option<u8>) -> bool
    ensures { result ≡ is_complete last before }
{
    match last {
        Some(last) => !is_continuing(last, before),
        None => false,
    }
}
