// A line of text, put together from its front.
ghost use Rattle.line.specs.Front.{AtFront};

// A line of at most 96 bytes, at the front of an array whose rest is 00. It is no String, as the project uses no heap.
#[derive(Drop)]
pub struct Line {
    pub bytes: [u8; 96],
    pub length: usize,
    pub ghost front: { AtFront bytes length },
}

impl Line {
    ghost use Rattle.std.specs.Prelude.{◌≡◌, ◌+◌, ◌≤◌, ◌++◌, [], length};
    ghost use Rattle.line.specs.Decimal.{decimal_of};
    ghost use Rattle.line.specs.Line.{text_of, item_of};

    // A line of no text.
    pub(crate) fn new() -> Line
        ensures { text_of result ≡ [] }
    {
        Line {
            bytes: [0; 96],
            length: 0,
        }
    }

    // Puts text behind what the line has.
    pub(crate) fn put(&mut self, text: &[u8])
        requires { self.old.length + length text.now ≤ 96 }
        ensures { text_of self.new ≡ text_of self.old ++ text.now }
    {
        let end = self.length + text.len();
        self.bytes[self.length..end].copy_from_slice(text);
        self.length = end;
    }

    // Puts the digits of n, at most 20: the digits of n / 10, then the last one.
    fn put_digits(&mut self, n: usize)
        requires { self.old.length + 20 ≤ 96 }
        ensures { text_of self.new ≡ text_of self.old ++ decimal_of n }
    {
        if 10 <= n {
            self.put_digits(n / 10);
        }
        self.put(&[b'0' + (n % 10) as u8]);
    }

    // Puts one space and the digits of n.
    pub(crate) fn put_item(&mut self, n: usize)
        requires { self.old.length + 21 ≤ 96 }
        ensures { text_of self.new ≡ text_of self.old ++ item_of n }
    {
        self.put(b" ");
        self.put_digits(n);
    }
}
