// Numbers and words written into a lent list, one after another.
ghost use Rattle.std.specs.Prelude.{◌≡◌, ◌+◌, ◌≤◌, length, [], ◌∷◌};
ghost use Rattle.model.specs.Line.{decimal as decimal_of, field as field_of};
ghost use Rattle.model.specs.TableFile.{half, word};
ghost use Rattle.notation.specs.Prints.{Prints, HasRoom};

// Bytes written into a lent list, one after another: those before `at` are written.
#[derive(Drop)]
pub struct Printer<'a> {
    pub out: &'a mut [u8],
    pub at: usize,
}

// The bytes of s into a part of a list. (One by one: the library's own copy asks the C library for memmove, and takes longer for a few.)
fn copy(s: &[u8], part: &mut [u8])
    requires { length part.old ≡ length s.now }
    ensures { part.new ≡ s.now }
{
    for (i, b) in s.iter().enumerate() {
        part[i] = *b;
    }
}

impl<'a> Printer<'a> {
    // One byte.
    pub fn byte(&mut self, b: u8)
        requires { HasRoom self.old 1 }
        ensures { Prints self.old (b ∷ []) self.new }
    {
        self.out[self.at] = b;
        self.at += 1;
    }

    // The bytes of s.
    pub fn bytes(&mut self, s: &[u8])
        requires { HasRoom self.old (length s.now) }
        ensures { Prints self.old s.now self.new }
    {
        let end = self.at + s.len();
        copy(s, &mut self.out[self.at..end]);
        self.at = end;
    }

    // The number n.
    pub fn decimal(&mut self, n: usize)
        requires { HasRoom self.old (length (decimal_of n)) }
        ensures { Prints self.old (decimal_of n) self.new }
    {
        if 9 < n {
            self.decimal(n / 10);
        }
        self.byte(48 + (n % 10) as u8);
    }

    // A space and the number n.
    pub fn field(&mut self, n: usize)
        requires { HasRoom self.old 21 }
        ensures printed { Prints self.old (field_of n) self.new }
        ensures short { self.new.at ≤ self.old.at + 21 }
    {
        self.byte(b' ');
        self.decimal(n);
    }

    // The number n in 2 bytes, big-endian, and in 4.
    pub fn half(&mut self, n: usize)
        requires { HasRoom self.old 2 }
        ensures { Prints self.old (half n) self.new }
    {
        self.bytes(&[(n / 256 % 256) as u8, (n % 256) as u8]);
    }

    pub fn word(&mut self, n: usize)
        requires { HasRoom self.old 4 }
        ensures { Prints self.old (word n) self.new }
    {
        self.half(n / 65536);
        self.half(n);
    }
}
