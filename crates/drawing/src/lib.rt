// A drawing in SVG, written part by part onto a page: words and numbers, attributes, shapes and captions.
//
// A page that is nearly full is written to standard output and filled from its front again, so nothing grows with a drawing.

#![tactic(auto)]

ghost use Rattle.std.specs.Prelude.{◌≡◌, ◌≤◌, length};

use notation::print::Printer;

// Standard output, as the operating system numbers it.
const STDOUT: i32 = 1;

// What is drawn and not written out yet: the bytes before `at`. A place past the page stands for none: the next part begins at the front.
#[derive(Clone, Copy)]
pub struct Page {
    pub bytes: [u8; 65536],
    pub at: usize,
}

impl Page {
    pub fn new() -> Self
        ensures { result.at ≡ 0 }
    {
        Page {
            bytes: io::large_buffer(),
            at: 0,
        }
    }

    // Writes out what stands before the page's place; no part leaves it past the page.
    pub fn write_out(&self) {
        if self.at <= self.bytes.len() {
            io::write_all(STDOUT, &self.bytes[..self.at]);
        }
    }

    // Writes out what is left on the page.
    pub fn finish(&mut self)
        ensures { self.new.at ≡ 0 }
    {
        self.write_out();
        self.at = 0;
    }

    // Makes room for 512 bytes more, by writing the page out where it is nearly full.
    fn make_room(&mut self)
        ensures { self.new.at ≤ 65024 }
    {
        if 65024 < self.at {
            self.finish();
        }
    }

    // Words as they are: whoever writes text sees to it that no byte of it is one of XML's own.
    pub fn words(&mut self, s: &[u8])
        requires { length s.now ≤ 512 }
        ensures { self.new.at ≤ 65536 }
    {
        self.make_room();
        let mut out = Printer {
            out: &mut self.bytes,
            at: self.at,
        };
        out.bytes(s);
        self.at = out.at;
    }

    #[tactic(auto, using(notation::proofs::Decimals::digits_few))]
    pub fn number(&mut self, n: usize)
        ensures { self.new.at ≤ 65536 }
    {
        self.make_room();
        let mut out = Printer {
            out: &mut self.bytes,
            at: self.at,
        };
        out.decimal(n);
        self.at = out.at;
    }

    // An attribute whose value is a number.
    pub fn attribute(&mut self, name: &[u8], n: usize)
        requires { length name.now ≤ 512 }
        ensures { self.new.at ≤ 65536 }
    {
        self.words(b" ");
        self.words(name);
        self.said(b"='", n);
        self.words(b"'");
    }

    // A place on the drawing, in points from its upper left corner.
    fn point(&mut self, x: usize, y: usize)
        ensures { self.new.at ≤ 65536 }
    {
        self.attribute(b"x", x);
        self.attribute(b"y", y);
    }

    // A rectangle from its upper left corner on, in the style of `style`, which is further attributes.
    pub fn rectangle(&mut self, x: usize, y: usize, width: usize, height: usize, style: &[u8])
        requires { length style.now ≤ 512 }
        ensures { self.new.at ≤ 65536 }
    {
        self.words(b"<rect");
        self.point(x, y);
        self.attribute(b"width", width);
        self.attribute(b"height", height);
        self.words(style);
        self.words(b"/>\n");
    }

    // A circle around its middle.
    pub fn circle(&mut self, x: usize, y: usize, radius: usize, style: &[u8])
        requires { length style.now ≤ 512 }
        ensures { self.new.at ≤ 65536 }
    {
        self.words(b"<circle");
        self.attribute(b"cx", x);
        self.attribute(b"cy", y);
        self.attribute(b"r", radius);
        self.words(style);
        self.words(b"/>\n");
    }

    // A level line from x to `to`.
    pub fn level(&mut self, x: usize, to: usize, y: usize, style: &[u8])
        requires { length style.now ≤ 512 }
        ensures { self.new.at ≤ 65536 }
    {
        self.words(b"<line");
        self.attribute(b"x1", x);
        self.attribute(b"x2", to);
        self.attribute(b"y1", y);
        self.attribute(b"y2", y);
        self.words(style);
        self.words(b"/>\n");
    }

    // The front of a caption: its words follow, and then its end.
    pub fn caption_from(&mut self, x: usize, y: usize)
        ensures { self.new.at ≤ 65536 }
    {
        self.words(b"<text");
        self.point(x, y);
        self.words(b">");
    }

    pub fn caption_end(&mut self)
        ensures { self.new.at ≤ 65536 }
    {
        self.words(b"</text>\n");
    }

    // A caption of fixed words.
    pub fn caption(&mut self, x: usize, y: usize, s: &[u8])
        requires { length s.now ≤ 512 }
        ensures { self.new.at ≤ 65536 }
    {
        self.caption_from(x, y);
        self.words(s);
        self.caption_end();
    }

    // Words and the number that they introduce.
    pub fn said(&mut self, s: &[u8], n: usize)
        requires { length s.now ≤ 512 }
        ensures { self.new.at ≤ 65536 }
    {
        self.words(s);
        self.number(n);
    }
}
