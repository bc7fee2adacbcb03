// Numbers in decimal, read from a text: a run of digits, whatever stands after it.
ghost use Rattle.std.specs.Prelude.{◌≡◌, true, ◌+◌, ◌≤◌};
ghost use Rattle.model.specs.FloorText.{is_digit};
ghost use Rattle.notation.specs.Runs.{with_digit, run_at};

// A run of digits: its value, and the place after it.
#[derive(Clone, Copy)]
pub struct Run {
    pub value: usize,
    pub after: usize,
}

fn is_digit(b: u8) -> bool
    ensures { result ≡ is_digit b }
{
    b.is_ascii_digit()
}

// The value with one digit more.
fn with_digit(most: usize, value: usize, b: u8) -> usize
    requires { (most ≤ 4294967295) × (value ≤ most + 1) × (is_digit b ≡ true) }
    ensures { (result ≡ with_digit most value b) × (result ≤ most + 1) }
{
    let n = 10 * value + usize::from(b - b'0');
    if most < n {
        return most + 1;
    }
    n
}

// The run of digits from a place on, which may be empty. However long it is, a value above `most` is most + 1.
pub fn read(text: &[u8], at: usize, most: usize) -> Run
    requires { most ≤ 4294967295 }
    ensures { result ≡ run_at most text.now at }
{
    let mut value = 0;
    for i in at..text.len() {
        let b = text[i];
        if !is_digit(b) {
            return Run { value, after: i };
        }
        value = with_digit(most, value, b);
    }
    Run {
        value,
        after: at.max(text.len()),
    }
}
